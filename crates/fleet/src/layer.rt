// A fleet under one more rule.
#[derive(Drop)]
pub struct Layer<R, F> {
    own: R,
    below: F,
}

pub mod calls;
pub mod makes;
