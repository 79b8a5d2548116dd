// The lines of an input that are still to come.
#[derive(Clone, Copy)]
pub struct Lines<'a> {
    rest: &'a [u8],
}

pub mod reads;
