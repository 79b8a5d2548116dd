// Which van comes to a stop, and the minute when it begins there.
#[derive(Clone, Copy, PartialEq, Eq, Debug)]
pub struct Visit {
    pub van: u8,
    pub minute: u16,
}
