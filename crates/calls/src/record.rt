use crate::state::State;
use stops::stop::Stop;

// What a book knows of a number: the stop that was offered under it, and what has become of it.
#[derive(Clone, Copy, PartialEq, Eq, Debug)]
pub struct Record {
    pub stop: Stop,
    pub state: State,
}
