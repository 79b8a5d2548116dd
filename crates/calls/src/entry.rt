use crate::answer::Answer;
use crate::call::Call;
use stops::refusal::Refusal;

// A call and its answer, as a log has them.
#[derive(Clone, Copy, PartialEq, Eq, Debug)]
pub struct Entry {
    pub call: Call,
    pub answer: Result<Answer, Refusal>,
}
