use model::Answer;
use std::fmt;

/// A call that was made: its name, what it is for, and its answer.
#[derive(Clone, Copy, Debug, PartialEq, Eq)]
pub struct Line {
    pub call: &'static str,
    pub purpose: &'static str,
    pub answer: Answer,
}

impl fmt::Display for Line {
    fn fmt<W: fmt::Write>(&self, f: &mut fmt::Formatter<W>) -> fmt::Result {
        write!(f, "{}, {}: {}", self.call, self.purpose, self.answer)
    }
}
