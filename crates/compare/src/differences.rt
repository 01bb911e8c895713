use super::calls::{Answer, Refused, Reply};
use super::rights::Right;
use std::alloc::AllocError;
use std::fmt;

/// What is compared.
#[derive(Clone, Copy)]
pub enum Value {
    Answer(Answer),
    Number(u32),
    Right(Right),
    /// None where nothing is refused.
    Refusal(Option<Refused>),
}

impl From<Answer> for Value {
    fn from(answer: Answer) -> Value {
        Value::Answer(answer)
    }
}

impl From<Reply> for Value {
    fn from(reply: Reply) -> Value {
        Value::Answer(Answer::from(reply))
    }
}

impl From<u32> for Value {
    fn from(number: u32) -> Value {
        Value::Number(number)
    }
}

impl From<bool> for Value {
    fn from(flag: bool) -> Value {
        Value::Number(u32::from(flag))
    }
}

impl From<Right> for Value {
    fn from(right: Right) -> Value {
        Value::Right(right)
    }
}

impl From<Option<Refused>> for Value {
    fn from(refusal: Option<Refused>) -> Value {
        Value::Refusal(refusal)
    }
}

/// A right and a refusal are told by their numbers.
impl fmt::Display for Value {
    fn fmt<W: fmt::Write>(&self, f: &mut fmt::Formatter<W>) -> fmt::Result {
        match *self {
            Value::Answer(answer) => write!(f, "{answer}"),
            Value::Number(number) => write!(f, "{number}"),
            Value::Right(right) => write!(f, "{}", right as u32),
            Value::Refusal(Some(refused)) => write!(f, "{}", refused.number),
            Value::Refusal(None) => write!(f, "0"),
        }
    }
}

/// Something that is not as expected.
#[derive(Clone, Copy)]
pub struct Difference {
    pub what: &'static str,
    pub expected: Value,
    pub found: Value,
}

impl Difference {
    pub fn new<T: Into<Value>, U: Into<Value>>(
        what: &'static str,
        expected: T,
        found: U,
    ) -> Difference {
        Difference {
            what,
            expected: expected.into(),
            found: found.into(),
        }
    }

    /// A refusal of what is not to be refused.
    pub fn refused<R: Into<Refused>>(what: &'static str, refusal: R) -> Difference {
        Difference {
            what,
            expected: Value::Refusal(None),
            found: Value::Refusal(Some(refusal.into())),
        }
    }
}

impl fmt::Display for Difference {
    fn fmt<W: fmt::Write>(&self, f: &mut fmt::Formatter<W>) -> fmt::Result {
        let what = self.what;
        write!(
            f,
            "{what}: expected {}, found {}",
            self.expected, self.found
        )
    }
}

/// A difference unless two values are equal.
pub fn differ<T: Copy + PartialEq + Into<Value>>(
    what: &'static str,
    expected: T,
    found: T,
) -> Result<(), Difference> {
    if expected == found {
        return Ok(());
    }
    Err(Difference::new(what, expected, found))
}

/// A difference if a number is above a limit.
pub fn exceed(what: &'static str, limit: u32, found: u32) -> Result<(), Difference> {
    if found <= limit {
        return Ok(());
    }
    Err(Difference::new(what, limit, found))
}

/// Why a list ends early.
#[derive(Drop)]
pub enum Stop {
    Differs(Difference),
    Failed(anyhow::Error),
}

impl From<Difference> for Stop {
    fn from(difference: Difference) -> Stop {
        Stop::Differs(difference)
    }
}

impl From<AllocError> for Stop {
    fn from(error: AllocError) -> Stop {
        Stop::Failed(anyhow::Error::from(error))
    }
}

impl From<anyhow::Error> for Stop {
    fn from(error: anyhow::Error) -> Stop {
        Stop::Failed(error)
    }
}
