ghost use Rattle.std.specs.Prelude.{◌≡◌};
ghost use Rattle.memory.specs.Refusals.{number as number_of_lem};

use std::fmt;

/// Why a call is refused. Where several reasons apply, the one with the lowest number is given.
#[derive(Clone, Copy, Debug, PartialEq, Eq)]
pub enum Refusal {
    /// Page size, page count or divisor that no host may have.
    Size = 1,
    /// A page or an address outside the host.
    Outside = 2,
    /// A mutator above 3 or a register above 7.
    Name = 3,
    /// More than 255 slots.
    Shape = 4,
    /// A memory or a buffer with too few words.
    Short = 5,
    /// An image of another size or layout.
    OtherImage = 6,
    /// Words that are no image.
    BadImage = 7,
    /// A list of frames that has not each number below the page count once.
    Frames = 9,
    /// The mutator is not running.
    Waits = 11,
    /// The register holds no reference.
    NoReference = 12,
    /// The object has no such slot.
    Slot = 13,
    /// The layout does not admit the value in the slot.
    Misfit = 14,
    /// No room for a new object.
    NoSpace = 15,
    /// A collection or an image is in progress.
    Busy = 16,
    /// A mutator is not running, and the call needs all of them to run.
    FaultStands = 17,
    /// No collection or image is in progress.
    Nothing = 18,
    /// No such fault stands.
    NoFault = 19,
}

impl Refusal {
    pub fn number(self) -> u32
        ensures { result ≡ number_of_lem self }
    {
        self as u32
    }
}

/// A refusal is told by its number.
impl fmt::Display for Refusal {
    fn fmt<W: fmt::Write>(&self, f: &mut fmt::Formatter<W>) -> fmt::Result {
        write!(f, "refused {}", self.number())
    }
}

/// A refused call's reason, and what it was given to keep, handed back as it was.
#[derive(Drop)]
pub struct Rejected<T> {
    pub refusal: Refusal,
    pub given: T,
}
