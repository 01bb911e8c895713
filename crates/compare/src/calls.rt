use std::fmt;

// This model has types of its own for calls, refusals, answers, rights, phases and layouts, so that it shares nothing with what
// it tests.

/// A call of the heap, with its arguments: mutators m and f, registers d, s, v, a and b, slot i.
#[derive(Clone, Copy, PartialEq, Eq)]
pub enum Call {
    New { m: u32, d: u32, r: u32, w: u32 },
    Load { m: u32, d: u32, s: u32, i: u32 },
    Store { m: u32, s: u32, i: u32, v: u32 },
    Copy { m: u32, d: u32, f: u32, s: u32 },
    SetNumber { m: u32, d: u32, n: u32 },
    SetNil { m: u32, d: u32 },
    Same { m: u32, a: u32, b: u32 },
    Tell { m: u32, s: u32 },
    Count,
    Flip,
    Step,
    Take { m: u32 },
    /// The fault that mutator m's TAKE handed out, on a page, and the words of the buffer that are lent.
    Resolve { m: u32, page: u32, lent: usize },
    Mark { lent: usize },
    Save { lent: usize },
}

/// A kind of calls, without the arguments.
#[derive(Clone, Copy)]
pub enum CallKind {
    New,
    Load,
    Store,
    Copy,
    SetNumber,
    SetNil,
    Same,
    Tell,
    Count,
    Flip,
    Step,
    Take,
    Resolve,
    Mark,
    Save,
}

/// How many kinds of calls there are.
pub const KINDS: usize = 15;

/// All kinds, in their order.
pub const CALL_KINDS: [CallKind; KINDS] = [
    CallKind::New,
    CallKind::Load,
    CallKind::Store,
    CallKind::Copy,
    CallKind::SetNumber,
    CallKind::SetNil,
    CallKind::Same,
    CallKind::Tell,
    CallKind::Count,
    CallKind::Flip,
    CallKind::Step,
    CallKind::Take,
    CallKind::Resolve,
    CallKind::Mark,
    CallKind::Save,
];

impl fmt::Display for CallKind {
    fn fmt<W: fmt::Write>(&self, f: &mut fmt::Formatter<W>) -> fmt::Result {
        let name = match self {
            CallKind::New => "NEW",
            CallKind::Load => "LOAD",
            CallKind::Store => "STORE",
            CallKind::Copy => "COPY",
            CallKind::SetNumber => "SETNUM",
            CallKind::SetNil => "SETNIL",
            CallKind::Same => "SAME",
            CallKind::Tell => "TELL",
            CallKind::Count => "COUNT",
            CallKind::Flip => "FLIP",
            CallKind::Step => "STEP",
            CallKind::Take => "TAKE",
            CallKind::Resolve => "RESOLVE",
            CallKind::Mark => "MARK",
            CallKind::Save => "SAVE",
        };
        write!(f, "{name}")
    }
}

impl Call {
    pub fn kind(self) -> CallKind {
        match self {
            Call::New { .. } => CallKind::New,
            Call::Load { .. } => CallKind::Load,
            Call::Store { .. } => CallKind::Store,
            Call::Copy { .. } => CallKind::Copy,
            Call::SetNumber { .. } => CallKind::SetNumber,
            Call::SetNil { .. } => CallKind::SetNil,
            Call::Same { .. } => CallKind::Same,
            Call::Tell { .. } => CallKind::Tell,
            Call::Count => CallKind::Count,
            Call::Flip => CallKind::Flip,
            Call::Step => CallKind::Step,
            Call::Take { .. } => CallKind::Take,
            Call::Resolve { .. } => CallKind::Resolve,
            Call::Mark { .. } => CallKind::Mark,
            Call::Save { .. } => CallKind::Save,
        }
    }

    /// The mutator of a call that may trap.
    pub fn may_trap(self) -> Option<u32> {
        match self {
            Call::New { m, .. } | Call::Load { m, .. } | Call::Store { m, .. } => Some(m),
            _ => None,
        }
    }
}

/// Why a call is refused, by the number that it is then refused with.
#[derive(Clone, Copy, PartialEq, Eq)]
pub enum Reason {
    /// Page size or page count that no host may have.
    Size = 1,
    /// A page or an address outside the host.
    Outside = 2,
    /// A mutator above 3 or a register above 7.
    Name = 3,
    /// More than 255 slots.
    Shape = 4,
    /// A memory or a buffer with too few words.
    Short = 5,
    /// An image of another size or layout.
    OtherImage = 6,
    /// Words that are no image.
    BadImage = 7,
    /// A list of frames that has not each number below the page count once.
    Frames = 9,
    /// The mutator is not running.
    Waits = 11,
    /// The register holds no reference.
    NoReference = 12,
    /// The object has no such slot.
    Slot = 13,
    /// The layout does not admit the value in the slot.
    Misfit = 14,
    /// No room for a new object.
    NoSpace = 15,
    /// A collection or an image is in progress.
    Busy = 16,
    /// A mutator is not running, and the call needs all of them to run.
    FaultStands = 17,
    /// No collection or image is in progress.
    Nothing = 18,
    /// No such fault stands.
    NoFault = 19,
}

/// A refusal, expected or found. It is compared by its number alone, and one that was found may have any.
#[derive(Clone, Copy, PartialEq, Eq)]
pub struct Refused {
    pub number: u32,
}

impl From<Reason> for Refused {
    fn from(reason: Reason) -> Refused {
        Refused {
            number: reason as u32,
        }
    }
}

impl fmt::Display for Refused {
    fn fmt<W: fmt::Write>(&self, f: &mut fmt::Formatter<W>) -> fmt::Result {
        write!(f, "refused {}", self.number)
    }
}

/// What a call answers, but for the work of a STEP or a RESOLVE.
#[derive(Clone, Copy, PartialEq, Eq)]
pub enum Reply {
    Refused(Refused),
    Trapped(u32),
    Done,
    Same(bool),
    Nil,
    Number(u32),
    Reference,
    Count(u32),
    Fault(u32),
    Copied(u32),
    Resolved,
    Stepped { ended: bool },
    Saved { sealed: bool },
}

impl fmt::Display for Reply {
    fn fmt<W: fmt::Write>(&self, f: &mut fmt::Formatter<W>) -> fmt::Result {
        match *self {
            Reply::Refused(refused) => write!(f, "{refused}"),
            Reply::Trapped(page) => write!(f, "trapped on page {page}"),
            Reply::Done => write!(f, "done"),
            Reply::Same(same) => write!(f, "same {same}"),
            Reply::Nil => write!(f, "nil"),
            Reply::Number(number) => write!(f, "number {number}"),
            Reply::Reference => write!(f, "reference"),
            Reply::Count(count) => write!(f, "{count}"),
            Reply::Fault(page) => write!(f, "fault on page {page}"),
            Reply::Copied(words) => write!(f, "{words} copied"),
            Reply::Resolved => write!(f, "resolved"),
            Reply::Stepped { ended } => write!(f, "ended {ended}"),
            Reply::Saved { sealed } => write!(f, "sealed {sealed}"),
        }
    }
}

/// The words that a call scanned and copied.
#[derive(Clone, Copy, Default)]
pub struct Work {
    pub scanned: u32,
    pub copied: u32,
}

/// The words scanned, and those copied.
impl From<(u32, u32)> for Work {
    fn from(counts: (u32, u32)) -> Work {
        let (scanned, copied) = counts;
        Work { scanned, copied }
    }
}

impl fmt::Display for Work {
    fn fmt<W: fmt::Write>(&self, f: &mut fmt::Formatter<W>) -> fmt::Result {
        write!(f, "{} scanned {} copied", self.scanned, self.copied)
    }
}

/// All that a call answers. The work is not foretold, and 0 for most calls.
#[derive(Clone, Copy)]
pub struct Answer {
    pub reply: Reply,
    pub work: Work,
}

/// A reply without work.
impl From<Reply> for Answer {
    fn from(reply: Reply) -> Answer {
        Answer {
            reply,
            work: Work::default(),
        }
    }
}

impl fmt::Display for Answer {
    fn fmt<W: fmt::Write>(&self, f: &mut fmt::Formatter<W>) -> fmt::Result {
        match self.reply {
            Reply::Resolved => write!(f, "{}", self.work),
            Reply::Stepped { .. } => write!(f, "{} {}", self.reply, self.work),
            _ => write!(f, "{}", self.reply),
        }
    }
}
