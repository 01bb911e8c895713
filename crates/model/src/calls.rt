use memory::Refusal;
use std::fmt;

/// A call of a list. A buffer counts as the number of its words that the call is lent.
#[derive(Clone, Copy, Debug, PartialEq, Eq)]
pub enum Call {
    New {
        mutator: u32,
        register: u32,
        references: u32,
        numbers: u32,
    },
    Load {
        mutator: u32,
        register: u32,
        object: u32,
        slot: u32,
    },
    Store {
        mutator: u32,
        object: u32,
        slot: u32,
        value: u32,
    },
    Copy {
        mutator: u32,
        register: u32,
        source: u32,
        from: u32,
    },
    SetNumber {
        mutator: u32,
        register: u32,
        number: u32,
    },
    SetNil {
        mutator: u32,
        register: u32,
    },
    Same {
        mutator: u32,
        left: u32,
        right: u32,
    },
    Tell {
        mutator: u32,
        register: u32,
    },
    Count,
    Flip,
    Step,
    Take {
        mutator: u32,
    },
    Resolve {
        mutator: u32,
        page: u32,
        lent: usize,
    },
    Mark {
        lent: usize,
    },
    Save {
        lent: usize,
    },
}

/// What a register was told to hold.
#[derive(Clone, Copy, Debug, PartialEq, Eq)]
pub enum Kind {
    Nil,
    Number(u32),
    Reference,
}

/// What a call answers.
#[derive(Clone, Copy, Debug, PartialEq, Eq)]
pub enum Answer {
    Refused(Refusal),
    /// The call trapped on this page.
    Trapped(u32),
    Done,
    Same(bool),
    Kind(Kind),
    /// How often a call trapped.
    Count(u32),
    /// The page of the fault that was handed out.
    Fault(u32),
    /// FLIP's copied words.
    Copied(u32),
    /// RESOLVE's scanned and copied words.
    Scanned(u32, u32),
    /// Whether the STEP ended the collection, its scanned and its copied words; both counts stand in either case.
    Stepped(bool, u32, u32),
    /// Whether the SAVE sealed the image.
    Saved(bool),
}

impl fmt::Display for Kind {
    fn fmt<W: fmt::Write>(&self, f: &mut fmt::Formatter<W>) -> fmt::Result {
        match self {
            Kind::Nil => write!(f, "nil"),
            Kind::Number(n) => write!(f, "the number {n}"),
            Kind::Reference => write!(f, "a reference"),
        }
    }
}

impl fmt::Display for Answer {
    fn fmt<W: fmt::Write>(&self, f: &mut fmt::Formatter<W>) -> fmt::Result {
        match self {
            Answer::Refused(refusal) => write!(f, "{refusal}"),
            Answer::Trapped(page) => write!(f, "trapped on page {page}"),
            Answer::Done => write!(f, "done"),
            Answer::Same(true) => write!(f, "yes"),
            Answer::Same(false) => write!(f, "no"),
            Answer::Kind(kind) => write!(f, "{kind}"),
            Answer::Count(n) => write!(f, "{n}"),
            Answer::Fault(page) => write!(f, "the fault on page {page}"),
            Answer::Copied(copied) => write!(f, "words copied: {copied}"),
            Answer::Scanned(scanned, copied) => {
                write!(f, "words scanned: {scanned}, copied: {copied}")
            }
            Answer::Stepped(true, scanned, copied) => {
                write!(f, "ended, words scanned: {scanned}, copied: {copied}")
            }
            Answer::Stepped(false, scanned, copied) => {
                write!(f, "going, words scanned: {scanned}, copied: {copied}")
            }
            Answer::Saved(true) => write!(f, "sealed"),
            Answer::Saved(false) => write!(f, "going"),
        }
    }
}
