ghost use Rattle.std.specs.Prelude.{◌≡◌};
ghost use Rattle.memory.specs.Rights.{lesser as lesser_of, greater as greater_of, may_read, may_write};

/// What a page allows, rising.
#[derive(Clone, Copy, Debug, PartialEq, Eq, PartialOrd, Ord)]
pub enum Right {
    /// No access.
    None = 0,
    /// Reading.
    Read = 1,
    /// Reading and writing.
    All = 2,
}

impl Right {
    pub fn lesser(self, other: Right) -> Right
        ensures { result ≡ lesser_of self other }
    {
        self.min(other)
    }

    pub fn greater(self, other: Right) -> Right
        ensures { result ≡ greater_of self other }
    {
        self.max(other)
    }

    pub fn reads(self) -> bool
        ensures { result ≡ may_read self }
    {
        self >= Right::Read
    }

    pub fn writes(self) -> bool
        ensures { result ≡ may_write self }
    {
        self == Right::All
    }
}
