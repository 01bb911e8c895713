ghost use Rattle.std.specs.Prelude.{◌≡◌, ◌*◌, ◌≤◌, true, vec_len};
ghost use Rattle.memory.specs.Memory.{legal_sizes};
ghost use Rattle.memory.specs.Rights.{allowing, may_read, may_write};

use memory::Right;

/// Whether a page may be read, and whether it may be written if it may be read.
#[derive(Clone, Copy)]
pub(crate) struct Marks {
    readable: bool,
    writable: bool,
}

impl Marks {
    pub(crate) fn right(self) -> Right
        ensures { result ≡ allowing self.readable self.writable }
    {
        match self {
            Marks {
                readable: false,
                ..
            } => Right::None,
            Marks {
                readable: true,
                writable: false,
            } => Right::Read,
            Marks {
                readable: true,
                writable: true,
            } => Right::All,
        }
    }
}

impl From<Right> for Marks {
    ghost from_gives = { λ r m. (m.readable ≡ may_read r) × (m.writable ≡ may_write r) };

    fn from(right: Right) -> Marks {
        Marks {
            readable: right.reads(),
            writable: right.writes(),
        }
    }
}

/// A host that tests two marks of a page at each access and finds the word at its own address.
#[derive(Drop)]
pub struct CheckHost {
    pub(crate) memory: Vec<u32>,
    pub(crate) marks: [Marks; 64],
    pub(crate) page_size: u32,
    pub(crate) page_count: u32,
    ghost sized: { legal_sizes page_count page_size ≡ true },
    ghost room: { page_count * page_size ≤ vec_len memory },
}
