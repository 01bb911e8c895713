ghost use Rattle.std.specs.Prelude.{◌≡◌, ℕ, ◌+◌, ◌*◌, ◌≤◌, ◌<◌, Decides};
ghost use Rattle.table_host.specs.Entries.{entry_right, entry_frame, Frames, FreshEntries};

use memory::Right;
use std::marker::Model;

/// A page table entry: bit 0 allows reading, bit 1 writing, bits 8 and up are the frame.
#[derive(Clone, Copy)]
pub(crate) struct Entry {
    bits: u32,
}

impl Model for Entry {
    ghost Value = { ℕ };

    ghost view = { λ e. e.bits };

    ghost inverse = { λ n. record { bits = n } };
}

impl Entry {
    /// An entry for no page.
    pub(crate) const NONE: Entry = Entry { bits: 0 };

    /// The entry of a page in this frame that may be read and written.
    pub(crate) fn open(frame: u32) -> Entry
        requires { frame < 64 }
        ensures { result ≡ frame * 256 + 3 }
    {
        Entry {
            bits: frame * 256 + 3,
        }
    }

    /// What the entry allows.
    pub(crate) fn right(self) -> Right
        ensures { result ≡ entry_right self }
    {
        if self.bits % 2 == 0 {
            Right::None
        } else if self.bits / 2 % 2 == 0 {
            Right::Read
        } else {
            Right::All
        }
    }

    /// The frame of the entry's page.
    pub(crate) fn frame(self) -> u32
        ensures { result ≡ entry_frame self }
    {
        self.bits / 256
    }

    /// The entry with the same frame and another right.
    pub(crate) fn with_right(self, right: Right) -> Entry
        ensures right { entry_right result ≡ right }
        ensures frame { entry_frame result ≡ entry_frame self }
    {
        let allowed = match right {
            Right::None => 0,
            Right::Read => 1,
            Right::All => 3,
        };
        Entry {
            bits: self.bits / 256 * 256 + allowed,
        }
    }
}

/// Whether the list has each number below the page count once.
pub(crate) fn is_frames(frames: &[u32], page_count: u32) -> bool
    requires { page_count ≤ 64 }
    ensures { Decides result (Frames page_count frames.now) }
{
    if frames.len() != page_count as usize {
        return false;
    }
    let mut seen = [false; 64];
    for f in frames {
        if *f >= page_count || seen[*f as usize] {
            return false;
        }
        seen[*f as usize] = true;
    }
    true
}

/// A page table that gives page p the p-th frame and allows everything.
pub(crate) fn fresh_entries(frames: &[u32], page_count: u32) -> [Entry; 64]
    requires few { page_count ≤ 64 }
    requires frames { Frames page_count frames.now }
    ensures { FreshEntries page_count frames.now result }
{
    let mut entries = [Entry::NONE; 64];
    for (p, frame) in frames.iter().enumerate() {
        entries[p] = Entry::open(*frame);
    }
    entries
}
