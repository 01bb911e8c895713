ghost use Rattle.std.specs.Prelude.{◌≡◌, ◌*◌, ◌≤◌, true, vec_len};
ghost use Rattle.memory.specs.Memory.{legal_sizes};
ghost use Rattle.table_host.specs.Entries.{Within, Apart};

use super::entries::Entry;

/// A host that finds each page's frame and right in a page table.
#[derive(Drop)]
pub struct TableHost {
    pub(crate) memory: Vec<u32>,
    pub(crate) entries: [Entry; 64],
    pub(crate) page_count: u32,
    pub(crate) page_size: u32,
    // The sizes are legal.
    ghost sized: { legal_sizes page_count page_size ≡ true },
    // The memory has a frame for every page.
    ghost room: { page_count * page_size ≤ vec_len memory },
    // Every page has a frame of the memory.
    ghost within: { Within page_count entries },
    // No two pages share a frame.
    ghost apart: { Apart page_count entries },
}
