#![tactic(auto)]

ghost use Rattle.std.specs.Prelude.{◌≡◌, ◌<◌, vec_len};
ghost use Rattle.memory.specs.Memory.{with_word, with_right};
ghost use Rattle.table_host.specs.Meaning.{OnPage, table_meaning, translated};
ghost use Rattle.table_host.specs.Making.{Made};
ghost use Rattle.std.proofs.Common.{rules};

use entries::{fresh_entries, is_frames};
use memory::{Denied, Host, Refusal, Rejected, Right, sizes_fit};

mod entries;
pub mod table;

pub use table::TableHost;

impl TableHost {
    /// A host over the memory, with page p in the p-th frame and every page at all. A refusal hands the memory
    /// back.
    pub fn make(
        memory: Vec<u32>,
        frames: &[u32],
        page_count: u32,
        page_size: u32,
    ) -> Result<TableHost, Rejected<Vec<u32>>>
        ensures { Made memory frames.now page_count page_size result }
    {
        if !sizes_fit(page_count, page_size) {
            return Err(Rejected {
                refusal: Refusal::Size,
                given: memory,
            });
        }
        if memory.len() < (page_count * page_size) as usize {
            return Err(Rejected {
                refusal: Refusal::Short,
                given: memory,
            });
        }
        if !is_frames(frames, page_count) {
            return Err(Rejected {
                refusal: Refusal::Frames,
                given: memory,
            });
        }
        Ok(TableHost {
            memory,
            entries: fresh_entries(frames, page_count),
            page_count,
            page_size,
        })
    }

    /// Where the word at an address on a page lies in the memory.
    fn translate(&self, page: u32, a: u32) -> usize
        requires { OnPage (table_meaning self.now) page a }
        ensures value { result ≡ translated self.now a }
        ensures within { result < vec_len self.now.memory }
    {
        let frame = self.entries[page as usize].frame();
        (frame * self.page_size + a % self.page_size) as usize
    }

    /// A page's right.
    fn right(&self, p: u32) -> Right
        requires { p < self.now.page_count }
        ensures { result ≡ (table_meaning self.now).right p }
    {
        self.entries[p as usize].right()
    }

    /// Gives a page a right.
    fn mark(&mut self, p: u32, right: Right)
        requires { p < self.old.page_count }
        ensures { table_meaning self.new ≡ with_right (table_meaning self.old) p right }
    {
        self.entries[p as usize] = self.entries[p as usize].with_right(right);
    }

    /// Reads the word at an address, whatever its page allows.
    fn read(&self, page: u32, a: u32) -> u32
        requires { OnPage (table_meaning self.now) page a }
        ensures { result ≡ (table_meaning self.now).word a }
    {
        self.memory[self.translate(page, a)]
    }

    /// Writes the word at an address, whatever its page allows.
    fn write(&mut self, page: u32, a: u32, w: u32)
        requires { OnPage (table_meaning self.old) page a }
        ensures { table_meaning self.new ≡ with_word (table_meaning self.old) a w }
    {
        let place = self.translate(page, a);
        self.memory[place] = w;
    }
}

impl Host for TableHost {
    ghost meaning = { table_meaning };

    ghost sized = { Prim.search rules };

    ghost narrow = { Prim.search rules };

    ghost blank = { Prim.search rules };

    ghost shut = { Prim.search rules };

    fn page_size(&self) -> u32 {
        self.page_size
    }

    fn page_count(&self) -> u32 {
        self.page_count
    }

    fn look(&mut self, a: u32) -> Result<u32, Denied> {
        let page = self.page_of(a)?;
        if self.right(page).reads() {
            Ok(self.read(page, a))
        } else {
            Err(Denied::Fault(page))
        }
    }

    fn put(&mut self, a: u32, w: u32) -> Result<(), Denied> {
        let page = self.page_of(a)?;
        if self.right(page).writes() {
            self.write(page, a, w);
            Ok(())
        } else {
            Err(Denied::Fault(page))
        }
    }

    fn see(&mut self, a: u32) -> Result<u32, Refusal> {
        Ok(self.read(self.page_of(a)?, a))
    }

    fn set(&mut self, a: u32, w: u32) -> Result<(), Refusal> {
        self.write(self.page_of(a)?, a, w);
        Ok(())
    }

    fn prot1(&mut self, p: u32, right: Right) -> Result<(), Refusal> {
        self.check_page(p)?;
        self.mark(p, self.right(p).lesser(right));
        Ok(())
    }

    fn unprot(&mut self, p: u32, right: Right) -> Result<(), Refusal> {
        self.check_page(p)?;
        self.mark(p, self.right(p).greater(right));
        Ok(())
    }
}
