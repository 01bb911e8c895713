ghost use Rattle.std.specs.Prelude.{◌≡◌, ◌<◌};
ghost use Rattle.memory.specs.Memory.{with_word, with_right, extent};
ghost use Rattle.check_host.specs.Meaning.{check_meaning, Made};
ghost use Rattle.std.proofs.Common.{rules};

use super::marks::{CheckHost, Marks};
use memory::{Denied, Host, Refusal, Rejected, Right, sizes_fit};

impl CheckHost {
    /// A fresh host over a memory: every page at all, the words as they are. A memory may be longer than the host.
    /// Refused for sizes that no host has, then for a memory too short.
    pub fn make(
        memory: Vec<u32>,
        page_count: u32,
        page_size: u32,
    ) -> Result<CheckHost, Rejected<Vec<u32>>>
        ensures { Made memory page_count page_size result }
    {
        if !sizes_fit(page_count, page_size) {
            return Err(Rejected {
                refusal: Refusal::Size,
                given: memory,
            });
        }
        if memory.len() < (page_count * page_size) as usize {
            return Err(Rejected {
                refusal: Refusal::Short,
                given: memory,
            });
        }
        Ok(CheckHost {
            memory,
            marks: [Marks::from(Right::All); 64],
            page_size,
            page_count,
        })
    }

    // The right of a page.
    fn right(&self, p: u32) -> Right
        requires { p < self.now.page_count }
        ensures { result ≡ (check_meaning self.now).right p }
    {
        self.marks[p as usize].right()
    }

    // Marks a page with a right.
    fn mark(&mut self, p: u32, right: Right)
        requires { p < self.old.page_count }
        ensures { check_meaning self.new ≡ with_right (check_meaning self.old) p right }
    {
        self.marks[p as usize] = Marks::from(right);
    }

    fn write(&mut self, a: u32, w: u32)
        requires { a < extent (check_meaning self.old) }
        ensures { check_meaning self.new ≡ with_word (check_meaning self.old) a w }
    {
        self.memory[a as usize] = w;
    }
}

// The table host's `prot1` and `unprot` are the same two lines: a body in the trait would ask every host how it keeps a right.

impl Host for CheckHost {
    ghost meaning = { check_meaning };

    ghost sized = { Prim.search rules };

    ghost narrow = { Prim.search rules };

    ghost blank = { Prim.search rules };

    ghost shut = { Prim.search rules };

    fn page_size(&self) -> u32 {
        self.page_size
    }

    fn page_count(&self) -> u32 {
        self.page_count
    }

    fn look(&mut self, a: u32) -> Result<u32, Denied> {
        let page = self.page_of(a)?;
        if !self.right(page).reads() {
            return Err(Denied::Fault(page));
        }
        Ok(self.memory[a as usize])
    }

    fn put(&mut self, a: u32, w: u32) -> Result<(), Denied> {
        let page = self.page_of(a)?;
        if !self.right(page).writes() {
            return Err(Denied::Fault(page));
        }
        self.write(a, w);
        Ok(())
    }

    fn see(&mut self, a: u32) -> Result<u32, Refusal> {
        let _page = self.page_of(a)?;
        Ok(self.memory[a as usize])
    }

    fn set(&mut self, a: u32, w: u32) -> Result<(), Refusal> {
        let _ = self.page_of(a)?;
        self.write(a, w);
        Ok(())
    }

    fn prot1(&mut self, p: u32, right: Right) -> Result<(), Refusal> {
        self.check_page(p)?;
        self.mark(p, self.right(p).lesser(right));
        Ok(())
    }

    fn unprot(&mut self, p: u32, right: Right) -> Result<(), Refusal> {
        self.check_page(p)?;
        self.mark(p, self.right(p).greater(right));
        Ok(())
    }
}
