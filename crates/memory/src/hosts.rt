ghost use Rattle.std.specs.Prelude.{◌≡◌, ℕ, ◌^◌, ◌<◌, ◌≤◌, true};
ghost use Rattle.memory.specs.declared.hosts.Denied.TheVariants.{Refused};
ghost use Rattle.memory.specs.declared.rights.Right.TheVariants.{None};
ghost use Rattle.memory.specs.Memory.{Memory, legal_sizes, extent, look_answer, put_answer, see_answer, set_answer, page_found, page_answer, run_answer, after_put, after_set, after_prot1, after_protn, after_unprot};

use super::refusals::Refusal;
use super::rights::Right;
use std::fmt;

/// Why a host does not carry out an access.
#[derive(Clone, Copy, Debug, PartialEq, Eq)]
pub enum Denied {
    /// The call is refused, for its address lies outside.
    Refused(Refusal),
    /// The page with this number does not allow the access.
    Fault(u32),
}

/// A refusal ends an access.
impl From<Refusal> for Denied {
    ghost from_gives = { λ e d. d ≡ Refused e };

    fn from(refusal: Refusal) -> Denied {
        Denied::Refused(refusal)
    }
}

impl fmt::Display for Denied {
    fn fmt<W: fmt::Write>(&self, f: &mut fmt::Formatter<W>) -> fmt::Result {
        match self {
            Denied::Refused(reason) => write!(f, "{reason}"),
            Denied::Fault(page) => write!(f, "faults on page {page}"),
        }
    }
}

/// Whether a host may have so many pages of so many words.
pub fn sizes_fit(page_count: u32, page_size: u32) -> bool
    ensures { result ≡ legal_sizes page_count page_size }
{
    matches!(page_size, 16 | 32 | 64 | 128 | 256) && 1 <= page_count && page_count <= 64
}

/// A memory of 32-bit words in pages, each page with a right.
///
/// `look` and `put` go by the rights and fault where the page does not allow them. `see` and `set` reach the
/// same words by a second view of the memory that never faults. A page or an address outside is refused as
/// `Outside`; nothing else is refused. A fault or a refusal alters nothing.
pub trait Host {
    // The sizes, the word at every address and the right of every page.
    ghost meaning: { Self → Memory };

    /// Words in a page.
    fn page_size(&self) -> u32
        ensures { result ≡ (meaning self.now).page_size };

    /// How many pages there are.
    fn page_count(&self) -> u32
        ensures { result ≡ (meaning self.now).page_count };

    /// The page of an address.
    fn page_of(&self, a: u32) -> Result<u32, Refusal>
        ensures { result ≡ page_found (meaning self.now) a }
    {
        // The test before the division, so that a caller who only asks whether an address is inside pays for no division.
        if a < self.page_count() * self.page_size() {
            Ok(a / self.page_size())
        } else {
            Err(Refusal::Outside)
        }
    }

    /// Refuses the number of a page outside.
    fn check_page(&self, p: u32) -> Result<(), Refusal>
        ensures { result ≡ page_answer (meaning self.now) p }
    {
        if p < self.page_count() {
            Ok(())
        } else {
            Err(Refusal::Outside)
        }
    }

    /// Reads the word at an address.
    fn look(&mut self, a: u32) -> Result<u32, Denied>
        ensures answer { result ≡ look_answer (meaning self.old) a }
        ensures after { meaning self.new ≡ meaning self.old };

    /// Writes the word at an address.
    fn put(&mut self, a: u32, w: u32) -> Result<(), Denied>
        ensures answer { result ≡ put_answer (meaning self.old) a }
        ensures after { meaning self.new ≡ after_put (meaning self.old) a w };

    /// Reads the word at an address by the second view.
    fn see(&mut self, a: u32) -> Result<u32, Refusal>
        ensures answer { result ≡ see_answer (meaning self.old) a }
        ensures after { meaning self.new ≡ meaning self.old };

    /// Writes the word at an address by the second view.
    fn set(&mut self, a: u32, w: u32) -> Result<(), Refusal>
        ensures answer { result ≡ set_answer (meaning self.old) a }
        ensures after { meaning self.new ≡ after_set (meaning self.old) a w };

    /// Lowers a page's right to the given one, unless it is lower already.
    fn prot1(&mut self, p: u32, right: Right) -> Result<(), Refusal>
        ensures answer { result ≡ page_answer (meaning self.old) p }
        ensures after { meaning self.new ≡ after_prot1 (meaning self.old) p right };

    /// Lowers the rights of `count` pages from `first` on. An empty run is never refused, a run partly outside is
    /// refused whole.
    fn protn(&mut self, first: u32, count: u32, right: Right) -> Result<(), Refusal>
        ensures answer { result ≡ run_answer (meaning self.old) first count }
        ensures after { meaning self.new ≡ after_protn (meaning self.old) first count right }
    {
        if count == 0 {
            return Ok(());
        }
        let pages = self.page_count();
        if first > pages || count > pages - first {
            return Err(Refusal::Outside);
        }
        for p in first..first + count {
            let _ = self.prot1(p, right);
        }
        Ok(())
    }

    /// Raises a page's right to the given one, unless it is higher already.
    fn unprot(&mut self, p: u32, right: Right) -> Result<(), Refusal>
        ensures answer { result ≡ page_answer (meaning self.old) p }
        ensures after { meaning self.new ≡ after_unprot (meaning self.old) p right };

    // The sizes are legal.
    ghost sized: { (h : Self) → legal_sizes (meaning h).page_count (meaning h).page_size ≡ true };

    // A word has 32 bits.
    ghost narrow: { (h : Self) (a : ℕ) → (meaning h).word a < 2 ^ 32 };

    // Outside, every word is 0 and every right is none, so that the meaning says nothing more than a host has.
    ghost blank: { (h : Self) (a : ℕ) → extent (meaning h) ≤ a → (meaning h).word a ≡ 0 };

    ghost shut: { (h : Self) (p : ℕ) → (meaning h).page_count ≤ p → (meaning h).right p ≡ None };
}
