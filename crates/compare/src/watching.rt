use super::calls::{Answer, Call, Reply, Work};
use super::differences::{Difference, differ, exceed};
use super::expected::Expected;

/// A mutator's call that trapped last, and how often in a row its NEW trapped.
#[derive(Clone, Copy)]
struct Trial {
    call: Option<Call>,
    tries: u32,
}

/// What is checked of a heap beside its answers: where it traps, what its counts add up to, and when it ends a collection
/// or seals an image.
#[derive(Clone, Copy)]
pub struct Watch {
    /// The words copied and scanned since FLIP, and the STEPs.
    done: Work,
    steps: u32,
    /// The SAVEs since MARK, and of each page of to-space whether it is still to be saved.
    saves: u32,
    unsaved: [bool; 64],
    /// The mutator whose fault the last call resolved, and the calls that had trapped.
    repeated: Option<u32>,
    trials: [Trial; 4],
    /// Whether there was a FLIP since the heap was made or restored.
    pub moved: bool,
}

impl Watch {
    pub fn new() -> Watch {
        Watch {
            done: Work::default(),
            steps: 0,
            saves: 0,
            unsaved: [false; 64],
            repeated: None,
            trials: [Trial {
                call: None,
                tries: 0,
            }; 4],
            moved: false,
        }
    }

    /// The words copied since FLIP.
    pub fn copied(&self) -> u32 {
        self.done.copied
    }

    /// The call of a mutator that trapped and that it is to make again.
    pub fn trapped_call(&self, m: u32) -> Option<Call> {
        self.trials[(m % 4) as usize].call
    }

    pub fn is_unsaved(&self, page: u32) -> bool {
        self.unsaved.get(page as usize).copied().unwrap_or(false)
    }

    // The lowest page of to-space from one on and below another that is still to be saved.
    fn lowest_unsaved(&self, from: u32, stop: u32) -> Option<u32> {
        (from..stop).find(|page| self.is_unsaved(*page))
    }

    fn set_saved(&mut self, page: u32) {
        if let Some(unsaved) = self.unsaved.get_mut(page as usize) {
            *unsaved = false;
        }
    }

    // The page that a NEW of so many words traps on, while an image is in progress.
    fn new_trap(&self, expected: &Expected, words: u32) -> Option<u32> {
        if !expected.ledger.is_imaging() {
            return None;
        }
        let sizes = expected.sizes;
        let stop = expected.new_start();
        let start = stop.saturating_sub(words);
        let page = self.lowest_unsaved(start / sizes.page.max(1), sizes.pages_for(stop))?;
        Some(page.saturating_add(expected.first_page()))
    }

    /// Whether a NEW that is not refused traps where it must; `expected` is the heap before it.
    pub fn check_new(
        &self,
        expected: &Expected,
        call: Call,
        found: Answer,
    ) -> Result<(), Difference> {
        let Call::New { r, w, .. } = call else {
            return Ok(());
        };
        let must = self.new_trap(expected, r.saturating_add(w).saturating_add(1));
        match (must, found.reply) {
            (Some(page), Reply::Trapped(on)) => differ("NEW trapped on another page", page, on),
            (Some(page), _) => Err(Difference::new(
                "NEW wrote an unsaved page",
                Reply::Trapped(page),
                found,
            )),
            (None, Reply::Trapped(_)) => {
                Err(Difference::new("NEW trapped with no need", Reply::Done, found))
            }
            _ => Ok(()),
        }
    }

    // Whether a call may trap on a page of to-space, by its phase.
    fn may_trap(&self, expected: &Expected, call: Call, page: u32) -> bool {
        let Some(inside) = expected.inside(page) else {
            return false;
        };
        let is_copied = inside < expected.sizes.pages_for(self.done.copied);
        let ledger = &expected.ledger;
        match call {
            Call::New { .. } => ledger.is_imaging() && self.is_unsaved(inside),
            Call::Load { .. } => ledger.is_collecting() && is_copied,
            _ if ledger.is_collecting() => is_copied,
            _ => ledger.is_imaging() && self.is_unsaved(inside),
        }
    }

    // How often in a row a call trapped, this time included: it is made again right after its RESOLVE.
    fn count_try(&mut self, m: u32, call: Call) -> u32 {
        let resolved = self.repeated.take() == Some(m);
        let trial = &mut self.trials[(m % 4) as usize];
        let again = resolved && trial.call == Some(call);
        trial.tries = if again {
            trial.tries.saturating_add(1)
        } else {
            1
        };
        trial.call = Some(call);
        trial.tries
    }

    /// Notes that a call trapped; `expected` is the heap before it.
    pub fn note_trap(
        &mut self,
        expected: &Expected,
        call: Call,
        m: u32,
        page: u32,
    ) -> Result<(), Difference> {
        let tries = self.count_try(m, call);
        let limit = if matches!(call, Call::New { .. }) {
            2
        } else {
            1
        };
        if !self.may_trap(expected, call, page) {
            let found = Reply::Trapped(page);
            return Err(Difference::new("a trap where none can be", Reply::Done, found));
        }
        exceed("trapped again after RESOLVE", limit, tries)
    }

    // Adds counts of a collection, and checks that they stay within the words that are reached.
    fn add(&mut self, expected: &Expected, work: Work) -> Result<(), Difference> {
        self.done.scanned = self.done.scanned.saturating_add(work.scanned);
        self.done.copied = self.done.copied.saturating_add(work.copied);
        exceed("words scanned at once", expected.sizes.page, work.scanned)?;
        exceed(
            "words copied so far",
            expected.ledger.copied,
            self.done.copied,
        )?;
        exceed("words scanned so far", self.done.copied, self.done.scanned)
    }

    fn note_step(
        &mut self,
        expected: &Expected,
        ended: bool,
        work: Work,
    ) -> Result<(), Difference> {
        let reached = expected.ledger.copied;
        let sizes = expected.sizes;
        let pages = sizes.pages_for(reached).max(1);
        let counts = self.add(expected, work);
        self.steps = self.steps.saturating_add(1);
        counts?;
        exceed("STEPs of a collection", pages, self.steps)?;
        if ended {
            differ("words copied in all", reached, self.done.copied)?;
            return differ("words scanned in all", reached, self.done.scanned);
        }
        let least = self.steps.saturating_mul(sizes.page);
        exceed("a page scanned by each STEP", self.done.scanned, least)
    }

    fn note_resolve(
        &mut self,
        expected: &Expected,
        m: u32,
        page: u32,
        work: Work,
    ) -> Result<(), Difference> {
        self.repeated = Some(m);
        let ledger = &expected.ledger;
        if ledger.is_collecting() {
            return self.add(expected, work);
        }
        if ledger.is_imaging() {
            self.set_saved(page.saturating_sub(expected.first_page()));
        }
        let words = work.scanned.max(work.copied);
        differ("words scanned with no collection", 0, words)
    }

    fn note_mark(&mut self, expected: &Expected) {
        let size = expected.sizes.page;
        let new_start = expected.new_start();
        self.saves = 0;
        for trial in self.trials.iter_mut() {
            trial.tries = 0;
        }
        self.unsaved = [false; 64];
        for (page, unsaved) in (0..expected.sizes.half_pages).zip(self.unsaved.iter_mut()) {
            let start = page.saturating_mul(size);
            let stop = start.saturating_add(size);
            *unsaved = start < expected.ledger.copied || stop > new_start;
        }
    }

    fn note_save(&mut self, expected: &Expected, sealed: bool) -> Result<(), Difference> {
        let pages = expected.sizes.half_pages;
        self.saves = self.saves.saturating_add(1);
        if let Some(page) = self.lowest_unsaved(0, pages) {
            self.set_saved(page);
        }
        let left = self.lowest_unsaved(0, pages).is_some();
        exceed("SAVEs of an image", pages, self.saves)?;
        differ("a page left unsaved", left, !sealed)
    }

    fn note_flip(&mut self, copied: u32) {
        self.done = Work { scanned: 0, copied };
        self.steps = 0;
        self.moved = true;
    }

    /// Notes a call that was neither refused nor trapped; `expected` is the heap after it.
    pub fn note(
        &mut self,
        expected: &Expected,
        call: Call,
        found: Answer,
    ) -> Result<(), Difference> {
        self.repeated = None;
        let work = found.work;
        match (call, found.reply) {
            (_, Reply::Copied(words)) => self.note_flip(words),
            (_, Reply::Stepped { ended }) => self.note_step(expected, ended, work)?,
            (Call::Resolve { m, page, .. }, Reply::Resolved) => {
                self.note_resolve(expected, m, page, work)?
            }
            (Call::Mark { .. }, _) => self.note_mark(expected),
            (_, Reply::Saved { sealed }) => self.note_save(expected, sealed)?,
            _ => {}
        }
        Ok(())
    }

    /// Notes a refused call.
    pub fn note_refused(&mut self) {
        self.repeated = None;
    }
}
