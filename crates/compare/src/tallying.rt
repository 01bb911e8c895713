use super::calls::{Answer, CALL_KINDS, Call, KINDS, Reply};
use std::io;

/// What happened in lists of calls.
#[derive(Clone, Copy, Default)]
pub struct Tally {
    pub lists: u32,
    /// The lists that went on after a restore.
    pub resumed: u32,
    /// By the kind of the call.
    calls: [u32; KINDS],
    traps: [u32; 3],
    /// By the number of the refusal.
    refusals: [u32; 20],
    pub collections: u32,
    pub copied: u32,
    pub images: u32,
    pub restores: u32,
    pub spoilt: u32,
    pub compared: u32,
    pub differences: u32,
}

// Adds 1 to a count.
fn bump(counts: &mut [u32], k: usize) {
    if let Some(count) = counts.get_mut(k) {
        *count = count.saturating_add(1);
    }
}

// Adds counts to others.
fn add_all(counts: &mut [u32], more: &[u32]) {
    for (count, by) in counts.iter_mut().zip(more.iter()) {
        *count = count.saturating_add(*by);
    }
}

fn sum(counts: &[u32]) -> u32 {
    counts
        .iter()
        .fold(0u32, |all, count| all.saturating_add(*count))
}

impl Tally {
    pub fn count_compared(&mut self, by: u32) {
        self.compared = self.compared.saturating_add(by);
    }

    /// Counts an answer that a heap gave.
    pub fn count_answer(&mut self, call: Call, found: Answer) {
        let kind = call.kind() as usize;
        self.count_compared(1);
        match found.reply {
            Reply::Refused(refused) => bump(&mut self.refusals, refused.number as usize),
            Reply::Trapped(_) => bump(&mut self.traps, kind),
            _ => bump(&mut self.calls, kind),
        }
        self.copied = self.copied.saturating_add(found.work.copied);
        match found.reply {
            Reply::Copied(words) => self.copied = self.copied.saturating_add(words),
            Reply::Stepped { ended: true } => {
                self.collections = self.collections.saturating_add(1);
            }
            Reply::Saved { sealed: true } => self.images = self.images.saturating_add(1),
            _ => {}
        }
    }

    /// Adds what happened in other lists.
    pub fn add(&mut self, more: &Tally) {
        add_all(&mut self.calls, &more.calls);
        add_all(&mut self.traps, &more.traps);
        add_all(&mut self.refusals, &more.refusals);
        self.lists = self.lists.saturating_add(more.lists);
        self.resumed = self.resumed.saturating_add(more.resumed);
        self.collections = self.collections.saturating_add(more.collections);
        self.copied = self.copied.saturating_add(more.copied);
        self.images = self.images.saturating_add(more.images);
        self.restores = self.restores.saturating_add(more.restores);
        self.spoilt = self.spoilt.saturating_add(more.spoilt);
        self.compared = self.compared.saturating_add(more.compared);
        self.differences = self.differences.saturating_add(more.differences);
    }

    fn print_calls(&self, rt: &impl Print) -> io::Result<()> {
        print!(rt; "  done:")?;
        for (kind, count) in CALL_KINDS.iter().zip(self.calls.iter()) {
            print!(rt; " {kind} {count}")?;
        }
        let [new, load, store] = self.traps;
        println!(rt; "")?;
        println!(rt; "  trapped: NEW {new} LOAD {load} STORE {store}")
    }

    fn print_refusals(&self, rt: &impl Print) -> io::Result<()> {
        print!(rt; "  refused:")?;
        for (number, count) in self.refusals.iter().enumerate() {
            if *count > 0 {
                print!(rt; " {number}: {count}")?;
            }
        }
        println!(rt; "")
    }

    fn print_work(&self, rt: &impl Print) -> io::Result<()> {
        println!(rt;
            "  collections {}, words copied {}, images sealed {}, restores {}, spoilt images refused {}",
            self.collections, self.copied, self.images, self.restores, self.spoilt
        )
    }

    fn print_sums(&self, rt: &impl Print) -> io::Result<()> {
        let calls = sum(&self.calls)
            .saturating_add(sum(&self.traps))
            .saturating_add(sum(&self.refusals));
        println!(rt;
            "  lists {}, {} of them on a restored heap; calls {calls}, comparisons {}, differences {}",
            self.lists, self.resumed, self.compared, self.differences
        )
    }

    pub fn print(&self, rt: &impl Print) -> io::Result<()> {
        self.print_calls(rt)?;
        self.print_refusals(rt)?;
        self.print_work(rt)?;
        self.print_sums(rt)
    }
}
