use super::calls::{Answer, Call, Reply};
use super::choosing::{Chooser, Habit};
use super::differences::{Difference, Stop};
use super::expected::{Expected, Sizes};
use super::packing::Packing;
use super::random::Random;
use super::tallying::Tally;
use super::watching::Watch;
use std::alloc::{AllocError, Global};

/// A list of calls as it goes on.
#[derive(Drop)]
pub struct Session {
    pub alloc: Global,
    pub random: Random,
    pub habit: Habit,
    pub expected: Expected,
    pub watch: Watch,
    /// The call to be made next, if it is settled.
    pub next: Option<Call>,
    pub buffer: Vec<u32>,
    /// The heap at the last MARK, and whether its image is sealed.
    pub snapshot: Option<Expected>,
    pub sealed: bool,
    /// How many calls were made.
    pub number: u32,
    pub tally: Tally,
}

impl Session {
    pub fn new(
        alloc: Global,
        sizes: Sizes,
        packing: Packing,
        seed: u32,
    ) -> Result<Session, AllocError> {
        let mut random = Random::seeded(seed);
        let habit = Habit::drawn(&mut random);
        Ok(Session {
            alloc,
            random,
            habit,
            expected: Expected::new(alloc, sizes, packing),
            watch: Watch::new(),
            next: None,
            buffer: vec![in alloc; 2863311530u32; sizes.image().saturating_add(1)]?,
            snapshot: None,
            sealed: false,
            number: 0,
            tally: Tally::default(),
        })
    }

    /// The buffer, as many words of it as are lent.
    pub fn lend(&mut self, words: usize) -> &mut [u32] {
        let length = self.buffer.len();
        &mut self.buffer.as_mut_slice()[..words.min(length)]
    }

    /// The next call of the list. `tokens` has the pages of the faults in hand.
    pub fn next_call(&mut self, tokens: [Option<u32>; 4]) -> Call {
        if let Some(call) = self.next.take() {
            return call;
        }
        let mut chooser = Chooser {
            random: &mut self.random,
            expected: &self.expected,
            habit: self.habit,
        };
        chooser.choose(tokens)
    }

    /// Goes on with the heap that was marked, as it is restored.
    pub fn resume(&mut self) {
        if let Some(snapshot) = self.snapshot.take() {
            self.expected = snapshot;
        }
        self.watch = Watch::new();
        self.next = None;
        self.tally.resumed = self.tally.resumed.saturating_add(1);
    }

    // Settles the next call, if one follows: a resolved mutator mostly makes its call again at once.
    fn settle_next(&mut self, call: Call, found: Reply) {
        match (call, found) {
            (Call::Resolve { m, .. }, Reply::Resolved) => {
                if !self.random.one_in(5) {
                    self.next = self.watch.trapped_call(m);
                }
            }
            (_, Reply::Done) => {
                let mut chooser = Chooser {
                    random: &mut self.random,
                    expected: &self.expected,
                    habit: self.habit,
                };
                self.next = chooser.choose_follow_up(call);
            }
            _ => {}
        }
    }

    // What is checked of a call before the expected heap is told of it.
    fn check_before(&mut self, call: Call, found: Answer) -> Result<(), Difference> {
        if self.expected.admit(call).is_err() {
            return Ok(());
        }
        let placed = self.watch.check_new(&self.expected, call, found);
        if let Reply::Trapped(page) = found.reply {
            let m = call.may_trap().unwrap_or(0);
            self.watch.note_trap(&self.expected, call, m, page)?;
        }
        placed
    }

    // What is checked of a call after the expected heap is told of it.
    fn check_after(&mut self, call: Call, found: Answer) -> Result<(), Difference> {
        match found.reply {
            Reply::Refused(_) => {
                self.watch.note_refused();
                Ok(())
            }
            Reply::Trapped(_) => Ok(()),
            _ => self.watch.note(&self.expected, call, found),
        }
    }

    fn note_image(&mut self, call: Call, found: Reply) -> Result<(), AllocError> {
        if matches!(call, Call::Mark { .. }) && found == Reply::Done {
            self.snapshot = Some(self.expected.snapshot()?);
        }
        if let Reply::Saved { sealed } = found {
            self.sealed = sealed;
        }
        Ok(())
    }

    /// Compares the answer to a call.
    pub fn judge(&mut self, call: Call, found: Answer) -> Result<(), Stop> {
        self.number = self.number.saturating_add(1);
        self.tally.count_answer(call, found);
        let before = self.check_before(call, found);
        let expected = self.expected.answer(self.alloc, call, found.reply)?;
        if expected != found.reply {
            return Err(Stop::from(Difference::new("the answer", expected, found)));
        }
        let after = self.check_after(call, found);
        self.settle_next(call, found.reply);
        self.note_image(call, found.reply)?;
        before?;
        after?;
        Ok(())
    }
}
