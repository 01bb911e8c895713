use super::calls::{Call, Reason, Refused, Reply};
use super::expected::{Doing, Expected, Phase};
use super::objects::{Item, reach_from};
use std::alloc::{AllocError, Global};

/// What TELL says of an item.
impl From<Item> for Reply {
    fn from(item: Item) -> Reply {
        match item {
            Item::Nil => Reply::Nil,
            Item::Number(n) => Reply::Number(n),
            Item::Object(_) => Reply::Reference,
        }
    }
}

impl Expected {
    // What a refused call leaves: a fault goes back if its buffer was too short.
    fn refuse(&mut self, call: Call, reason: Reason) -> Reply {
        if let Call::Resolve { m, page, .. } = call {
            if reason == Reason::Short && self.ledger.in_hand_with(m, page) {
                self.ledger.set_doing(m, Doing::Waiting(page));
            }
        }
        Reply::Refused(Refused::from(reason))
    }

    // What a trapped call leaves.
    fn trap(&mut self, m: u32, page: u32) -> Reply {
        self.ledger.set_doing(m, Doing::Waiting(page));
        self.ledger.traps = self.ledger.traps.saturating_add(1);
        Reply::Trapped(page)
    }

    fn flip(&mut self, heap: Global) -> Result<Reply, AllocError> {
        let found = reach_from(heap, &self.objects, &self.ledger.registers)?;
        let ledger = &mut self.ledger;
        ledger.used = ledger.copied.saturating_add(ledger.fresh);
        ledger.fresh = 0;
        ledger.copied = found.words;
        ledger.upper = !ledger.upper;
        ledger.phase = Phase::Collecting;
        Ok(Reply::Copied(found.held_words))
    }

    fn make(&mut self, heap: Global, m: u32, d: u32, r: u32, w: u32) -> Result<Reply, AllocError> {
        let object = self.objects.make(heap, r, w)?;
        self.ledger.hold(m, d, Item::Object(object));
        let words = r.saturating_add(w).saturating_add(1);
        self.ledger.fresh = self.ledger.fresh.saturating_add(words);
        Ok(Reply::Done)
    }

    fn load(&mut self, m: u32, d: u32, s: u32, i: u32) -> Reply {
        if let Item::Object(object) = self.ledger.register(m, s) {
            let item = self.objects.slot(object, i);
            self.ledger.hold(m, d, item);
        }
        Reply::Done
    }

    fn store(&mut self, m: u32, s: u32, i: u32, v: u32) -> Reply {
        if let Item::Object(object) = self.ledger.register(m, s) {
            let item = self.ledger.register(m, v);
            self.objects.set_slot(object, i, item);
        }
        Reply::Done
    }

    fn hold(&mut self, m: u32, d: u32, item: Item) -> Reply {
        self.ledger.hold(m, d, item);
        Reply::Done
    }

    fn take(&mut self, m: u32) -> Reply {
        let page = match self.ledger.doing(m) {
            Doing::Waiting(page) | Doing::InHand(page) => page,
            Doing::Running => 0,
        };
        self.ledger.set_doing(m, Doing::InHand(page));
        Reply::Fault(page)
    }

    fn resolve(&mut self, m: u32) -> Reply {
        self.ledger.set_doing(m, Doing::Running);
        Reply::Resolved
    }

    fn mark(&mut self) -> Reply {
        self.ledger.phase = Phase::Imaging;
        Reply::Done
    }

    fn step(&mut self, ended: bool) -> Reply {
        if ended {
            self.ledger.phase = Phase::Idle;
        }
        Reply::Stepped { ended }
    }

    fn save(&mut self, sealed: bool) -> Reply {
        if sealed {
            self.ledger.phase = Phase::Idle;
        }
        Reply::Saved { sealed }
    }

    // Does a call that is neither refused nor trapped.
    fn act(&mut self, heap: Global, call: Call, found: Reply) -> Result<Reply, AllocError> {
        Ok(match call {
            Call::New { m, d, r, w } => self.make(heap, m, d, r, w)?,
            Call::Load { m, d, s, i } => self.load(m, d, s, i),
            Call::Store { m, s, i, v } => self.store(m, s, i, v),
            Call::Copy { m, d, f, s } => {
                let item = self.ledger.register(f, s);
                self.hold(m, d, item)
            }
            Call::SetNumber { m, d, n } => self.hold(m, d, Item::Number(n)),
            Call::SetNil { m, d } => self.hold(m, d, Item::Nil),
            Call::Same { m, a, b } => {
                Reply::Same(self.ledger.register(m, a) == self.ledger.register(m, b))
            }
            Call::Tell { m, s } => Reply::from(self.ledger.register(m, s)),
            Call::Count => Reply::Count(self.ledger.traps),
            Call::Flip => self.flip(heap)?,
            Call::Step => self.step(found == Reply::Stepped { ended: true }),
            Call::Take { m } => self.take(m),
            Call::Resolve { m, .. } => self.resolve(m),
            Call::Mark { .. } => self.mark(),
            Call::Save { .. } => self.save(found == Reply::Saved { sealed: true }),
        })
    }

    /// What a call answers. Of the answer found, it is told only that the call trapped and on which page, that a STEP ended and
    /// that a SAVE sealed.
    pub fn answer(&mut self, heap: Global, call: Call, found: Reply) -> Result<Reply, AllocError> {
        if let Err(reason) = self.admit(call) {
            return Ok(self.refuse(call, reason));
        }
        match (call.may_trap(), found) {
            (Some(m), Reply::Trapped(page)) => Ok(self.trap(m, page)),
            _ => self.act(heap, call, found),
        }
    }
}
