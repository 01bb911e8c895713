use super::calls::{Answer, Call, Refused, Reply, Work};
use super::lists::List;
use collector::Progress;
use heap::{Access, Fault, Heap};
use images::Seal;
use layouts::Layout;
use memory::{Host, Refusal};
use model::Kind;

/// Of the refusal that a heap gave, only the number is looked at.
impl From<Refusal> for Refused {
    fn from(refusal: Refusal) -> Refused {
        Refused {
            number: refusal.number(),
        }
    }
}

impl From<Access> for Reply {
    fn from(access: Access) -> Reply {
        match access {
            Access::Done => Reply::Done,
            Access::Trapped(page) => Reply::Trapped(page),
        }
    }
}

impl From<Kind> for Reply {
    fn from(kind: Kind) -> Reply {
        match kind {
            Kind::Nil => Reply::Nil,
            Kind::Number(n) => Reply::Number(n),
            Kind::Reference => Reply::Reference,
        }
    }
}

impl From<Progress> for Reply {
    fn from(progress: Progress) -> Reply {
        Reply::Stepped {
            ended: matches!(progress, Progress::Ended),
        }
    }
}

impl From<Seal> for Reply {
    fn from(seal: Seal) -> Reply {
        Reply::Saved {
            sealed: matches!(seal, Seal::Sealed),
        }
    }
}

fn try_call<H: Host, L: Layout>(heap: &mut Heap<H, L>, call: Call) -> Result<Reply, Refused> {
    Ok(match call {
        Call::New { m, d, r, w } => Reply::from(heap.new_object(m, d, r, w)?),
        Call::Load { m, d, s, i } => Reply::from(heap.load(m, d, s, i)?),
        Call::Store { m, s, i, v } => Reply::from(heap.store(m, s, i, v)?),
        Call::Copy { m, d, f, s } => {
            heap.copy(m, d, f, s)?;
            Reply::Done
        }
        Call::SetNumber { m, d, n } => {
            heap.set_number(m, d, n)?;
            Reply::Done
        }
        Call::SetNil { m, d } => {
            heap.set_nil(m, d)?;
            Reply::Done
        }
        Call::Same { m, a, b } => Reply::Same(heap.same(m, a, b)?),
        Call::Tell { m, s } => Reply::from(heap.tell(m, s)?),
        _ => Reply::Count(heap.count()),
    })
}

/// Makes a call of a mutator.
pub fn call_mutator<H: Host, L: Layout>(heap: &mut Heap<H, L>, call: Call) -> Reply {
    try_call(heap, call).unwrap_or_else(|refused| Reply::Refused(refused))
}

/// Makes a STEP.
pub fn call_step<H: Host, L: Layout>(heap: &mut Heap<H, L>) -> Result<Answer, Refused> {
    let (progress, work) = heap.step()?;
    Ok(Answer {
        reply: Reply::from(progress),
        work: Work::from(work),
    })
}

/// Gives a fault to RESOLVE with no buffer, so that nothing is worked off.
pub fn spend<H: Host, L: Layout>(heap: &mut Heap<H, L>, hand: Option<Fault>) {
    if let Some(fault) = hand {
        let _ = heap.resolve(fault, &mut []);
    }
}

impl<'a, H: Host, L: Layout> List<'a, H, L> {
    /// The page of the fault that a mutator has in hand.
    pub fn page_in_hand(&self, m: u32) -> Option<u32> {
        let fault = self.hands[(m % 4) as usize].as_ref()?;
        Some(fault.page())
    }

    /// The list's next call.
    pub fn next_call(&mut self) -> Call {
        let tokens = [0, 1, 2, 3].map(|m| self.page_in_hand(m));
        self.session.next_call(tokens)
    }

    fn take(&mut self, m: u32) -> Result<Reply, Refused> {
        let fault = self.heap.take(m)?;
        let page = fault.page();
        let old = self.hands[(m % 4) as usize].replace(fault);
        spend(&mut self.heap, old);
        Ok(Reply::Fault(page))
    }

    fn resolve(&mut self, m: u32, lent: usize) -> Result<Answer, Refused> {
        let Some(fault) = self.hands[(m % 4) as usize].take() else {
            return Ok(Answer::from(Reply::Done));
        };
        let session = &mut *self.session;
        let work = self.heap.resolve(fault, session.lend(lent))?;
        Ok(Answer {
            reply: Reply::Resolved,
            work: Work::from(work),
        })
    }

    fn mark(&mut self, lent: usize) -> Result<Reply, Refused> {
        let session = &mut *self.session;
        self.heap.mark(session.lend(lent))?;
        Ok(Reply::Done)
    }

    fn save(&mut self, lent: usize) -> Result<Reply, Refused> {
        let session = &mut *self.session;
        Ok(Reply::from(self.heap.save(session.lend(lent))?))
    }

    fn try_perform(&mut self, call: Call) -> Result<Answer, Refused> {
        Ok(match call {
            Call::Flip => Answer::from(Reply::Copied(self.heap.flip()?)),
            Call::Step => call_step(&mut self.heap)?,
            Call::Take { m } => Answer::from(self.take(m)?),
            Call::Resolve { m, lent, .. } => self.resolve(m, lent)?,
            Call::Mark { lent } => Answer::from(self.mark(lent)?),
            Call::Save { lent } => Answer::from(self.save(lent)?),
            _ => Answer::from(try_call(&mut self.heap, call)?),
        })
    }

    /// Makes a call.
    pub fn perform(&mut self, call: Call) -> Answer {
        self.try_perform(call)
            .unwrap_or_else(|refused| Answer::from(Reply::Refused(refused)))
    }
}
