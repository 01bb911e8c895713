use super::calls::{Call, Reason};
use super::expected::Expected;
use super::objects::Shape;

fn named(m: u32, r: u32) -> bool {
    m <= 3 && r <= 7
}

// Why a call that does not pass a test is refused.
fn must(passed: bool, reason: Reason) -> Result<(), Reason> {
    if passed { Ok(()) } else { Err(reason) }
}

impl Expected {
    fn admit_new(&self, m: u32, d: u32, r: u32, w: u32) -> Result<(), Reason> {
        let slots = r.saturating_add(w);
        must(named(m, d), Reason::Name)?;
        must(slots <= 255, Reason::Shape)?;
        must(self.ledger.runs(m), Reason::Waits)?;
        must(slots.saturating_add(1) <= self.room(), Reason::NoSpace)
    }

    // The shape of an object that has the slot that a LOAD or a STORE is for.
    fn admit_slot(&self, m: u32, s: u32, i: u32) -> Result<Shape, Reason> {
        must(self.ledger.runs(m), Reason::Waits)?;
        let shape = self.held_shape(m, s).ok_or(Reason::NoReference)?;
        must(i < shape.slots, Reason::Slot)?;
        Ok(shape)
    }

    fn admit_load(&self, m: u32, d: u32, s: u32, i: u32) -> Result<(), Reason> {
        must(named(m, d) && named(m, s), Reason::Name)?;
        self.admit_slot(m, s, i)?;
        Ok(())
    }

    fn admit_store(&self, m: u32, s: u32, i: u32, v: u32) -> Result<(), Reason> {
        must(named(m, s) && named(m, v), Reason::Name)?;
        let shape = self.admit_slot(m, s, i)?;
        let item = self.ledger.register(m, v);
        must(self.packing.admits(shape, i, item), Reason::Misfit)
    }

    // The calls on registers alone.
    fn admit_registers(&self, m: u32, names_fit: bool) -> Result<(), Reason> {
        must(m <= 3 && names_fit, Reason::Name)?;
        must(self.ledger.runs(m), Reason::Waits)
    }

    fn admit_take(&self, m: u32) -> Result<(), Reason> {
        must(m <= 3, Reason::Name)?;
        must(self.ledger.waits(m), Reason::NoFault)
    }

    // The calls that are lent a buffer.
    fn admit_buffer(&self, lent: usize) -> Result<(), Reason> {
        must(lent >= self.sizes.image(), Reason::Short)
    }

    fn admit_resolve(&self, m: u32, page: u32, lent: usize) -> Result<(), Reason> {
        self.admit_buffer(lent)?;
        must(self.ledger.in_hand_with(m, page), Reason::NoFault)
    }

    fn admit_flip(&self) -> Result<(), Reason> {
        must(self.ledger.is_idle(), Reason::Busy)?;
        must(self.ledger.all_run(), Reason::FaultStands)
    }

    fn admit_mark(&self, lent: usize) -> Result<(), Reason> {
        self.admit_buffer(lent)?;
        must(self.ledger.is_idle(), Reason::Busy)
    }

    fn admit_save(&self, lent: usize) -> Result<(), Reason> {
        self.admit_buffer(lent)?;
        must(self.ledger.is_imaging(), Reason::Nothing)
    }

    /// Why a call that is to be refused is refused: the reason with the lowest number that applies.
    pub fn admit(&self, call: Call) -> Result<(), Reason> {
        match call {
            Call::New { m, d, r, w } => self.admit_new(m, d, r, w),
            Call::Load { m, d, s, i } => self.admit_load(m, d, s, i),
            Call::Store { m, s, i, v } => self.admit_store(m, s, i, v),
            Call::Copy { m, d, f, s } => self.admit_registers(m, d <= 7 && f <= 3 && s <= 7),
            Call::SetNumber { m, d, .. } | Call::SetNil { m, d } => {
                self.admit_registers(m, d <= 7)
            }
            Call::Same { m, a, b } => self.admit_registers(m, a <= 7 && b <= 7),
            Call::Tell { m, s } => self.admit_registers(m, s <= 7),
            Call::Take { m } => self.admit_take(m),
            Call::Resolve { m, page, lent } => self.admit_resolve(m, page, lent),
            Call::Count => Ok(()),
            Call::Flip => self.admit_flip(),
            Call::Step => must(self.ledger.is_collecting(), Reason::Nothing),
            Call::Mark { lent } => self.admit_mark(lent),
            Call::Save { lent } => self.admit_save(lent),
        }
    }
}
