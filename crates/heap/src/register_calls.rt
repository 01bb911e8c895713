ghost use Rattle.std.specs.Prelude.{◌≡◌, ℕ, ◌<◌};
ghost use Rattle.model.specs.Objects.{same_value, kind_of};
ghost use Rattle.model.specs.declared.calls.Answer.TheVariants as Answer;
ghost use Rattle.model.specs.declared.calls.Call.TheVariants as Call;
ghost use Rattle.state.specs.View.{held_value};
ghost use Rattle.images.specs.Lent.{done_answer};
ghost use Rattle.heap.specs.View.{view};
ghost use Rattle.heap.specs.Effects.{Does, same_answer, tell_answer};

use super::heap_state::Heap;
use layouts::Layout;
use memory::{Host, Refusal};
use model::Kind;
use state::{Held, MutatorName, RegisterName};

impl<H: Host, L: Layout> Heap<H, L> {
    /// COPY: puts what register s of mutator f holds into register d of mutator m. Only m has to run.
    pub fn copy(&mut self, m: u32, d: u32, f: u32, s: u32) -> Result<(), Refusal>
        ensures does { Does L.Layout.rules (view H.Host.meaning self.old) (Call.Copy m d f s) (view H.Host.meaning self.new) (done_answer result) }
        ensures layout { self.new.layout ≡ self.old.layout }
    {
        let m = MutatorName::try_from(m)?;
        let d = RegisterName::try_from(d)?;
        let f = MutatorName::try_from(f)?;
        let s = RegisterName::try_from(s)?;
        if !self.plain.runs(m) {
            return Err(Refusal::Waits);
        }
        let held = self.plain.held(f, s);
        self.hold(m, d, held);
        Ok(())
    }

    /// SETNUM: puts a number into a register.
    pub fn set_number(&mut self, m: u32, d: u32, number: u32) -> Result<(), Refusal>
        ensures does { Does L.Layout.rules (view H.Host.meaning self.old) (Call.SetNumber m d number) (view H.Host.meaning self.new) (done_answer result) }
        ensures layout { self.new.layout ≡ self.old.layout }
    {
        let m = MutatorName::try_from(m)?;
        let d = RegisterName::try_from(d)?;
        if !self.plain.runs(m) {
            return Err(Refusal::Waits);
        }
        self.hold(m, d, Held::Number(number));
        Ok(())
    }

    /// SETNIL: puts nil into a register.
    pub fn set_nil(&mut self, m: u32, d: u32) -> Result<(), Refusal>
        ensures does { Does L.Layout.rules (view H.Host.meaning self.old) (Call.SetNil m d) (view H.Host.meaning self.new) (done_answer result) }
        ensures layout { self.new.layout ≡ self.old.layout }
    {
        let m = MutatorName::try_from(m)?;
        let d = RegisterName::try_from(d)?;
        if !self.plain.runs(m) {
            return Err(Refusal::Waits);
        }
        self.hold(m, d, Held::Nil);
        Ok(())
    }

    /// SAME: whether two registers hold two nils, equal numbers or one object.
    pub fn same(&self, m: u32, a: u32, b: u32) -> Result<bool, Refusal>
        ensures { Does L.Layout.rules (view H.Host.meaning self.now) (Call.Same m a b) (view H.Host.meaning self.now) (same_answer result) }
    {
        let m = MutatorName::try_from(m)?;
        let a = RegisterName::try_from(a)?;
        let b = RegisterName::try_from(b)?;
        if !self.plain.runs(m) {
            return Err(Refusal::Waits);
        }
        Ok(self.plain.held(m, a) == self.plain.held(m, b))
    }

    /// TELL: nil, reference, or the number that a register holds.
    pub fn tell(&self, m: u32, s: u32) -> Result<Kind, Refusal>
        ensures { Does L.Layout.rules (view H.Host.meaning self.now) (Call.Tell m s) (view H.Host.meaning self.now) (tell_answer result) }
    {
        let m = MutatorName::try_from(m)?;
        let s = RegisterName::try_from(s)?;
        if !self.plain.runs(m) {
            return Err(Refusal::Waits);
        }
        Ok(Kind::from(self.plain.held(m, s)))
    }

    /// COUNT: how often a call trapped since the heap was made; it stays at 4294967295.
    pub fn count(&self) -> u32
        ensures { Does L.Layout.rules (view H.Host.meaning self.now) Call.Count (view H.Host.meaning self.now) (Answer.Count result) }
    {
        self.plain.traps
    }
}
