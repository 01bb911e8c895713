ghost use Rattle.std.specs.Prelude.{◌≡◌, ℕ, ◌<◌};
ghost use Rattle.layouts.specs.Layouts.{Rules};
ghost use Rattle.model.specs.Objects.{slot_count};
ghost use Rattle.model.specs.declared.calls.Call.TheVariants as Call;
ghost use Rattle.state.specs.View.{held_value};
ghost use Rattle.heap.specs.View.{view};
ghost use Rattle.heap.specs.Effects.{Does, access_answer, HoldsSlot};

use super::heap_state::{Access, Heap, Object};
use collector::packed_word;
use layouts::{Layout, Value};
use memory::{Host, Refusal};
use state::{Held, MutatorName, RegisterName, slot_count};
use words::{look_behind, put_behind, word};

impl<H: Host, L: Layout> Heap<H, L> {
    // The object in register s of mutator m, which runs, if it has slot i.
    fn object_with_slot(
        &mut self,
        m: MutatorName,
        s: RegisterName,
        i: u32,
    ) -> Result<Object, Refusal>
        ensures found { HoldsSlot L.Layout.rules (view H.Host.meaning self.old) m s i result }
        ensures after { view H.Host.meaning self.new ≡ view H.Host.meaning self.old }
        ensures plain { self.new.plain ≡ self.old.plain }
        ensures layout { self.new.layout ≡ self.old.layout }
    {
        if !self.plain.runs(m) {
            return Err(Refusal::Waits);
        }
        let address = self.plain.object(m, s).ok_or(Refusal::NoReference)?;
        let header = word(&mut self.host, address.0);
        if i >= slot_count(&self.layout, header) {
            return Err(Refusal::Slot);
        }
        Ok(Object { address, header })
    }

    /// LOAD: brings slot i of the object in register s to register d.
    pub fn load(&mut self, m: u32, d: u32, s: u32, i: u32) -> Result<Access, Refusal>
        ensures does { Does L.Layout.rules (view H.Host.meaning self.old) (Call.Load m d s i) (view H.Host.meaning self.new) (access_answer result) }
        ensures layout { self.new.layout ≡ self.old.layout }
    {
        let m = MutatorName::try_from(m)?;
        let d = RegisterName::try_from(d)?;
        let s = RegisterName::try_from(s)?;
        let object = self.object_with_slot(m, s, i)?;
        match look_behind(&mut self.host, object.address.0, i + 1) {
            Ok(word) => {
                let value = self.layout.unpack(object.header, i, word);
                self.hold(m, d, Held::from(value));
                Ok(Access::Done)
            }
            Err(denied) => self.deny(m, denied),
        }
    }

    /// STORE: puts what register v holds into slot i of the object in register s.
    pub fn store(&mut self, m: u32, s: u32, i: u32, v: u32) -> Result<Access, Refusal>
        ensures does { Does L.Layout.rules (view H.Host.meaning self.old) (Call.Store m s i v) (view H.Host.meaning self.new) (access_answer result) }
        ensures layout { self.new.layout ≡ self.old.layout }
    {
        let m = MutatorName::try_from(m)?;
        let s = RegisterName::try_from(s)?;
        let v = RegisterName::try_from(v)?;
        let object = self.object_with_slot(m, s, i)?;
        let value = Value::from(self.plain.held(m, v));
        if !self.layout.admits(object.header, i, value) {
            return Err(Refusal::Misfit);
        }
        let word = packed_word(&self.layout, object.header, i, value);
        match put_behind(&mut self.host, object.address.0, i + 1, word) {
            Ok(()) => Ok(Access::Done),
            Err(denied) => self.deny(m, denied),
        }
    }
}
