ghost use Rattle.std.specs.Prelude.{◌≡◌};
ghost use Rattle.model.specs.Calls.{moving_view};
ghost use Rattle.model.specs.Refusing.{all_running};
ghost use Rattle.model.specs.declared.calls.Call.TheVariants as Call;
ghost use Rattle.heap.specs.View.{view};
ghost use Rattle.heap.specs.Effects.{Does, flip_answer, step_answer};

use super::heap_state::Heap;
use collector::{Progress, begin_collection, step_collection};
use layouts::Layout;
use memory::{Host, Refusal};
use model::Phase;

impl<H: Host, L: Layout> Heap<H, L> {
    // Whether all four mutators run.
    fn all_running(&self) -> bool
        ensures { result ≡ all_running (moving_view L.Layout.rules (view H.Host.meaning self.now)) }
    {
        let [first, second, third, fourth] = &self.plain.mutators;
        first.runs() && second.runs() && third.runs() && fourth.runs()
    }

    /// FLIP: begins a collection, and answers the words copied.
    pub fn flip(&mut self) -> Result<u32, Refusal>
        ensures does { Does L.Layout.rules (view H.Host.meaning self.old) Call.Flip (view H.Host.meaning self.new) (flip_answer result) }
        ensures layout { self.new.layout ≡ self.old.layout }
    {
        let Phase::Idle = self.plain.phase else {
            return Err(Refusal::Busy);
        };
        if !self.all_running() {
            return Err(Refusal::FaultStands);
        }
        Ok(begin_collection(&mut self.host, &self.layout, &mut self.plain))
    }

    /// STEP: scans the lowest page with unscanned words, if there is one; whether the collection ended, the words scanned and
    /// the words copied.
    pub fn step(&mut self) -> Result<(Progress, (u32, u32)), Refusal>
        ensures does { Does L.Layout.rules (view H.Host.meaning self.old) Call.Step (view H.Host.meaning self.new) (step_answer result) }
        ensures layout { self.new.layout ≡ self.old.layout }
    {
        let Phase::Collecting = self.plain.phase else {
            return Err(Refusal::Nothing);
        };
        Ok(step_collection(&mut self.host, &self.layout, &mut self.plain))
    }
}
