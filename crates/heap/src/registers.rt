ghost use Rattle.std.specs.Prelude.{◌≡◌, ℕ, ◌<◌, true};
ghost use Rattle.model.specs.Heap.{register_number, with_register, with_state};
ghost use Rattle.model.specs.Refusing.{is_running};
ghost use Rattle.model.specs.Mutators.{denied as denied_outcome};
ghost use Rattle.model.specs.Outcomes.{outcome, trapped};
ghost use Rattle.state.specs.View.{held_value, register_view, state_view};
ghost use Rattle.heap.specs.View.{view};
ghost use Rattle.heap.specs.Effects.{access_answer};
ghost use Rattle.heap.specs.Moves.{advanced, moves};

use super::heap_state::{Access, Heap};
use layouts::Layout;
use memory::{Denied, Host, Refusal};
use model::State;
use state::{Event, Held, MutatorName, RegisterName, next_state};

impl<H: Host, L: Layout> Heap<H, L> {
    /// Puts a value into a register.
    pub(crate) fn hold(&mut self, m: MutatorName, r: RegisterName, held: Held)
        ensures after { view H.Host.meaning self.new ≡ with_register (view H.Host.meaning self.old) m r (held_value held) }
        ensures layout { self.new.layout ≡ self.old.layout }
    {
        self.plain.hold(m, r, held);
    }

    /// Moves a mutator to a state.
    fn move_to(&mut self, m: MutatorName, state: State)
        ensures after { view H.Host.meaning self.new ≡ with_state (view H.Host.meaning self.old) m state }
        ensures layout { self.new.layout ≡ self.old.layout }
    {
        self.plain.move_to(m, state);
    }

    /// Moves a mutator as an event has it: the state it then has, if the event fits its state.
    pub(crate) fn advance(&mut self, m: u32, event: Event) -> Option<State>
        ensures state { result ≡ moves (view H.Host.meaning self.old) m event }
        ensures after { view H.Host.meaning self.new ≡ advanced (view H.Host.meaning self.old) m event }
        ensures layout { self.new.layout ≡ self.old.layout }
    {
        let m = MutatorName::try_from(m).ok()?;
        let state = next_state(self.plain.state(m), event)?;
        self.move_to(m, state);
        Some(state)
    }

    /// Traps a mutator on a page.
    pub(crate) fn trap(&mut self, m: MutatorName, page: u32)
        ensures after { view H.Host.meaning self.new ≡ (trapped (view H.Host.meaning self.old) m page).left }
        ensures layout { self.new.layout ≡ self.old.layout }
    {
        let _ = self.advance(m.number(), Event::Trap(page));
        self.plain.traps = self.plain.traps.saturating_add(1);
    }

    /// Ends an access that the host denied: a fault traps the mutator on its page.
    pub(crate) fn deny(&mut self, m: MutatorName, denied: Denied) -> Result<Access, Refusal>
        ensures ends { denied_outcome (view H.Host.meaning self.old) m denied ≡ outcome (view H.Host.meaning self.new) (access_answer result) }
        ensures layout { self.new.layout ≡ self.old.layout }
    {
        match denied {
            Denied::Fault(page) => {
                self.trap(m, page);
                Ok(Access::Trapped(page))
            }
            Denied::Refused(refusal) => Err(refusal),
        }
    }
}
