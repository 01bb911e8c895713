ghost use Rattle.std.specs.Prelude.{◌≡◌, ℕ, ◌<◌};
ghost use Rattle.memory.specs.Memory.{Memory};
ghost use Rattle.model.specs.Heap.{register_number, with_register, with_state};
ghost use Rattle.model.specs.Refusing.{is_running};
ghost use Rattle.state.specs.View.{held_value, register_view, state_view, state_of, idle_of};
ghost use Rattle.state.specs.References.{Refers};

use super::mutators::{Held, Mutator, ToAddress};
use super::names::{MutatorName, RegisterName};
use super::plain_state::{Plain, Space};
use model::{Half, Phase, State};

impl Plain {
    /// The state of a heap with nothing in progress: its mutators, the half in use, and where the copied words end there and
    /// the new ones begin.
    pub fn idle(mutators: [Mutator; 4], half: Half, copy_end: u32, new_start: u32) -> Plain
        ensures { (x : Memory) → state_of x result ≡ idle_of x mutators half copy_end new_start }
    {
        Plain {
            mutators,
            space: Space {
                copy_end,
                crossing: [0; 64],
            },
            half,
            new_start,
            unscanned: [0; 64],
            flip_used: 0,
            unsaved: [false; 64],
            mark_start: 0,
            phase: Phase::Idle,
            traps: 0,
        }
    }

    /// Puts a value into a register.
    pub fn set_register(&mut self, m: u32, r: u32, held: Held)
        requires { (m < 4) × (r < 8) }
        ensures { (x : Memory) → state_of x self.new ≡ with_register (state_of x self.old) m r (held_value held) }
    {
        let mutator = &mut self.mutators[m as usize];
        mutator.hold(r, held);
    }

    /// Moves a mutator to a state.
    pub fn set_state(&mut self, m: u32, state: State)
        requires { m < 4 }
        ensures { (x : Memory) → state_of x self.new ≡ with_state (state_of x self.old) m state }
    {
        let mutator = &mut self.mutators[m as usize];
        mutator.move_to(state);
    }

    /// What a register holds.
    pub fn register(&self, m: u32, r: u32) -> Held
        requires { (m < 4) × (r < 8) }
        ensures { held_value result ≡ register_view self.now.mutators (register_number m r) }
    {
        self.mutators[m as usize].registers[r as usize]
    }

    /// The object that a register refers to.
    pub fn reference(&self, m: u32, r: u32) -> Option<ToAddress>
        requires { (m < 4) × (r < 8) }
        ensures { Refers (register_view self.now.mutators (register_number m r)) result }
    {
        match self.register(m, r) {
            Held::Reference(a) => Some(a),
            _ => None,
        }
    }

    /// Whether a mutator runs.
    pub fn is_running(&self, m: u32) -> bool
        requires { m < 4 }
        ensures { result ≡ is_running (state_view self.now.mutators m) }
    {
        self.mutators[m as usize].runs()
    }
}

// The same, of a mutator and a register by name: there nothing is asked.
impl Plain {
    /// Puts a value into a register.
    pub fn hold(&mut self, m: MutatorName, r: RegisterName, held: Held)
        ensures { (x : Memory) → state_of x self.new ≡ with_register (state_of x self.old) m r (held_value held) }
    {
        self.set_register(m.number(), r.number(), held);
    }

    /// Moves a mutator to a state.
    pub fn move_to(&mut self, m: MutatorName, state: State)
        ensures { (x : Memory) → state_of x self.new ≡ with_state (state_of x self.old) m state }
    {
        self.set_state(m.number(), state);
    }

    /// What a register holds.
    pub fn held(&self, m: MutatorName, r: RegisterName) -> Held
        ensures { held_value result ≡ register_view self.now.mutators (register_number m r) }
    {
        self.register(m.number(), r.number())
    }

    /// The object that a register refers to.
    pub fn object(&self, m: MutatorName, r: RegisterName) -> Option<ToAddress>
        ensures { Refers (register_view self.now.mutators (register_number m r)) result }
    {
        self.reference(m.number(), r.number())
    }

    /// What a mutator does.
    pub fn state(&self, m: MutatorName) -> State
        ensures { result ≡ state_view self.now.mutators m }
    {
        self.mutators[m.number() as usize].state
    }

    /// Whether a mutator runs.
    pub fn runs(&self, m: MutatorName) -> bool
        ensures { result ≡ is_running (state_view self.now.mutators m) }
    {
        self.is_running(m.number())
    }
}
