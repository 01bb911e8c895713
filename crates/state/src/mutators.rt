ghost use Rattle.std.specs.Prelude.{◌≡◌, length};
ghost use Rattle.model.specs.Refusing.{is_running};
ghost use Rattle.state.specs.Moves.{next, with_held, with_state};

use layouts::Value;
use model::{Kind, State};

// Two types of one shape, so that neither address is taken for the other: forwarding alone makes the second of the first.

/// The address of a header in from-space, the half that a collection leaves.
#[derive(Clone, Copy, Debug, PartialEq, Eq)]
pub struct FromAddress(pub u32);

/// The address of a header in to-space, the half in use.
#[derive(Clone, Copy, Debug, PartialEq, Eq)]
pub struct ToAddress(pub u32);

/// What a register holds. A reference is to an object in to-space.
#[derive(Clone, Copy, Debug, PartialEq, Eq)]
pub enum Held {
    Nil,
    Number(u32),
    Reference(ToAddress),
}

/// A register's value, as a layout has it.
impl From<Held> for Value {
    ghost use Rattle.state.specs.View.{held_value};

    ghost from_gives = { λ held value. value ≡ held_value held };

    fn from(held: Held) -> Value {
        match held {
            Held::Nil => Value::Nil,
            Held::Number(n) => Value::Number(n),
            Held::Reference(a) => Value::Reference(a.0),
        }
    }
}

/// A slot's value, as a register holds it. A mutator's slots lie on scanned pages, so their references are to to-space.
impl From<Value> for Held {
    ghost use Rattle.state.specs.View.{held_value};

    ghost from_gives = { λ value held. held_value held ≡ value };

    fn from(value: Value) -> Held {
        match value {
            Value::Nil => Held::Nil,
            Value::Number(n) => Held::Number(n),
            Value::Reference(a) => Held::Reference(ToAddress(a)),
        }
    }
}

/// What TELL says of a register.
impl From<Held> for Kind {
    ghost use Rattle.model.specs.Objects.{kind_of};
    ghost use Rattle.state.specs.View.{held_value};

    ghost from_gives = { λ held kind. kind ≡ kind_of (held_value held) };

    fn from(held: Held) -> Kind {
        match held {
            Held::Nil => Kind::Nil,
            Held::Number(n) => Kind::Number(n),
            Held::Reference(_) => Kind::Reference,
        }
    }
}

/// A mutator: a thread of a rule program, by its registers and what it does.
#[derive(Clone, Copy)]
pub struct Mutator {
    pub registers: [Held; 8],
    pub state: State,
}

/// What moves a mutator from state to state.
#[derive(Clone, Copy)]
pub enum Event {
    /// A call of it trapped on a page.
    Trap(u32),
    /// TAKE: its fault is handed out.
    Take,
    /// RESOLVE: its fault on a page was worked off.
    Resolve(u32),
    /// RESOLVE was refused for want of a buffer: its fault on a page goes back.
    GoBack(u32),
}

/// Where an event moves a mutator; none where the event does not fit its state.
pub fn next_state(state: State, event: Event) -> Option<State>
    ensures { result ≡ next state event }
{
    match (state, event) {
        (_, Event::Trap(page)) => Some(State::Waiting(page)),
        (State::Waiting(page), Event::Take) => Some(State::InHand(page)),
        (State::InHand(held), Event::Resolve(page)) if held == page => Some(State::Running),
        (State::InHand(held), Event::GoBack(page)) if held == page => Some(State::Waiting(page)),
        _ => None,
    }
}

impl Mutator {
    /// Puts a value into a register; a mutator has no register above 7.
    pub fn hold(&mut self, r: u32, held: Held)
        ensures after { self.new ≡ with_held self.old r held }
        ensures eight { length self.old.registers ≡ 8 }
    {
        if (r as usize) < self.registers[..].len() {
            self.registers[r as usize] = held;
        }
    }

    /// Whether the mutator runs.
    pub fn runs(&self) -> bool
        ensures { result ≡ is_running self.now.state }
    {
        self.state == State::Running
    }

    /// Moves the mutator to a state.
    pub fn move_to(&mut self, state: State)
        ensures { self.new ≡ with_state self.old state }
    {
        self.state = state;
    }
}
