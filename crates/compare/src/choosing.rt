use super::calls::Call;
use super::expected::{Expected, Phase};
use super::objects::{Item, Shape};
use super::random::Random;

/// How a list goes: each of these happens once in so many calls.
#[derive(Clone, Copy)]
pub struct Habit {
    flip: u32,
    step: u32,
    mark: u32,
    save: u32,
    long: u32,
    take: u32,
    /// How many registers of each mutator are written, but for odd calls: with few, most objects are reached through slots.
    registers: u32,
}

fn rate(random: &mut Random) -> u32 {
    match random.below(4) {
        0 => 3,
        1 => 8,
        2 => 16,
        _ => 40,
    }
}

// Once in so many calls, that is hardly ever.
const NEVER: u32 = 2000;

// A rate that is once in four times hardly ever: a heap with no collection, or one that RESOLVE alone works on.
fn rate_or_never(random: &mut Random) -> u32 {
    if random.one_in(4) {
        return NEVER;
    }
    rate(random)
}

impl Habit {
    pub fn drawn(random: &mut Random) -> Habit {
        Habit {
            flip: rate_or_never(random).saturating_mul(2),
            step: rate_or_never(random),
            mark: rate(random).saturating_mul(2),
            save: rate_or_never(random),
            long: rate(random),
            take: rate(random) / 3,
            registers: match random.below(4) {
                0 => 2,
                1 => 4,
                _ => 8,
            },
        }
    }
}

/// Draws the calls of a list.
#[derive(Drop)]
pub struct Chooser<'a> {
    pub random: &'a mut Random,
    pub expected: &'a Expected,
    pub habit: Habit,
}

impl<'a> Chooser<'a> {
    // A register of a mutator that holds what is wanted, or any register if none does.
    fn register_with<F: Fn(Item) -> bool>(&mut self, m: u32, wanted: F) -> u32
        requires { (state : F) (x : _) → F.pre state x }
    {
        let start = self.random.below(8);
        let ledger = &self.expected.ledger;
        (0..8u32)
            .map(|k| start.wrapping_add(k) % 8)
            .find(|r| wanted(ledger.register(m, *r)))
            .unwrap_or(start)
    }

    fn object_register(&mut self, m: u32) -> u32 {
        self.register_with(m, |item| item.is_object())
    }

    fn number_register(&mut self, m: u32) -> u32 {
        self.register_with(m, |item| item.is_number())
    }

    // A register to write to; mostly one that holds no object, if there is one.
    fn target_register(&mut self, m: u32) -> u32 {
        let r = self.random.below(self.habit.registers);
        if self.random.one_in(6) {
            return r;
        }
        let ledger = &self.expected.ledger;
        (0..self.habit.registers)
            .find(|k| !ledger.register(m, *k).is_object())
            .unwrap_or(r)
    }

    // A slot of the object in a register, more often one meant for references; once in 16 times none that it has.
    fn slot_of(&mut self, shape: Shape) -> u32 {
        if self.random.one_in(16) {
            return shape.slots.saturating_add(self.random.below(2));
        }
        if shape.references > 0 && !self.random.one_in(4) {
            return self.random.below(shape.references);
        }
        self.random.below(shape.slots)
    }

    // A call for a mutator that holds no object: mostly it gets one of another mutator.
    fn choose_without_object(&mut self, m: u32) -> Call {
        let d = self.target_register(m);
        if self.random.one_in(8) {
            return Call::Load { m, d, s: d, i: 0 };
        }
        let f = self.random.below(4);
        let s = self.object_register(f);
        Call::Copy { m, d, f, s }
    }

    // How many slots a new object is to have: few, about a page's words, as many as there is room for and one more, or any.
    fn slot_count(&mut self) -> u32 {
        let page = self.expected.sizes.page;
        let long = if self.expected.ledger.is_imaging() {
            self.habit.long.min(5)
        } else {
            self.habit.long
        };
        if self.random.one_in(long) {
            return match self.random.below(6) {
                0 => self.expected.room().saturating_sub(1),
                1 => self.expected.room(),
                2 => page.saturating_sub(1),
                3 => page.saturating_add(self.random.below(page)),
                4 => self.random.below(256),
                _ => 250u32.saturating_add(self.random.below(8)),
            };
        }
        if self.random.one_in(10) {
            return 0;
        }
        self.random.below(6).saturating_add(1)
    }

    fn choose_new(&mut self, m: u32) -> Call {
        let slots = self.slot_count();
        let r = if self.random.one_in(3) {
            self.random.below(slots.saturating_add(1))
        } else {
            slots
        };
        let d = self.target_register(m);
        let w = slots.saturating_sub(r);
        Call::New { m, d, r, w }
    }

    fn choose_load(&mut self, m: u32) -> Call {
        let s = self.object_register(m);
        let Some(shape) = self.expected.held_shape(m, s) else {
            return self.choose_without_object(m);
        };
        let i = self.slot_of(shape);
        let d = self.target_register(m);
        Call::Load { m, d, s, i }
    }

    fn choose_store(&mut self, m: u32) -> Call {
        let s = self.object_register(m);
        let Some(shape) = self.expected.held_shape(m, s) else {
            return self.choose_without_object(m);
        };
        let i = self.slot_of(shape);
        let v = if self.random.one_in(6) {
            self.random.below(8)
        } else if i < shape.references {
            self.object_register(m)
        } else {
            self.number_register(m)
        };
        Call::Store { m, s, i, v }
    }

    // A call of a mutator that runs, if its names are right. A draw and a `match`, as elsewhere here: each arm draws its own
    // arguments, in the order that a seed stands for.
    fn choose_mutator_call(&mut self, m: u32) -> Call {
        let d = self.target_register(m);
        if self.expected.ledger.is_collecting() && self.random.one_in(3) {
            return self.choose_load(m);
        }
        match self.random.below(32) {
            0..=5 if self.expected.room() > 0 || self.random.one_in(6) => self.choose_new(m),
            6..=11 => self.choose_load(m),
            0..=23 => self.choose_store(m),
            24..=25 => {
                let f = self.random.below(4);
                let s = self.random.below(8);
                Call::Copy { m, d, f, s }
            }
            26..=27 => {
                let n = self.random.number();
                Call::SetNumber { m, d, n }
            }
            28 => Call::SetNil { m, d },
            29..=30 => {
                let a = self.random.below(8);
                let b = self.random.below(8);
                Call::Same { m, a, b }
            }
            _ => {
                let s = self.random.below(8);
                Call::Tell { m, s }
            }
        }
    }

    // The words of the buffer that are lent: once in 12 times one too few, or none.
    fn lent(&mut self) -> usize {
        let words = self.expected.sizes.image();
        match self.random.below(24) {
            0 => words.saturating_sub(1),
            1 => 0,
            2 => words.saturating_add(1),
            _ => words,
        }
    }

    // Any call, with names and sizes that need not be right.
    fn choose_odd(&mut self) -> Call {
        let m = self.random.below(5);
        let d = self.random.below(9);
        let s = self.random.below(9);
        match self.random.below(15) {
            0 => {
                let r = self.random.below(300);
                let w = self.random.number();
                Call::New { m, d, r, w }
            }
            1 => Call::Load { m, d, s, i: 0 },
            2 => Call::Store { m, s, i: 0, v: d },
            3 => {
                let f = self.random.below(5);
                Call::Copy { m, d, f, s }
            }
            4 => Call::SetNumber { m, d, n: 7 },
            5 => Call::SetNil { m, d },
            6 => Call::Same { m, a: d, b: s },
            7 => Call::Tell { m, s },
            8 => Call::Flip,
            9 => Call::Step,
            10 => Call::Take { m },
            11 => Call::Mark { lent: self.lent() },
            12 => Call::Save { lent: self.lent() },
            _ => Call::Count,
        }
    }

    // A call that works a mutator's fault off, if it has one and it is time.
    fn choose_for_fault(&mut self, tokens: [Option<u32>; 4], m: u32) -> Option<Call> {
        let m = m % 4;
        match tokens[m as usize] {
            Some(page) => {
                let lent = self.lent();
                Some(Call::Resolve { m, page, lent })
            }
            None => self.expected.ledger.waits(m).then_some(Call::Take { m }),
        }
    }

    // A call that begins a collection or an image or goes on with it, if it is time.
    fn choose_for_phase(&mut self) -> Option<Call> {
        match self.expected.ledger.phase {
            Phase::Idle if self.random.one_in(self.habit.flip) => Some(Call::Flip),
            Phase::Idle if self.random.one_in(self.habit.mark) => {
                Some(Call::Mark { lent: self.lent() })
            }
            Phase::Collecting if self.random.one_in(self.habit.step) => Some(Call::Step),
            Phase::Imaging if self.random.one_in(self.habit.save) => {
                Some(Call::Save { lent: self.lent() })
            }
            _ => None,
        }
    }

    // A call that makes room, if there is little: a collection begins, if the list has any, or a register is given up.
    fn choose_for_room(&mut self, m: u32) -> Option<Call> {
        if !self.expected.ledger.is_idle() || self.expected.room() >= 8 {
            return None;
        }
        if self.habit.flip < NEVER && self.random.one_in(4) {
            return Some(Call::Flip);
        }
        if self.random.one_in(8) {
            let d = self.object_register(m);
            return Some(Call::SetNil { m, d });
        }
        None
    }

    // A mutator, most often one that runs, if there is one.
    fn choose_mutator(&mut self) -> u32 {
        let start = self.random.below(4);
        if self.random.one_in(12) {
            return start;
        }
        let ledger = &self.expected.ledger;
        (0..4u32)
            .map(|k| start.wrapping_add(k) % 4)
            .find(|m| ledger.runs(*m))
            .unwrap_or(start)
    }

    // A TAKE would put a fault over one that is still in hand: that one is to be resolved first.
    fn mind_hands(&mut self, tokens: [Option<u32>; 4], call: Call) -> Call {
        match call {
            Call::Take { m } if m <= 3 && self.expected.ledger.waits(m) => {
                self.choose_for_fault(tokens, m).unwrap_or(call)
            }
            _ => call,
        }
    }

    /// What a mutator mostly does right after a call that was done: a new object is linked to another one, and while collecting,
    /// an object that was loaded is loaded from in turn.
    pub fn choose_follow_up(&mut self, call: Call) -> Option<Call> {
        match call {
            Call::New { m, d, r, .. } if r > 0 && !self.random.one_in(4) => {
                let v = self.object_register(m);
                let i = self.random.below(r);
                Some(Call::Store { m, s: d, i, v })
            }
            Call::Load { m, d, .. }
                if self.expected.ledger.is_collecting() && !self.random.one_in(3) => {
                let shape = self.expected.held_shape(m, d)?;
                let i = self.random.below(shape.references);
                Some(Call::Load { m, d, s: d, i })
            }
            _ => None,
        }
    }

    /// The next call of a list. `tokens` has the pages of the faults in hand.
    pub fn choose(&mut self, tokens: [Option<u32>; 4]) -> Call {
        let idle = !self.expected.ledger.any_runs() && !self.random.one_in(4);
        if idle || self.random.one_in(self.habit.take) {
            let m = self.random.below(4);
            if let Some(call) = self.choose_for_fault(tokens, m) {
                return call;
            }
        }
        if let Some(call) = self.choose_for_phase() {
            return call;
        }
        if self.random.one_in(20) {
            let call = self.choose_odd();
            return self.mind_hands(tokens, call);
        }
        let m = self.choose_mutator();
        if let Some(call) = self.choose_for_room(m) {
            return call;
        }
        self.choose_mutator_call(m)
    }
}
