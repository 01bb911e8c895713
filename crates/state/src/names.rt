ghost use Rattle.std.specs.Prelude.{◌≡◌, ℕ, ◌<◌, ◌≤◌, MatchResult};
ghost use Rattle.std.specs.Coded.{coded_ℕ};
ghost use Rattle.memory.specs.declared.refusals.Refusal.TheVariants.{Name as NameRefused};

use memory::Refusal;
use std::marker::Model;

/// One of N, by its number.
#[derive(Clone, Copy)]
pub struct Name<const N: u32> {
    number: u32,
}

impl<const N: u32> Model for Name<N> {
    ghost Value = { ℕ };

    ghost coded = { coded_ℕ };

    ghost view = { λ name. name.number };

    ghost invariant = { λ name. name.number < N };

    ghost inverse = { λ n. record { number = n } };
}

/// One of the four mutators.
pub type MutatorName = Name<4>;

/// One of a mutator's eight registers.
pub type RegisterName = Name<8>;

/// A call that names another mutator or register is refused as `Name`.
impl<const N: u32> TryFrom<u32> for Name<N> {
    type Error = Refusal;

    ghost try_from_gives = { λ n res. MatchResult res (λ name. (name ≡ n) × (n < N)) (λ e. (e ≡ NameRefused) × (N ≤ n)) };

    fn try_from(number: u32) -> Result<Name<N>, Refusal> {
        if number >= N {
            return Err(Refusal::Name);
        }
        Ok(Name { number })
    }
}

impl<const N: u32> Name<N> {
    /// The number.
    pub fn number(self) -> u32
        ensures value { result ≡ self.entry }
        ensures few { result < N }
    {
        self.number
    }
}
