/// A generator of numbers: xorshift with 32 bits.
#[derive(Clone, Copy)]
pub struct Random {
    state: u32,
}

impl Random {
    /// A generator that gives the same numbers for the same seed.
    pub fn seeded(seed: u32) -> Random {
        let state = seed.wrapping_mul(2654435761) ^ 1540483477;
        Random {
            state: state.max(1),
        }
    }

    fn draw(&mut self) -> u32 {
        let mut x = self.state;
        x ^= x << 13;
        x ^= x >> 17;
        x ^= x << 5;
        self.state = x;
        x
    }

    /// A number below a limit; 0 for the limit 0.
    pub fn below(&mut self, limit: u32) -> u32 {
        let drawn = self.draw() >> 3;
        drawn.checked_rem(limit).unwrap_or(0)
    }

    /// Whether something happens that happens once in so many times.
    pub fn one_in(&mut self, times: u32) -> bool {
        self.below(times) == 0
    }

    /// A number that a program may well use, with the edges of the layouts among them.
    pub fn number(&mut self) -> u32 {
        match self.below(8) {
            0 => 0,
            1 => 2147483647,
            2 => 2147483648,
            3 => 4294967295,
            4 => self.draw(),
            _ => self.below(1000),
        }
    }
}
