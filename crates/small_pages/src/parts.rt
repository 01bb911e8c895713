ghost use Rattle.std.specs.Prelude.{◌≡◌};
ghost use Rattle.small_pages.specs.Splits.{number as number_of_lem, Divides};

use memory::Refusal;

/// How many small pages each page of the host below makes.
#[derive(Clone, Copy)]
pub enum Parts {
    Two = 2,
    Four = 4,
    Eight = 8,
}

impl Parts {
    pub(crate) fn number(self) -> u32
        ensures { result ≡ number_of_lem self }
    {
        self as u32
    }
}

impl TryFrom<u32> for Parts {
    type Error = Refusal;

    ghost try_from_gives = { Divides };

    fn try_from(k: u32) -> Result<Parts, Refusal> {
        match k {
            2 => Ok(Parts::Two),
            4 => Ok(Parts::Four),
            8 => Ok(Parts::Eight),
            _ => Err(Refusal::Size),
        }
    }
}
