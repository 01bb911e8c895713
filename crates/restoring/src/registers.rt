ghost use Rattle.std.specs.Prelude.{◌≡◌};
ghost use Rattle.model.specs.Restoring.{every_below, register_fits};
ghost use Rattle.restoring.specs.Restored.{image_view};
ghost use Rattle.restoring.specs.Outlines.{register_in};

use super::image_words::Image;
use layouts::Value;
use memory::Refusal;

/// What a register holds. An image has it as a number.
#[derive(Clone, Copy)]
pub(crate) enum Kind {
    Nil,
    Number,
    Reference,
}

impl TryFrom<u32> for Kind {
    ghost use Rattle.restoring.specs.Kinds.{kind_of};

    type Error = Refusal;

    ghost try_from_gives = { λ n res. res ≡ kind_of n };

    fn try_from(number: u32) -> Result<Kind, Refusal> {
        match number {
            0 => Ok(Kind::Nil),
            1 => Ok(Kind::Number),
            2 => Ok(Kind::Reference),
            _ => Err(Refusal::BadImage),
        }
    }
}

impl Image<'_> {
    // Whether a register's kind is one of the three, and nil has no payload.
    fn register_fits(&self, k: u32) -> bool
        ensures { result ≡ register_fits (image_view self.now.words.now) k }
    {
        match Kind::try_from(self.register_kind(k)) {
            Ok(Kind::Nil) => self.register_payload(k) == 0,
            Ok(_) => true,
            Err(_) => false,
        }
    }

    /// Whether every register's kind is one of the three, and nil has no payload.
    pub(crate) fn registers_fit(&self) -> bool
        ensures { result ≡ every_below 32 (register_fits (image_view self.now.words.now)) }
    {
        (0..32).all(|k| self.register_fits(k))
    }

    /// What a register holds: a reference where its kind is none of the three, and nil above 31.
    pub(crate) fn register_value(&self, k: u32) -> Value
        ensures { result ≡ register_in (image_view self.now.words.now) k }
    {
        if k >= 32 {
            return Value::Nil;
        }
        let payload = self.register_payload(k);
        match Kind::try_from(self.register_kind(k)) {
            Ok(Kind::Nil) => Value::Nil,
            Ok(Kind::Number) => Value::Number(payload),
            Ok(Kind::Reference) | Err(_) => Value::Reference(payload),
        }
    }
}
