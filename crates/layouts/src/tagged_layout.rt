ghost use Rattle.std.specs.Prelude.{◌≡◌};
ghost use Rattle.layouts.specs.Tagged.{tagged};
ghost use Rattle.layouts.specs.TaggedLaws.{tagged_lawful};

use super::layout_rules::Layout;
use super::values::Value;
use memory::Refusal;

/// Layout 1: the low bits of a slot's word tell its kind, so every slot takes nil, references and numbers below
/// 2^31.
#[derive(Clone, Copy, Debug)]
pub struct Tagged;

// The number of the layout.
const NUMBER: u32 = 1;

impl Layout for Tagged {
    ghost rules = { tagged };

    ghost lawful = { tagged_lawful };

    fn number(&self) -> u32 {
        NUMBER
    }

    fn header(&self, references: u32, numbers: u32) -> Result<u32, Refusal> {
        if references > 255 || numbers > 255 - references {
            return Err(Refusal::Shape);
        }
        Ok(2 * (references + numbers) + 1)
    }

    fn slots(&self, word: u32) -> Option<u32> {
        if word % 2 == 1 && word / 2 <= 255 {
            Some(word / 2)
        } else {
            None
        }
    }

    fn admits(&self, _header: u32, _slot: u32, value: Value) -> bool {
        match value {
            Value::Nil | Value::Reference(_) => true,
            Value::Number(n) => n < 0x8000_0000,
        }
    }

    fn pack(&self, _header: u32, _slot: u32, value: Value) -> Result<u32, Refusal> {
        match value {
            Value::Nil => Ok(0),
            Value::Number(n) if n < 0x8000_0000 => Ok(2 * n + 1),
            Value::Reference(a) if a < 16384 => Ok(2 * (a + 1)),
            Value::Number(_) | Value::Reference(_) => Err(Refusal::Misfit),
        }
    }

    fn unpack(&self, _header: u32, _slot: u32, word: u32) -> Value {
        if word % 2 == 1 {
            Value::Number(word / 2)
        } else if word == 0 {
            Value::Nil
        } else {
            Value::Reference(word / 2 - 1)
        }
    }
}
