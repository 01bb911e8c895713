ghost use Rattle.std.specs.Prelude.{◌≡◌};
ghost use Rattle.layouts.specs.Split.{split, reference_slots};
ghost use Rattle.std.proofs.Common.{rules};

use super::layout_rules::Layout;
use super::values::Value;
use memory::Refusal;

/// Layout 2: an object's first slots take only nil and references, the others only numbers, of all 32 bits.
#[derive(Clone, Copy, Debug)]
pub struct Split;

// The number of the layout.
const NUMBER: u32 = 2;

// How many slots behind a header are for references.
fn reference_slots(header: u32) -> u32
    ensures { result ≡ reference_slots header }
{
    header / 2 % 256
}

impl Layout for Split {
    ghost rules = { split };

    ghost lawful = { Prim.search rules };

    fn number(&self) -> u32 {
        NUMBER
    }

    // The test of the other layout: one line, with no word of either.
    fn header(&self, references: u32, numbers: u32) -> Result<u32, Refusal> {
        if references > 255 || numbers > 255 - references {
            return Err(Refusal::Shape);
        }
        Ok(1 + 2 * references + 512 * numbers)
    }

    fn slots(&self, word: u32) -> Option<u32> {
        let slots = reference_slots(word) + word / 512;
        if word % 2 == 1 && slots <= 255 {
            Some(slots)
        } else {
            None
        }
    }

    fn admits(&self, header: u32, slot: u32, value: Value) -> bool {
        match value {
            Value::Nil | Value::Reference(_) => slot < reference_slots(header),
            Value::Number(_) => slot >= reference_slots(header),
        }
    }

    fn pack(&self, header: u32, slot: u32, value: Value) -> Result<u32, Refusal> {
        let for_references = slot < reference_slots(header);
        match value {
            Value::Nil if for_references => Ok(0),
            Value::Reference(a) if for_references && a < 16384 => Ok(a + 1),
            Value::Number(n) if !for_references => Ok(n),
            Value::Nil | Value::Reference(_) | Value::Number(_) => Err(Refusal::Misfit),
        }
    }

    fn unpack(&self, header: u32, slot: u32, word: u32) -> Value {
        if slot >= reference_slots(header) {
            Value::Number(word)
        } else if word == 0 {
            Value::Nil
        } else {
            Value::Reference(word - 1)
        }
    }
}
