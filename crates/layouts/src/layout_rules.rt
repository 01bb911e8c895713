ghost use Rattle.std.specs.Prelude.{◌≡◌};
ghost use Rattle.layouts.specs.Layouts.{Rules, Lawful, header_answer, pack_answer};

use super::values::Value;
use memory::Refusal;

/// How an object lies in memory: a header, then its slots, counted from 0, a word each.
pub trait Layout {
    // What the calls answer.
    ghost rules: { Rules };

    /// The layout's number, which an image names it by.
    fn number(&self) -> u32
        ensures { result ≡ rules.number };

    /// The header of an object with slots meant for references and then slots for numbers, at most 255 in all.
    fn header(&self, references: u32, numbers: u32) -> Result<u32, Refusal>
        ensures { result ≡ header_answer rules references numbers };

    /// How many slots stand behind a header; `None` for a word that is no header.
    fn slots(&self, word: u32) -> Option<u32>
        ensures { result ≡ rules.slots word };

    /// Whether the slot may hold the value.
    fn admits(&self, header: u32, slot: u32, value: Value) -> bool
        ensures { result ≡ rules.admits header slot value };

    /// The word of a value in a slot; refused as `Misfit` if it is not admitted or its address is no object's.
    fn pack(&self, header: u32, slot: u32, value: Value) -> Result<u32, Refusal>
        ensures { result ≡ pack_answer rules header slot value };

    /// The value of a word in a slot.
    fn unpack(&self, header: u32, slot: u32, word: u32) -> Value
        ensures { result ≡ rules.unpacked header slot word };

    ghost lawful: { Lawful rules };
}
