ghost use Rattle.std.specs.Prelude.{◌≡◌, ◌≤◌};
ghost use Rattle.model.specs.Objects.{slot_count, object_words};

use layouts::Layout;

/// The slots of the object with this header, at most 255; a word that is no header has none.
pub fn slot_count<L: Layout>(layout: &L, header: u32) -> u32
    ensures value { result ≡ slot_count L.Layout.rules header }
    ensures few { result ≤ 255 }
{
    layout.slots(header).unwrap_or(0)
}

/// The words of the object with this header, from 1 to 256.
pub fn object_words<L: Layout>(layout: &L, header: u32) -> u32
    ensures value { result ≡ object_words L.Layout.rules header }
    ensures some { 1 ≤ result }
    ensures few { result ≤ 256 }
{
    slot_count(layout, header) + 1
}
