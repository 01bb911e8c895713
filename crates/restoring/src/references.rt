ghost use Rattle.std.specs.Prelude.{◌≡◌, ◌≤◌};
ghost use Rattle.model.specs.Restoring.{every_below, slots_pass};
ghost use Rattle.restoring.specs.Outlines.{word_in, object_in, refers_in, slot_refers, register_refers, made_in};
ghost use Rattle.restoring.specs.Rows.{object_passes};

use super::objects::Objects;
use layouts::{Layout, Value};
use state::slot_count;

impl<L: Layout> Objects<'_, L> {
    // Whether an address is that of the header of a copied or of a new object.
    fn is_object(&self, address: u32) -> bool
        ensures { result ≡ object_in L.Layout.rules self.now address }
    {
        let outline = self.outline;
        self.heads_row(outline.start, outline.copy_end, address)
            || self.heads_row(outline.new_start, outline.end(), address)
    }

    // Whether a value, if it is a reference, is that of an object.
    fn refers_well(&self, value: Value) -> bool
        ensures { result ≡ refers_in L.Layout.rules self.now value }
    {
        match value {
            Value::Nil | Value::Number(_) => true,
            Value::Reference(address) => self.is_object(address),
        }
    }

    // Whether a slot of the object at an address that holds a reference holds that of an object.
    fn slot_refers(&self, a: u32, header: u32, slot: u32) -> bool
        requires { slot ≤ 255 }
        ensures { result ≡ slot_refers L.Layout.rules self.now a header slot }
    {
        let word = self.word(a.saturating_add(slot + 1));
        self.refers_well(self.layout.unpack(header, slot, word))
    }

    // Whether every slot of the object at an address that holds a reference holds that of an object.
    fn object_refers(&self, a: u32) -> bool
        ensures { result ≡ object_passes L.Layout.rules (word_in self.now) (refers_in L.Layout.rules self.now) a }
    {
        let header = self.word(a);
        (0..slot_count(self.layout, header)).all(|slot| self.slot_refers(a, header, slot))
    }

    // Whether every slot in a row of objects that holds a reference holds that of an object.
    fn row_refers(&self, from: u32, stop: u32) -> bool
        ensures { result ≡ slots_pass L.Layout.rules (word_in self.now) (refers_in L.Layout.rules self.now) self.now.outline.words from stop }
    {
        self.headers(from, stop).all(|a| self.object_refers(a))
    }

    // Whether a register that holds a reference holds that of an object.
    fn register_refers(&self, k: u32) -> bool
        ensures { result ≡ register_refers L.Layout.rules self.now k }
    {
        self.refers_well(self.image.register_value(k))
    }

    // Whether every register that holds a reference holds that of an object.
    fn registers_refer(&self) -> bool
        ensures { result ≡ every_below 32 (register_refers L.Layout.rules self.now) }
    {
        (0..32).all(|k| self.register_refers(k))
    }

    /// Whether the copied and the new words are whole objects, and every reference in a slot or register is that of one.
    pub(crate) fn are_well_made(&self) -> bool
        ensures { result ≡ made_in L.Layout.rules self.now }
    {
        let outline = self.outline;
        self.is_row(outline.start, outline.copy_end)
            && self.is_row(outline.new_start, outline.end())
            && self.row_refers(outline.start, outline.copy_end)
            && self.row_refers(outline.new_start, outline.end())
            && self.registers_refer()
    }
}
