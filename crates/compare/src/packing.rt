use super::objects::{Item, Shape};

/// How an object's words hold its values, by the layout's number.
#[derive(Clone, Copy, PartialEq, Eq)]
pub enum Packing {
    Tagged = 1,
    Split = 2,
}

impl Packing {
    /// The layout's number.
    pub fn number(self) -> u32 {
        self as u32
    }

    pub fn other(self) -> Packing {
        match self {
            Packing::Tagged => Packing::Split,
            Packing::Split => Packing::Tagged,
        }
    }

    /// Whether a slot of an object takes an item.
    pub fn admits(self, shape: Shape, slot: u32, item: Item) -> bool {
        match (self, item) {
            (Packing::Tagged, Item::Number(n)) => n < 2147483648,
            (Packing::Tagged, _) => true,
            (Packing::Split, Item::Number(_)) => slot >= shape.references,
            (Packing::Split, _) => slot < shape.references,
        }
    }

    /// The slots behind a header.
    pub fn slots(self, header: u32) -> u32 {
        match self {
            Packing::Tagged => header / 2,
            Packing::Split => (header / 2 % 256).saturating_add(header / 512),
        }
    }

    /// The address in a slot that holds a reference.
    pub fn reference(self, header: u32, slot: u32, word: u32) -> Option<u32> {
        match self {
            Packing::Tagged if word % 2 == 0 => (word / 2).checked_sub(1),
            Packing::Split if slot < header / 2 % 256 => word.checked_sub(1),
            _ => None,
        }
    }

    /// The word of a reference to the address behind that of another reference.
    pub fn next_reference(self, word: u32) -> u32 {
        match self {
            Packing::Tagged => word.saturating_add(2),
            Packing::Split => word.saturating_add(1),
        }
    }
}
