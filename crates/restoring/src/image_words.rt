ghost use Rattle.std.specs.Prelude.{◌≡◌, ◌+◌, ◌*◌};
ghost use Rattle.model.specs.Restoring.{half_of};
ghost use Rattle.restoring.specs.Restored.{image_view};

use model::Half;

// Where the words of an image stand.

/// The page size of a sealed image, else 0.
pub(crate) const SEAL: usize = 0;

/// The pages of a half.
pub(crate) const HALF_PAGES: usize = 1;

/// The layout's number.
pub(crate) const LAYOUT_NUMBER: usize = 2;

/// The half that is to-space: 0 the lower one.
pub(crate) const HALF_NUMBER: usize = 3;

/// How many words the copied objects have.
pub(crate) const COPIED_WORDS: usize = 4;

/// How many words the new objects have.
pub(crate) const NEW_WORDS: usize = 5;

/// The 32 registers, a kind and a payload each.
pub(crate) const REGISTERS: usize = 6;

/// The words of to-space.
pub(crate) const TO_SPACE: usize = 70;

/// The words of an image.
#[derive(Clone, Copy)]
pub(crate) struct Image<'a> {
    pub(crate) words: &'a [u32],
}

impl Image<'_> {
    /// A word, 0 past the end.
    pub(crate) fn word(&self, j: usize) -> u32
        ensures { result ≡ image_view self.now.words.now j }
    {
        self.words.get(j).copied().unwrap_or(0)
    }

    /// The half that is to-space; every number but 0 is the upper one's.
    pub(crate) fn half(&self) -> Half
        ensures { result ≡ half_of (image_view self.now.words.now 3) }
    {
        match self.word(HALF_NUMBER) {
            0 => Half::Lower,
            _ => Half::Upper,
        }
    }

    /// The number of what a register holds.
    pub(crate) fn register_kind(&self, k: u32) -> u32
        ensures { result ≡ image_view self.now.words.now (6 + 2 * k) }
    {
        self.word(REGISTERS + 2 * k as usize)
    }

    /// A register's number or address.
    pub(crate) fn register_payload(&self, k: u32) -> u32
        ensures { result ≡ image_view self.now.words.now (7 + 2 * k) }
    {
        self.word(REGISTERS + 1 + 2 * k as usize)
    }
}
