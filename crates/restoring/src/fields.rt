ghost use Rattle.std.specs.Prelude.{◌≡◌};
ghost use Rattle.model.specs.Restoring.{every_below, is_written_well, is_of_this};
ghost use Rattle.restoring.specs.Restored.{image_view};
ghost use Rattle.restoring.specs.Outlines.{unused_in};

use super::image_words::{
    COPIED_WORDS, HALF_NUMBER, HALF_PAGES, Image, LAYOUT_NUMBER, NEW_WORDS, SEAL, TO_SPACE,
};
use layouts::Layout;
use memory::Host;
use state::words_in_half;
use words::{page_words, pages_in_half};

impl Image<'_> {
    // Whether a word of a to-space of so many words is used, or 0.
    fn unused_is_0(&self, words: u32, j: u32) -> bool
        ensures { result ≡ unused_in words (image_view self.now.words.now) j }
    {
        j < self.word(COPIED_WORDS)
            || words.saturating_sub(self.word(NEW_WORDS)) <= j
            || self.word(TO_SPACE + j as usize) == 0
    }

    // Whether every word of a to-space of so many words is used, or 0.
    fn unused_are_0(&self, words: u32) -> bool
        ensures { result ≡ every_below words (unused_in words (image_view self.now.words.now)) }
    {
        (0..words).all(|j| self.unused_is_0(words, j))
    }

    /// Whether the half is 0 or 1, the copied and the new words fit into it, the registers are as they must be, and every
    /// unused word is 0.
    pub(crate) fn is_written_well<H: Host>(&self, host: &H) -> bool
        ensures { result ≡ is_written_well (H.Host.meaning host.now) (image_view self.now.words.now) }
    {
        let words = words_in_half(host);
        let used = self.word(COPIED_WORDS) as u64 + self.word(NEW_WORDS) as u64;
        self.word(HALF_NUMBER) <= 1
            && used <= words as u64
            && self.registers_fit()
            && self.unused_are_0(words)
    }

    /// Whether an image is of a host of this size and of this layout.
    pub(crate) fn is_of_this<H: Host, L: Layout>(&self, host: &H, layout: &L) -> bool
        ensures { result ≡ is_of_this L.Layout.rules (H.Host.meaning host.now) (image_view self.now.words.now) }
    {
        self.word(SEAL) == page_words(host)
            && self.word(HALF_PAGES) == pages_in_half(host)
            && self.word(LAYOUT_NUMBER) == layout.number()
    }
}
