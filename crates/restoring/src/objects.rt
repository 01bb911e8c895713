ghost use Rattle.std.specs.Prelude.{◌≡◌, ◌+◌, ◌≤◌};
ghost use Rattle.model.specs.Heap.{half_words};
ghost use Rattle.restoring.specs.Restored.{image_view};
ghost use Rattle.restoring.specs.Outlines.{IsOutline, word_in};

use super::image_words::{Image, TO_SPACE};
use super::outlines::Outline;
use memory::Host;

/// The objects of an image, by its layout and by where they lie.
#[derive_where(Clone, Copy)]
pub(crate) struct Objects<'a, L> {
    pub(crate) layout: &'a L,
    pub(crate) image: Image<'a>,
    pub(crate) outline: Outline,
}

impl<'a, L> Objects<'a, L> {
    /// The objects of an image that has no more words of them than a half holds.
    pub(crate) fn new<H: Host>(host: &H, layout: &'a L, words: &'a [u32]) -> Objects<'a, L>
        requires { image_view words.now 4 + image_view words.now 5 ≤ half_words (H.Host.meaning host.now) }
        ensures image { result.image.words.now ≡ words.now }
        ensures outline { IsOutline (H.Host.meaning host.now) (image_view result.image.words.now) result.outline }
    {
        let image = Image { words };
        Objects {
            layout,
            image,
            outline: Outline::new(host, &image),
        }
    }

    /// The word at an address: 0 outside to-space.
    pub(crate) fn word(&self, a: u32) -> u32
        ensures { result ≡ word_in self.now a }
    {
        let outline = self.outline;
        if a < outline.start || a >= outline.end() {
            return 0;
        }
        self.image.word(TO_SPACE + (a - outline.start) as usize)
    }
}
