ghost use Rattle.std.specs.Prelude.{◌≡◌, ◌+◌, ◌≤◌};

use super::image_words::{COPIED_WORDS, Image, NEW_WORDS};
use memory::Host;
use state::{start_of_half, words_in_half};

/// Where an image's objects lie: to-space, and the gap between the copied and the new ones.
#[derive(Clone, Copy)]
pub(crate) struct Outline {
    pub(crate) start: u32,
    pub(crate) words: u32,
    pub(crate) copy_end: u32,
    pub(crate) new_start: u32,
    // The copied and the new words lie in to-space, and that in a host.
    ghost laid: { (start ≤ copy_end) × (copy_end ≤ start + words) × (start ≤ new_start) × (new_start ≤ start + words) × (start + words ≤ 16384) },
}

impl Outline {
    ghost use Rattle.model.specs.Heap.{half_words};
    ghost use Rattle.restoring.specs.Restored.{image_view};
    ghost use Rattle.restoring.specs.Outlines.{IsOutline};

    /// Where the objects of an image lie that has no more of them than a half holds.
    pub(crate) fn new<H: Host>(host: &H, image: &Image) -> Outline
        requires { image_view image.now.words.now 4 + image_view image.now.words.now 5 ≤ half_words (H.Host.meaning host.now) }
        ensures { IsOutline (H.Host.meaning host.now) (image_view image.now.words.now) result }
    {
        let start = start_of_half(host, image.half());
        let words = words_in_half(host);
        Outline {
            start,
            words,
            copy_end: start + image.word(COPIED_WORDS),
            new_start: start + words - image.word(NEW_WORDS),
        }
    }

    /// Where to-space ends.
    pub(crate) fn end(self) -> u32
        ensures { result ≡ self.start + self.words }
    {
        self.start + self.words
    }
}
