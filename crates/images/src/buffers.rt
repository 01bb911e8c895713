ghost use Rattle.std.specs.Prelude.{◌≡◌, ◌+◌, ◌<◌, ◌≤◌, length, nat_lt};
ghost use Rattle.memory.specs.Memory.{changed};
ghost use Rattle.model.specs.Images.{image_words};
ghost use Rattle.images.specs.Lent.{Rewritten};

use memory::Host;
use state::words_in_half;

/// The words of an image before those of to-space: its sizes, its layout and the registers.
pub(crate) const PREAMBLE_WORDS: u32 = 70;

/// The words that an image takes, at most 8262.
pub fn image_words<H: Host>(host: &H) -> u32
    ensures value { result ≡ image_words (H.Host.meaning host.now) }
    ensures few { result ≤ 8262 }
{
    PREAMBLE_WORDS + words_in_half(host)
}

/// Whether a buffer has fewer words than an image takes.
pub(crate) fn is_short<H: Host>(host: &H, buffer: &[u32]) -> bool
    ensures { result ≡ nat_lt (length buffer.now) (image_words (H.Host.meaning host.now)) }
{
    buffer.len() < image_words(host) as usize
}

/// Writes a word of an image.
pub(crate) fn write_word(buffer: &mut [u32], j: u32, word: u32)
    requires { j < length buffer.old }
    ensures { Rewritten (λ b. changed b j word) buffer.old buffer.new }
{
    buffer[j as usize] = word;
}
