ghost use Rattle.std.specs.Prelude.{◌≡◌, ℕ, ◌≤◌};
ghost use Rattle.model.specs.Heap.{first_page, first_word, half_words, other_half, whole_pages};

use memory::Host;
use model::Half;
use words::{page_words, pages_in_half};

/// The other half.
pub fn other(half: Half) -> Half
    ensures { result ≡ other_half half }
{
    match half {
        Half::Lower => Half::Upper,
        Half::Upper => Half::Lower,
    }
}

/// The first page of a half, at most 32.
pub fn page_of_half<H: Host>(host: &H, half: Half) -> u32
    ensures value { result ≡ first_page (H.Host.meaning host.now) half }
    ensures few { result ≤ 32 }
{
    match half {
        Half::Lower => 0,
        Half::Upper => pages_in_half(host),
    }
}

/// Words in a half, at most 8192.
pub fn words_in_half<H: Host>(host: &H) -> u32
    ensures value { result ≡ half_words (H.Host.meaning host.now) }
    ensures few { result ≤ 8192 }
{
    pages_in_half(host) * page_words(host)
}

/// The first word of a half, at most 8192.
pub fn start_of_half<H: Host>(host: &H, half: Half) -> u32
    ensures value { result ≡ first_word (H.Host.meaning host.now) half }
    ensures few { result ≤ 8192 }
{
    match half {
        Half::Lower => 0,
        Half::Upper => words_in_half(host),
    }
}

/// The whole pages for so many words, in a half.
pub fn pages_for<H: Host>(host: &H, words: u32) -> u32
    ensures value { result ≡ whole_pages (H.Host.meaning host.now) words }
    ensures few { result ≤ 32 }
{
    let size = page_words(host);
    words.div_ceil(size).min(pages_in_half(host))
}
