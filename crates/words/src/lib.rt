#![tactic(auto)]

ghost use Rattle.std.specs.Prelude.{◌≡◌, ℕ, ◌+◌, ◌/◌, ◌≤◌};
ghost use Rattle.memory.specs.Memory.{look_answer, put_answer, after_put, after_set};
ghost use Rattle.model.specs.Heap.{half_pages};
ghost use Rattle.model.specs.Forwarding.{copied, closed};
ghost use Rattle.model.specs.Collecting.{opened};
ghost use Rattle.words.specs.Words.{zeroed};

use memory::{Denied, Host, Right};

// That a host stays where it is only read ties the host before to the one after: each such function says it.

// The heap only ever asks for what lies inside its host, and that is a theorem about whole runs. Where it does not know that
// from the call alone it goes by these functions, which answer outside too: a word there is 0, and a write or a right there is
// dropped, as the definitions have it.

/// The word at an address, by the second view; 0 outside.
pub fn word<H: Host>(host: &mut H, a: u32) -> u32
    ensures value { result ≡ (H.meaning host.old).word a }
    ensures after { H.meaning host.new ≡ H.meaning host.old }
{
    host.see(a).unwrap_or(0)
}

/// Writes the word at an address, by the second view; outside, nothing.
pub fn set_word<H: Host>(host: &mut H, a: u32, word: u32)
    ensures { H.meaning host.new ≡ after_set (H.meaning host.old) a word }
{
    let _ = host.set(a, word);
}

/// The word that lies so far behind an address, by the second view; 0 outside.
pub fn word_behind<H: Host>(host: &mut H, base: u32, offset: u32) -> u32
    ensures value { result ≡ (H.meaning host.old).word (base + offset) }
    ensures after { H.meaning host.new ≡ H.meaning host.old }
{
    word(host, base.saturating_add(offset))
}

/// Writes the word that lies so far behind an address, by the second view; outside, nothing.
pub fn set_behind<H: Host>(host: &mut H, base: u32, offset: u32, word: u32)
    ensures { H.meaning host.new ≡ after_set (H.meaning host.old) (base + offset) word }
{
    set_word(host, base.saturating_add(offset), word);
}

/// Copies words, the first one first, by the second view.
pub fn copy_words<H: Host>(host: &mut H, old: u32, new: u32, count: u32)
    ensures { H.meaning host.new ≡ copied count (H.meaning host.old) old new }
{
    for k in 0..count {
        let word = word_behind(host, old, k);
        set_behind(host, new, k, word);
    }
}

/// Reads the word that lies so far behind an address, if its page allows it.
pub fn look_behind<H: Host>(host: &mut H, base: u32, offset: u32) -> Result<u32, Denied>
    ensures answer { result ≡ look_answer (H.meaning host.old) (base + offset) }
    ensures after { H.meaning host.new ≡ H.meaning host.old }
{
    host.look(base.saturating_add(offset))
}

/// Writes the word that lies so far behind an address, if its page allows it.
pub fn put_behind<H: Host>(host: &mut H, base: u32, offset: u32, word: u32) -> Result<(), Denied>
    ensures answer { result ≡ put_answer (H.meaning host.old) (base + offset) }
    ensures after { H.meaning host.new ≡ after_put (H.meaning host.old) (base + offset) word }
{
    host.put(base.saturating_add(offset), word)
}

/// Sets the first words to 0, by the second view.
pub fn zero_words<H: Host>(host: &mut H, count: u32)
    ensures { H.meaning host.new ≡ zeroed count (H.meaning host.old) }
{
    for a in 0..count {
        let _ = host.set(a, 0);
    }
}

/// Raises pages to all, one after the other.
pub fn open_pages<H: Host>(host: &mut H, first: u32, count: u32)
    ensures { H.meaning host.new ≡ opened count (H.meaning host.old) first }
{
    for i in 0..count {
        let _ = host.unprot(first.saturating_add(i), Right::All);
    }
}

/// Lowers to none the pages that so many words from an address on touch.
pub fn close_pages<H: Host>(host: &mut H, first: u32, count: u32)
    ensures { H.meaning host.new ≡ closed (H.meaning host.old) first count }
{
    let size = page_words(host);
    let page = first / size;
    let last = first.saturating_add(count.saturating_sub(1)) / size;
    let _ = host.protn(
        page,
        last.saturating_sub(page).saturating_add(1),
        Right::None,
    );
}

// What the laws of a host say of its sizes; it does nothing.
fn sizes_in_range<H: Host>(_host: &H)
    ensures { (16 ≤ (H.meaning _host.now).page_size) × ((H.meaning _host.now).page_size ≤ 256) × ((H.meaning _host.now).page_count ≤ 64) }
{}

/// Words in a page, from 16 to 256.
pub fn page_words<H: Host>(host: &H) -> u32
    ensures value { result ≡ (H.meaning host.now).page_size }
    ensures some { 16 ≤ result }
    ensures few { result ≤ 256 }
{
    sizes_in_range(host);
    host.page_size()
}

/// Pages in a half, at most 32.
pub fn pages_in_half<H: Host>(host: &H) -> u32
    ensures value { result ≡ half_pages (H.meaning host.now) }
    ensures few { result ≤ 32 }
{
    sizes_in_range(host);
    host.page_count() / 2
}
