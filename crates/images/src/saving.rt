ghost use Rattle.std.specs.Prelude.{◌≡◌, ℕ, ◌+◌, ◌-◌, ◌*◌, ◌<◌, ◌≤◌, min, true, length};
ghost use Rattle.memory.specs.Memory.{changed};
ghost use Rattle.model.specs.Heap.{with_phase};
ghost use Rattle.model.specs.Scanning.{lowest};
ghost use Rattle.model.specs.Outcomes.{outcome};
ghost use Rattle.model.specs.Images.{image_words, saved_buffer, lowest_unsaved, save_left};
ghost use Rattle.model.specs.declared.calls.Answer.TheVariants as Answers;
ghost use Rattle.model.specs.declared.calls.Call.TheVariants as Call;
ghost use Rattle.model.specs.declared.states.Phase.TheVariants.{Idle};
ghost use Rattle.state.specs.View.{unsaved_view, state_of};
ghost use Rattle.images.specs.Lent.{machine, Rewritten, Writes, SavesPage, is_sealed, save_answer};
ghost use Rattle.images.specs.Saving.{is_none, imaged_of, has_word, HoldsWord, word_saved, words_saved, page_reopened, next_saved, Few};

use super::buffers::{PREAMBLE_WORDS, is_short, write_word};
use layouts::Layout;
use memory::{Host, Refusal, Right};
use model::{Answer, Phase};
use state::{Plain, page_of_half, start_of_half, words_in_half};
use words::{page_words, pages_in_half, word};

/// Whether a SAVE sealed the image, or another is due.
#[derive(Clone, Copy, Debug, PartialEq, Eq)]
pub enum Seal {
    /// A page is left to save.
    Going = 0,
    /// The image is whole.
    Sealed = 1,
}

/// The answer of a SAVE.
impl From<Seal> for Answer {
    ghost use Rattle.std.specs.Prelude.{Ok};
    ghost use Rattle.images.specs.Lent.{save_answer};

    ghost from_gives = { λ seal answer. answer ≡ save_answer (Ok seal) };

    fn from(seal: Seal) -> Answer {
        Answer::Saved(seal == Seal::Sealed)
    }
}

// Not the outline of an image that is restored, which says how its four numbers lie: a heap's state does not say that here.

// Which words of to-space an image has: where to-space begins, its words, and the gap between the copied and the new ones.
#[derive(Clone, Copy)]
struct Imaged {
    start: u32,
    words: u32,
    copy_end: u32,
    mark_start: u32,
}

// Which words of to-space the image in progress has.
fn image_part<H: Host>(host: &H, plain: &Plain) -> Imaged
    ensures value { result ≡ imaged_of (state_of (H.Host.meaning host.now) plain.now) }
    ensures few { result.words ≤ 8192 }
{
    Imaged {
        start: start_of_half(host, plain.half),
        words: words_in_half(host),
        copy_end: plain.space.copy_end,
        mark_start: plain.mark_start,
    }
}

// Whether the image has the word at an address.
fn has_word(of: Imaged, a: u32) -> bool
    ensures { result ≡ has_word of a }
{
    of.start <= a && a - of.start < of.words && (a < of.copy_end || of.mark_start <= a)
}

// The word at an address, if the image has it.
fn image_word<H: Host>(host: &mut H, of: Imaged, a: u32) -> Option<u32>
    ensures value { HoldsWord (H.Host.meaning host.old) of a result }
    ensures after { H.Host.meaning host.new ≡ H.Host.meaning host.old }
{
    if has_word(of, a) {
        Some(word(host, a))
    } else {
        None
    }
}

// That the buffer has an image's words is a fact of host and buffer together, so a clause says it, and no type.

// Saves the word at an address, if the image has it.
fn save_word<H: Host>(host: &mut H, buffer: &mut [u32], of: Imaged, a: u32)
    requires { (of.words ≤ 8192) × (70 + of.words ≤ length buffer.old) }
    ensures saved { Rewritten (word_saved (H.Host.meaning host.old) of a) buffer.old buffer.new }
    ensures after { H.Host.meaning host.new ≡ H.Host.meaning host.old }
{
    if let Some(saved) = image_word(host, of, a) {
        write_word(buffer, PREAMBLE_WORDS + (a - of.start), saved);
    }
}

// Saves the words of a page that the image has.
fn save_words<H: Host>(host: &mut H, buffer: &mut [u32], of: Imaged, page: u32)
    requires { (page < 64) × ((of.words ≤ 8192) × (70 + of.words ≤ length buffer.old)) }
    ensures saved { Rewritten (words_saved (H.Host.meaning host.old).page_size (H.Host.meaning host.old) of (page * (H.Host.meaning host.old).page_size)) buffer.old buffer.new }
    ensures after { H.Host.meaning host.new ≡ H.Host.meaning host.old }
{
    let size = page_words(host);
    let start = page * size;
    for i in 0..size {
        save_word(host, buffer, of, start + i);
    }
}

// Saves a page: its words that were used at MARK go to the image, and the page may be written again.
fn save_page<H: Host>(host: &mut H, plain: &mut Plain, buffer: &mut [u32], page: u32)
    requires { (page < 64) × (image_words (H.Host.meaning host.old) ≤ length buffer.old) }
    ensures after { state_of (H.Host.meaning host.new) plain.new ≡ page_reopened (state_of (H.Host.meaning host.old) plain.old) page }
    ensures size { image_words (H.Host.meaning host.new) ≡ image_words (H.Host.meaning host.old) }
    ensures saved { Rewritten (saved_buffer (state_of (H.Host.meaning host.old) plain.old) page) buffer.old buffer.new }
{
    let of = image_part(host, plain);
    save_words(host, buffer, of, page);
    let _ = host.unprot(page, Right::All);
    plain.unsaved[page as usize] = false;
}

// Whether the image in progress has yet to save a page; a page above 63 is none.
fn is_unsaved(unsaved: &[bool; 64], page: u32) -> bool
    ensures value { result ≡ unsaved_view unsaved.now page }
    ensures few { result ≡ true → page < 64 }
{
    page < 64 && unsaved[page as usize]
}

/// Saves a page, if the image in progress has yet to save it.
pub fn save_if_unsaved<H: Host>(
    host: &mut H,
    plain: &mut Plain,
    buffer: &mut [u32],
    page: u32,
) -> Result<(), Refusal>
    ensures { SavesPage (H.Host.meaning host.old) plain.old buffer.old page (H.Host.meaning host.new) plain.new buffer.new result }
{
    if is_short(host, buffer) {
        return Err(Refusal::Short);
    }
    if is_unsaved(&plain.unsaved, page) {
        save_page(host, plain, buffer, page);
    }
    Ok(())
}

/// The lowest unsaved page from one page on up to another; there is none above 63.
pub fn lowest_unsaved(unsaved: &[bool; 64], first: u32, stop: u32) -> Option<u32>
    ensures value { result ≡ lowest (min stop 64 - first) first (unsaved_view unsaved.now) }
    ensures few { Few result }
{
    (first..stop.min(64)).find(|&page| unsaved[page as usize])
}

// The lowest page that the image in progress has yet to save.
fn next_page<H: Host>(host: &H, plain: &Plain) -> Option<u32>
    ensures value { result ≡ lowest_unsaved (state_of (H.Host.meaning host.now) plain.now) }
    ensures few { Few result }
{
    let first = page_of_half(host, plain.half);
    lowest_unsaved(&plain.unsaved, first, first + pages_in_half(host))
}

// Whether the image in progress has every page.
fn all_saved<H: Host>(host: &H, plain: &Plain) -> bool
    ensures { result ≡ is_none (lowest_unsaved (state_of (H.Host.meaning host.now) plain.now)) }
{
    next_page(host, plain).is_none()
}

// Seals the image: its first word is the page size.
fn seal_image<H: Host>(host: &H, plain: &mut Plain, buffer: &mut [u32])
    requires { image_words (H.Host.meaning host.now) ≤ length buffer.old }
    ensures after { state_of (H.Host.meaning host.now) plain.new ≡ with_phase (state_of (H.Host.meaning host.now) plain.old) Idle }
    ensures sealed { Rewritten (λ b. changed b 0 (H.Host.meaning host.now).page_size) buffer.old buffer.new }
{
    write_word(buffer, 0, page_words(host));
    plain.phase = Phase::Idle;
}

// Seals the image if every page is saved.
fn seal_if_saved<H: Host>(host: &H, plain: &mut Plain, buffer: &mut [u32]) -> Seal
    requires { image_words (H.Host.meaning host.now) ≤ length buffer.old }
    ensures { (b : ℕ → ℕ) → save_left (machine (state_of (H.Host.meaning host.now) plain.old) buffer.old b) (lowest_unsaved (state_of (H.Host.meaning host.now) plain.old)) ≡ outcome (machine (state_of (H.Host.meaning host.now) plain.new) buffer.new b) (Answers.Saved (is_sealed result)) }
{
    if !all_saved(host, plain) {
        return Seal::Going;
    }
    seal_image(host, plain, buffer);
    Seal::Sealed
}

// Saves the lowest page that the image in progress has yet to save, if there is one.
fn save_next_page<H: Host>(host: &mut H, plain: &mut Plain, buffer: &mut [u32])
    requires { image_words (H.Host.meaning host.old) ≤ length buffer.old }
    ensures saved { (b : ℕ → ℕ) → machine (state_of (H.Host.meaning host.new) plain.new) buffer.new b ≡ next_saved (machine (state_of (H.Host.meaning host.old) plain.old) buffer.old b) (lowest_unsaved (state_of (H.Host.meaning host.old) plain.old)) }
    ensures size { image_words (H.Host.meaning host.new) ≡ image_words (H.Host.meaning host.old) }
{
    if let Some(page) = next_page(host, plain) {
        save_page(host, plain, buffer, page);
    }
}

/// SAVE: saves the lowest page that the image in progress has yet to save; behind the last one, the image is sealed.
pub fn save<H: Host, L: Layout>(
    host: &mut H,
    _layout: &L,
    plain: &mut Plain,
    buffer: &mut [u32],
) -> Result<Seal, Refusal>
    ensures { Writes L.Layout.rules (state_of (H.Host.meaning host.old) plain.old) buffer.old (Call.Save (length buffer.old)) (state_of (H.Host.meaning host.new) plain.new) buffer.new (save_answer result) }
{
    if is_short(host, buffer) {
        return Err(Refusal::Short);
    }
    let Phase::Imaging = plain.phase else {
        return Err(Refusal::Nothing);
    };
    save_next_page(host, plain, buffer);
    Ok(seal_if_saved(host, plain, buffer))
}
