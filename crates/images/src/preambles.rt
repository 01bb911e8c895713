ghost use Rattle.std.specs.Prelude.{◌≡◌, ◌+◌, ◌-◌, ◌/◌, ◌<◌, ◌≤◌, length};
ghost use Rattle.model.specs.Heap.{copied_words, new_words};
ghost use Rattle.model.specs.Images.{image_words, kind_number, payload, register_word, preamble, marked_buffer};
ghost use Rattle.state.specs.View.{held_value, register_view, state_of};
ghost use Rattle.images.specs.Lent.{Rewritten};

use super::buffers::{image_words, write_word};
use layouts::Layout;
use memory::Host;
use state::{Held, Mutator, Plain, start_of_half, words_in_half};
use words::pages_in_half;

// The kind of what a register holds, in an image. It and the payload are functions, since a `u32` made by `From` would not say
// which of the two it is.
fn kind_number(held: Held) -> u32
    ensures { result ≡ kind_number (held_value held) }
{
    match held {
        Held::Nil => 0,
        Held::Number(_) => 1,
        Held::Reference(_) => 2,
    }
}

// The number or the address that a register holds; 0 for nil.
fn payload_of(held: Held) -> u32
    ensures { result ≡ payload (held_value held) }
{
    match held {
        Held::Nil => 0,
        Held::Number(n) => n,
        Held::Reference(place) => place.0,
    }
}

// A word of an image that is for a register: two words each, the mutators one after the other.
fn register_word(mutators: &[Mutator; 4], j: u32) -> u32
    requires { (6 ≤ j) × (j < 70) }
    ensures { result ≡ register_word (register_view mutators.now ((j - 6) / 2)) j }
{
    let k = (j - 6) / 2;
    let held = mutators[(k / 8) as usize].registers[(k % 8) as usize];
    if j % 2 == 0 {
        kind_number(held)
    } else {
        payload_of(held)
    }
}

// The words of the copied objects.
fn copied_words<H: Host>(host: &H, plain: &Plain) -> u32
    ensures { result ≡ copied_words (state_of (H.Host.meaning host.now) plain.now) }
{
    plain
        .space
        .copy_end
        .saturating_sub(start_of_half(host, plain.half))
}

// The words of the new objects.
fn new_words<H: Host>(host: &H, plain: &Plain) -> u32
    ensures { result ≡ new_words (state_of (H.Host.meaning host.now) plain.now) }
{
    let stop = start_of_half(host, plain.half) + words_in_half(host);
    stop.saturating_sub(plain.new_start)
}

// A word of an image that has no word of to-space yet: 0 for not sealed; the pages of a half; the layout's number; the half;
// the copied words; the new words; the registers.
fn preamble_word<H: Host, L: Layout>(host: &H, layout: &L, plain: &Plain, j: u32) -> u32
    ensures { result ≡ preamble L.Layout.rules (state_of (H.Host.meaning host.now) plain.now) j }
{
    match j {
        1 => pages_in_half(host),
        2 => layout.number(),
        3 => u32::from(plain.half),
        4 => copied_words(host, plain),
        5 => new_words(host, plain),
        6..=69 => register_word(&plain.mutators, j),
        _ => 0,
    }
}

/// Begins an image: its preamble, and every other word 0.
pub(crate) fn write_preamble<H: Host, L: Layout>(
    host: &H,
    layout: &L,
    plain: &Plain,
    buffer: &mut [u32],
)
    requires { image_words (H.Host.meaning host.now) ≤ length buffer.old }
    ensures { Rewritten (marked_buffer L.Layout.rules (state_of (H.Host.meaning host.now) plain.now)) buffer.old buffer.new }
{
    // By their numbers, which tell what each word is.
    for j in 0..image_words(host) {
        let word = preamble_word(host, layout, plain, j);
        write_word(buffer, j, word);
    }
}
