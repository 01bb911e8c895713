ghost use Rattle.std.specs.Prelude.{◌≡◌, ℕ, ◌+◌, ◌≤◌};
ghost use Rattle.model.specs.Forwarding.{crossed, forwarded, new_address, value_forwarded, new_value};
ghost use Rattle.state.specs.View.{held_value, space_view, moving_of};
ghost use Rattle.collector.specs.Moves.{with_crossing, advanced, words_moved};

use layouts::Layout;
use memory::Host;
use state::{FromAddress, Held, Space, ToAddress, object_words};
use words::{close_pages, copy_words, page_words, set_word, word};

// Notes an object's address for each page whose first word is one of its words.
fn note_crossing(space: &mut Space, size: u32, place: u32, words: u32)
    requires { (1 ≤ size) × ((size ≤ 256) × ((1 ≤ words) × (words ≤ 256))) }
    ensures { space_view space.new ≡ with_crossing (space_view space.old) (crossed size (space_view space.old).crossing place words) }
{
    let first = place.saturating_add(size - 1) / size;
    let last = place.saturating_add(words - 1) / size;
    // By its number: `take` and `skip` over the map would hide which pages these are.
    for page in first..last.min(63) + 1 {
        space.crossing[page as usize] = place;
    }
}

// Moves the copy end past an object of so many words that is copied there.
fn advance(space: &mut Space, size: u32, words: u32)
    requires { (1 ≤ size) × ((size ≤ 256) × ((1 ≤ words) × (words ≤ 256))) }
    ensures { space_view space.new ≡ advanced size (space_view space.old) words }
{
    let place = space.copy_end;
    space.copy_end = place.saturating_add(words);
    note_crossing(space, size, place, words);
}

// Copies an object's words, leaves a forwarding word in place of its header, and lowers the pages of the copy to none.
fn move_words<H: Host>(host: &mut H, old: u32, place: u32, words: u32)
    ensures { H.Host.meaning host.new ≡ words_moved (H.Host.meaning host.old) old place words }
{
    copy_words(host, old, place, words);
    set_word(host, old, place.saturating_add(place));
    close_pages(host, place, words);
}

/// Forwards an object: its new address. An object that was not forwarded moves to the copy end.
pub fn forward<H: Host, L: Layout>(
    host: &mut H,
    layout: &L,
    space: &mut Space,
    old: FromAddress,
) -> ToAddress
    ensures after { moving_of (H.Host.meaning host.new) space.new ≡ forwarded L.Layout.rules (moving_of (H.Host.meaning host.old) space.old) old.0 }
    ensures address { result.0 ≡ new_address (moving_of (H.Host.meaning host.old) space.old) old.0 }
{
    let header = word(host, old.0);
    if header % 2 == 0 {
        return ToAddress(header / 2);
    }
    let place = space.copy_end;
    let words = object_words(layout, header);
    let size = page_words(host);
    move_words(host, old.0, place, words);
    advance(space, size, words);
    ToAddress(place)
}

/// Forwards what a register holds.
pub fn forward_held<H: Host, L: Layout>(
    host: &mut H,
    layout: &L,
    space: &mut Space,
    held: Held,
) -> Held
    ensures after { moving_of (H.Host.meaning host.new) space.new ≡ value_forwarded L.Layout.rules (moving_of (H.Host.meaning host.old) space.old) (held_value held) }
    ensures value { held_value result ≡ new_value (moving_of (H.Host.meaning host.old) space.old) (held_value held) }
{
    match held {
        Held::Reference(old) => {
            let place = forward(host, layout, space, FromAddress(old.0));
            Held::Reference(place)
        }
        Held::Nil | Held::Number(_) => held,
    }
}
