ghost use Rattle.std.specs.Prelude.{◌≡◌, ℕ, ◌-◌, ◌&&◌, nat_lt};
ghost use Rattle.model.specs.Objects.{packed_word};
ghost use Rattle.model.specs.Scanning.{slot_scanned, word_scanned, head_at, run_scanned};
ghost use Rattle.state.specs.View.{space_view, moving_of};

use super::forwarding::forward;
use layouts::{Layout, Value};
use memory::Host;
use state::{FromAddress, Space, object_words};
use words::{set_word, word};

/// The word of a value in a slot, 0 where it is not admitted.
pub fn packed_word<L: Layout>(layout: &L, header: u32, slot: u32, value: Value) -> u32
    ensures { result ≡ packed_word L.Layout.rules header slot value }
{
    layout.pack(header, slot, value).unwrap_or(0)
}

// The address of the header of the object with this word, given that of the word before.
fn head_of<H: Host, L: Layout>(host: &mut H, layout: &L, head: u32, at: u32) -> u32
    ensures value { result ≡ head_at L.Layout.rules (H.Host.meaning host.old) head at }
    ensures after { H.Host.meaning host.new ≡ H.Host.meaning host.old }
{
    let header = word(host, head);
    if at.saturating_sub(head) == object_words(layout, header) {
        at
    } else {
        head
    }
}

// Scans a slot: a reference becomes that to the forwarded object.
fn scan_slot<H: Host, L: Layout>(
    host: &mut H,
    layout: &L,
    space: &mut Space,
    header: u32,
    slot: u32,
    at: u32,
    value: Value,
)
    ensures { moving_of (H.Host.meaning host.new) space.new ≡ slot_scanned L.Layout.rules (moving_of (H.Host.meaning host.old) space.old) header slot at value }
{
    if let Value::Reference(old) = value {
        let place = forward(host, layout, space, FromAddress(old));
        let scanned = packed_word(layout, header, slot, Value::Reference(place.0));
        set_word(host, at, scanned);
    }
}

// Scans a word, given the address of its object's header.
fn scan_word<H: Host, L: Layout>(host: &mut H, layout: &L, space: &mut Space, head: u32, at: u32)
    ensures { moving_of (H.Host.meaning host.new) space.new ≡ word_scanned L.Layout.rules (moving_of (H.Host.meaning host.old) space.old) head at }
{
    if at == head {
        return;
    }
    let header = word(host, head);
    let slot = at.saturating_sub(head).saturating_sub(1);
    let unscanned = word(host, at);
    let value = layout.unpack(header, slot, unscanned);
    scan_slot(host, layout, space, header, slot, at, value);
}

// Whether the word at an address lies before a stop and before the copy end.
fn is_copied(at: u32, stop: u32, space: &Space) -> bool
    ensures { result ≡ (nat_lt at stop && nat_lt at (space_view space.now).copy_end) }
{
    at < stop && at < space.copy_end
}

/// Scans the words from an address on, up to a stop or the copy end, which forwarding moves meanwhile: where that ends. The
/// header of the object with the first of them, or with the word before it, lies at `head`.
pub fn scan_words<H: Host, L: Layout>(
    host: &mut H,
    layout: &L,
    space: &mut Space,
    head: u32,
    from: u32,
    stop: u32,
) -> u32
    ensures { (moving_of (H.Host.meaning host.new) space.new, result) ≡ run_scanned L.Layout.rules (stop - from) stop (moving_of (H.Host.meaning host.old) space.old) head from }
{
    // Not `for`: where the words end moves as they are scanned.
    let mut object = head;
    let mut at = from;
    'run: while is_copied(at, stop, space) {
        object = head_of(host, layout, object, at);
        scan_word(host, layout, space, object, at);
        at += 1;
    }
    at
}
