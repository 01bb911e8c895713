ghost use Rattle.std.specs.Prelude.{◌≡◌, ℕ, ◌-◌, ◌≤◌};
ghost use Rattle.model.specs.Collecting.{flipped_memory, words_used, swapped, roots_of, with_roots, flipped};
ghost use Rattle.model.specs.Forwarding.{roots_forwarded};
ghost use Rattle.state.specs.View.{unscanned_view, state_of};
ghost use Rattle.collector.specs.Starts.{starts_view};

use super::root_pass::forward_roots;
use layouts::Layout;
use memory::{Host, Right};
use model::Phase;
use state::{Plain, other, page_of_half, pages_for, start_of_half, words_in_half};
use std::array;
use words::{open_pages, page_words, pages_in_half};

// Each page's first word.
fn page_starts(size: u32) -> [u32; 64]
    requires { size ≤ 256 }
    ensures { unscanned_view result ≡ starts_view size }
{
    array::from_fn(|page| page as u32 * size)
}

// Lowers a half and the first pages of the other one to none, and raises the rest of that to all.
fn turn_pages<H: Host>(host: &mut H, old: u32, new: u32, closed: u32)
    requires { (new ≤ 32) × (closed ≤ 32) }
    ensures { H.Host.meaning host.new ≡ flipped_memory (H.Host.meaning host.old) old new closed }
{
    let pages = pages_in_half(host);
    let _ = host.protn(old, pages, Right::None);
    let _ = host.protn(new, closed, Right::None);
    open_pages(host, new + closed, pages.saturating_sub(closed));
}

// The words of copied and of new objects.
fn words_in_use<H: Host>(host: &H, plain: &Plain) -> u32
    ensures { result ≡ words_used (state_of (H.Host.meaning host.now) plain.now) }
{
    let start = start_of_half(host, plain.half);
    let stop = start + words_in_half(host);
    plain
        .space
        .copy_end
        .saturating_sub(start)
        .saturating_add(stop.saturating_sub(plain.new_start))
}

// Swaps the halves. Nothing is forwarded yet.
fn swap_halves<H: Host>(host: &mut H, plain: &mut Plain)
    ensures { state_of (H.Host.meaning host.new) plain.new ≡ swapped (state_of (H.Host.meaning host.old) plain.old) }
{
    let size = page_words(host);
    let half = other(plain.half);
    let old = page_of_half(host, plain.half);
    let new = page_of_half(host, half);
    let start = start_of_half(host, half);
    let stop = start + words_in_half(host);
    let used = words_in_use(host, plain);
    let closed = pages_for(host, used);
    turn_pages(host, old, new, closed);
    plain.unscanned = page_starts(size);
    plain.space.copy_end = start;
    plain.half = half;
    plain.new_start = stop;
    plain.flip_used = used;
    plain.phase = Phase::Collecting;
}

// Forwards the references in the registers.
fn forward_registers<H: Host, L: Layout>(host: &mut H, layout: &L, plain: &mut Plain)
    ensures { state_of (H.Host.meaning host.new) plain.new ≡ with_roots (state_of (H.Host.meaning host.old) plain.old) (roots_forwarded L.Layout.rules (roots_of (state_of (H.Host.meaning host.old) plain.old)) 32) }
{
    forward_roots(host, layout, &mut plain.space, &mut plain.mutators);
}

// Host, layout and state are lent side by side. As one struct, each contract would have to say that the layout stays.

/// Begins a collection: swaps the halves and forwards the references in the registers. The words copied.
pub fn begin_collection<H: Host, L: Layout>(host: &mut H, layout: &L, plain: &mut Plain) -> u32
    ensures after { state_of (H.Host.meaning host.new) plain.new ≡ flipped L.Layout.rules (state_of (H.Host.meaning host.old) plain.old) }
    ensures copied { result ≡ (flipped L.Layout.rules (state_of (H.Host.meaning host.old) plain.old)).space.copy_end - (swapped (state_of (H.Host.meaning host.old) plain.old)).space.copy_end }
{
    swap_halves(host, plain);
    let start = plain.space.copy_end;
    forward_registers(host, layout, plain);
    plain.space.copy_end.saturating_sub(start)
}
