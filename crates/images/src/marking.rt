ghost use Rattle.std.specs.Prelude.{◌≡◌, ◌+◌, ◌<◌, ◌≤◌, length, if◌then◌else◌};
ghost use Rattle.memory.specs.Memory.{after_prot1};
ghost use Rattle.memory.specs.declared.rights.Right.TheVariants.{Read};
ghost use Rattle.model.specs.Images.{is_used_page, marked};
ghost use Rattle.model.specs.declared.calls.Call.TheVariants as Call;
ghost use Rattle.state.specs.View.{unsaved_view, state_of};
ghost use Rattle.images.specs.Lent.{Writes, done_answer};
ghost use Rattle.images.specs.Marking.{lowered};

use super::buffers::is_short;
use super::preambles::write_preamble;
use layouts::Layout;
use memory::{Host, Refusal, Right};
use model::Phase;
use state::{Plain, page_of_half};
use std::array;
use words::{page_words, pages_in_half};

// Host, layout and state side by side, and a page below 64 as a clause, as in the collector.

// Whether a page of to-space has a word of a copied or of a new object.
fn is_used_page<H: Host>(host: &H, plain: &Plain, page: u32) -> bool
    requires { page < 64 }
    ensures { result ≡ is_used_page (state_of (H.Host.meaning host.now) plain.now) page }
{
    let first = page_of_half(host, plain.half);
    let size = page_words(host);
    let start = page * size;
    first <= page
        && page < first + pages_in_half(host)
        && (start < plain.space.copy_end || plain.new_start < start + size)
}

// The used pages of to-space.
fn used_pages<H: Host>(host: &H, plain: &Plain) -> [bool; 64]
    ensures { unsaved_view result ≡ is_used_page (state_of (H.Host.meaning host.now) plain.now) }
{
    array::from_fn(|page| is_used_page(host, plain, page as u32))
}

// Lowers a page to read, if it is unsaved.
fn lower_page<H: Host>(host: &mut H, page: u32, unsaved: bool)
    ensures { H.Host.meaning host.new ≡ (if unsaved then after_prot1 (H.Host.meaning host.old) page Read else H.Host.meaning host.old) }
{
    if unsaved {
        let _ = host.prot1(page, Right::Read);
    }
}

// Lowers the unsaved pages of a half to read.
fn lower_pages<H: Host>(host: &mut H, unsaved: &[bool; 64], first: u32, count: u32)
    requires { first + count ≤ 64 }
    ensures { H.Host.meaning host.new ≡ lowered (unsaved_view unsaved.now) count (H.Host.meaning host.old) first }
{
    // By their numbers, which the host goes by too.
    for i in 0..count {
        lower_page(host, first + i, unsaved[(first + i) as usize]);
    }
}

// Makes the used pages those to save, and lowers them to read.
fn close_used<H: Host>(host: &mut H, plain: &mut Plain)
    ensures { state_of (H.Host.meaning host.new) plain.new ≡ marked (state_of (H.Host.meaning host.old) plain.old) }
{
    let first = page_of_half(host, plain.half);
    let pages = pages_in_half(host);
    let used = used_pages(host, plain);
    lower_pages(host, &used, first, pages);
    plain.unsaved = used;
    plain.mark_start = plain.new_start;
    plain.phase = Phase::Imaging;
}

/// MARK: begins an image in the buffer.
pub fn mark<H: Host, L: Layout>(
    host: &mut H,
    layout: &L,
    plain: &mut Plain,
    buffer: &mut [u32],
) -> Result<(), Refusal>
    ensures { Writes L.Layout.rules (state_of (H.Host.meaning host.old) plain.old) buffer.old (Call.Mark (length buffer.old)) (state_of (H.Host.meaning host.new) plain.new) buffer.new (done_answer result) }
{
    if is_short(host, buffer) {
        return Err(Refusal::Short);
    }
    let Phase::Idle = plain.phase else {
        return Err(Refusal::Busy);
    };
    write_preamble(host, layout, plain, buffer);
    close_used(host, plain);
    Ok(())
}
