ghost use Rattle.std.specs.Prelude.{◌≡◌, ℕ, ◌<◌, cond};
ghost use Rattle.memory.specs.Memory.{after_unprot};
ghost use Rattle.memory.specs.declared.rights.Right.TheVariants.{All};
ghost use Rattle.model.specs.Heap.{moving, with_memory, with_moving, with_unscanned};
ghost use Rattle.model.specs.Outcomes.{outcome};
ghost use Rattle.model.specs.Scanning.{scan_head, page_run, page_scanned, page_counts, has_unscanned, lowest_unscanned};
ghost use Rattle.model.specs.Collecting.{step, step_left, finished};
ghost use Rattle.model.specs.declared.calls.Answer.TheVariants as Answer;
ghost use Rattle.state.specs.View.{state_of};
ghost use Rattle.collector.specs.Steps.{Few, has_ended, scanned_if, counts_if};

use super::scanning::scan_words;
use layouts::Layout;
use memory::{Host, Right};
use model::Phase;
use state::{Plain, page_of_half};
use words::{open_pages, page_words, pages_in_half};

/// Whether a collection goes on.
#[derive(Clone, Copy, Debug, PartialEq, Eq)]
pub enum Progress {
    Going = 0,
    Ended = 1,
}

// Whether a page of to-space has an unscanned word.
fn is_unscanned<H: Host>(host: &H, plain: &Plain, page: u32) -> bool
    ensures { result ≡ has_unscanned (state_of (H.Host.meaning host.now) plain.now) page }
{
    let size = page_words(host);
    page < 64
        && page_of_half(host, plain.half) <= page
        && plain.unscanned[page as usize] < (page * size + size).min(plain.space.copy_end)
}

// The lowest page of to-space with an unscanned word.
fn lowest_page<H: Host>(host: &H, plain: &Plain) -> Option<u32>
    ensures value { result ≡ lowest_unscanned (state_of (H.Host.meaning host.now) plain.now) }
    ensures few { Few result }
{
    let first = page_of_half(host, plain.half);
    let stop = first + pages_in_half(host);
    (first..stop).find(|&page| is_unscanned(host, plain, page))
}

// That a page is below 64 is asked as a clause. Pages come from a search over a host's, and a type for them would be made by a
// test that never fails.

// Where the object with the first unscanned word of a page begins.
fn head_of_scan<H: Host>(host: &H, plain: &Plain, page: u32) -> u32
    requires { page < 64 }
    ensures { result ≡ scan_head (state_of (H.Host.meaning host.now) plain.now) page }
{
    let first = plain.unscanned[page as usize];
    if first == page * page_words(host) {
        plain.space.crossing[page as usize]
    } else {
        first
    }
}

// Scans the unscanned words of a page: where that ends.
fn scan_run<H: Host, L: Layout>(host: &mut H, layout: &L, plain: &mut Plain, page: u32) -> u32
    requires { page < 64 }
    ensures run { (moving (state_of (H.Host.meaning host.new) plain.new), result) ≡ page_run L.Layout.rules (state_of (H.Host.meaning host.old) plain.old) page }
    ensures after { state_of (H.Host.meaning host.new) plain.new ≡ with_moving (state_of (H.Host.meaning host.old) plain.old) (page_run L.Layout.rules (state_of (H.Host.meaning host.old) plain.old) page).0 }
{
    let size = page_words(host);
    let first = plain.unscanned[page as usize];
    let head = head_of_scan(host, plain, page);
    scan_words(
        host,
        layout,
        &mut plain.space,
        head,
        first,
        page * size + size,
    )
}

// Moves the first unscanned word of a page on, and raises the page to all.
fn open_page<H: Host>(host: &mut H, plain: &mut Plain, page: u32, at: u32)
    requires { page < 64 }
    ensures { state_of (H.Host.meaning host.new) plain.new ≡ with_memory (with_unscanned (state_of (H.Host.meaning host.old) plain.old) page at) (after_unprot (H.Host.meaning host.old) page All) }
{
    plain.unscanned[page as usize] = at;
    let _ = host.unprot(page, Right::All);
}

// Scans a page and opens it: the words scanned and the words copied.
fn scan_page<H: Host, L: Layout>(
    host: &mut H,
    layout: &L,
    plain: &mut Plain,
    page: u32,
) -> (u32, u32)
    requires { page < 64 }
    ensures after { state_of (H.Host.meaning host.new) plain.new ≡ page_scanned L.Layout.rules (state_of (H.Host.meaning host.old) plain.old) page }
    ensures counts { result ≡ page_counts L.Layout.rules (state_of (H.Host.meaning host.old) plain.old) page }
{
    let first = plain.unscanned[page as usize];
    let before = plain.space.copy_end;
    let left = scan_run(host, layout, plain, page);
    let copied = plain.space.copy_end.saturating_sub(before);
    open_page(host, plain, page, left);
    (left.saturating_sub(first), copied)
}

/// Scans a page if it has an unscanned word: the words scanned and the words copied.
pub fn scan_if_unscanned<H: Host, L: Layout>(
    host: &mut H,
    layout: &L,
    plain: &mut Plain,
    page: u32,
) -> (u32, u32)
    ensures after { state_of (H.Host.meaning host.new) plain.new ≡ scanned_if L.Layout.rules (state_of (H.Host.meaning host.old) plain.old) page }
    ensures counts { result ≡ counts_if L.Layout.rules (state_of (H.Host.meaning host.old) plain.old) page }
{
    if is_unscanned(host, plain, page) {
        scan_page(host, layout, plain, page)
    } else {
        (0, 0)
    }
}

// Opens to-space and ends the collection.
fn finish<H: Host>(host: &mut H, plain: &mut Plain)
    ensures { state_of (H.Host.meaning host.new) plain.new ≡ finished (state_of (H.Host.meaning host.old) plain.old) }
{
    let first = page_of_half(host, plain.half);
    let pages = pages_in_half(host);
    open_pages(host, first, pages);
    plain.phase = Phase::Idle;
}

// Ends the collection if no page is left unscanned.
fn finish_if_scanned<H: Host>(host: &mut H, plain: &mut Plain) -> Progress
    ensures { (counts : ℕ × ℕ) → step_left (state_of (H.Host.meaning host.old) plain.old) counts (lowest_unscanned (state_of (H.Host.meaning host.old) plain.old)) ≡ outcome (state_of (H.Host.meaning host.new) plain.new) (Answer.Stepped (has_ended result) counts.0 counts.1) }
{
    if lowest_page(host, plain).is_some() {
        return Progress::Going;
    }
    finish(host, plain);
    Progress::Ended
}

/// Scans the lowest page with unscanned words, if there is one, and ends the collection if none is left then: whether it
/// ended, the words scanned and the words copied.
pub fn step_collection<H: Host, L: Layout>(
    host: &mut H,
    layout: &L,
    plain: &mut Plain,
) -> (Progress, (u32, u32))
    ensures { step L.Layout.rules (state_of (H.Host.meaning host.old) plain.old) ≡ outcome (state_of (H.Host.meaning host.new) plain.new) (Answer.Stepped (has_ended result.0) result.1.0 result.1.1) }
{
    let counts = match lowest_page(host, plain) {
        Some(page) => scan_page(host, layout, plain, page),
        None => (0, 0),
    };
    (finish_if_scanned(host, plain), counts)
}
