use super::differences::{Difference, Stop, differ};
use super::expected::{Expected, Phase};
use super::watching::Watch;
use memory::Host;
use std::alloc::{AllocError, Global};

/// What a page allows.
#[derive(Clone, Copy, PartialEq, Eq)]
pub enum Right {
    None = 0,
    Read = 1,
    All = 2,
}

// The right of the page of an address, found by reading and writing there.
fn right_of<H: Host>(host: &mut H, a: u32) -> Right {
    let Ok(word) = host.look(a) else {
        return Right::None;
    };
    match host.put(a, word) {
        Ok(()) => Right::All,
        Err(_) => Right::Read,
    }
}

fn word_of<H: Host>(host: &mut H, a: u32) -> u32 {
    host.see(a).unwrap_or(0)
}

// Marks the pages on which an object has a slot that refers to the half that is left. The words of the object.
fn mark_stale<H: Host>(host: &mut H, expected: &Expected, stale: &mut [bool], a: u32) -> u32 {
    let size = expected.sizes.page.max(1);
    let header = word_of(host, a);
    let slots = expected.packing.slots(header).min(255);
    for slot in 0..slots {
        let at = a.saturating_add(slot).saturating_add(1);
        let word = word_of(host, at);
        if let Some(address) = expected.packing.reference(header, slot, word) {
            let upper = address >= expected.sizes.half();
            if let Some(page) = stale.get_mut((at / size) as usize) {
                *page |= upper != expected.ledger.upper;
            }
        }
    }
    slots.saturating_add(1)
}

// Of each page, whether it has a slot that refers to the half that is left.
fn stale_pages<H: Host>(
    host: &mut H,
    heap: Global,
    expected: &Expected,
    copied: u32,
) -> Result<Vec<bool>, AllocError> {
    let mut stale = vec![in heap; false; expected.sizes.pages() as usize]?;
    if !expected.ledger.is_collecting() {
        return Ok(stale);
    }
    let mut a = expected.first_word();
    let stop = a.saturating_add(copied);
    // As often as an object may begin in these words, for each has one or more.
    for _ in 0..copied {
        if a >= stop {
            break;
        }
        let words = mark_stale(host, expected, stale.as_mut_slice(), a);
        a = a.saturating_add(words);
    }
    Ok(stale)
}

// The right that a page of to-space, counted from its first, must have in a collection; none if it may be none or all.
fn collecting_right(expected: &Expected, watch: &Watch, stale: bool, inside: u32) -> Option<Right> {
    let sizes = expected.sizes;
    if inside >= sizes.pages_for(expected.ledger.used) {
        return Some(Right::All);
    }
    (stale || inside >= sizes.pages_for(watch.copied())).then_some(Right::None)
}

// Compares the right of a page.
fn check_right(
    expected: &Expected,
    watch: &Watch,
    stale: bool,
    page: u32,
    found: Right,
) -> Result<(), Difference> {
    let Some(inside) = expected.inside(page) else {
        return differ("the right of a page of from-space", Right::None, found);
    };
    match expected.ledger.phase {
        Phase::Idle => differ("the right of a page when idle", Right::All, found),
        Phase::Imaging if watch.is_unsaved(inside) => {
            differ("the right of an unsaved page", Right::Read, found)
        }
        Phase::Imaging => differ(
            "the right of a page with nothing to save",
            Right::All,
            found,
        ),
        Phase::Collecting => match collecting_right(expected, watch, stale, inside) {
            Some(right) => differ("the right of a page in a collection", right, found),
            None if found == Right::Read => {
                differ("the right of a copy page", Right::None, found)
            }
            None => Ok(()),
        },
    }
}

/// Compares the rights of all pages.
pub fn check_rights<H: Host>(
    host: &mut H,
    heap: Global,
    expected: &Expected,
    watch: &Watch,
) -> Result<(), Stop> {
    let stale = stale_pages(host, heap, expected, watch.copied())?;
    for (page, is_stale) in (0..expected.sizes.pages()).zip(stale.iter()) {
        let found = right_of(host, page.saturating_mul(expected.sizes.page));
        check_right(expected, watch, *is_stale, page, found)?;
    }
    Ok(())
}

/// Compares the unused words with 0, if no FLIP left others there.
pub fn check_unused<H: Host>(
    host: &mut H,
    expected: &Expected,
    watch: &Watch,
) -> Result<(), Difference> {
    if watch.moved {
        return Ok(());
    }
    let half = expected.sizes.half();
    let start = expected.first_word();
    let copy_end = start.saturating_add(expected.ledger.copied);
    let new_start = start.saturating_add(expected.new_start());
    for a in 0..half.saturating_mul(2) {
        let used = start <= a && (a < copy_end || new_start <= a) && a < start.saturating_add(half);
        if !used {
            differ("an unused word", 0, word_of(host, a))?;
        }
    }
    Ok(())
}
