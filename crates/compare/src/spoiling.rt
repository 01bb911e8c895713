use super::calls::{Reason, Refused};
use super::differences::{Difference, Stop, differ};
use super::hosts::Fresh;
use super::imaging::Image;
use super::objects::Item;
use super::tallying::Tally;
use check_host::CheckHost;
use heap::Heap;
use layouts::Layout;
use memory::{Host, Rejected};
use std::alloc::{AllocError, Global};

// A word to be written over one of an image, and what the image must then be refused with.
#[derive(Clone, Copy)]
struct Change {
    at: u32,
    word: u32,
    refused: Refused,
}

// A change that makes an image one of another size or layout.
fn other(at: u32, word: u32) -> Change {
    Change {
        at,
        word,
        refused: Refused::from(Reason::OtherImage),
    }
}

// A change that leaves no image.
fn bad(at: u32, word: u32) -> Change {
    Change {
        at,
        word,
        refused: Refused::from(Reason::BadImage),
    }
}

impl<'a> Image<'a> {
    // Changes that make every image another one or a bad one.
    fn plain_changes(&self) -> [Change; 11] {
        let sizes = self.expected.sizes;
        let ledger = &self.expected.ledger;
        let other_page = if sizes.page == 16 { 32 } else { 16 };
        [
            bad(0, 0),
            other(0, other_page),
            other(1, sizes.half_pages.saturating_add(1)),
            other(2, self.expected.packing.other().number()),
            other(2, 0),
            bad(3, 2),
            bad(4, self.expected.new_start().saturating_add(1)),
            bad(4, ledger.copied.saturating_add(1)),
            bad(5, u32::MAX),
            bad(6, 3),
            bad(68, 4294967295),
        ]
    }

    // Headers made even, unused words that are not 0, and a new object cut.
    fn push_word_changes(&self, changes: &mut Vec<Change>) -> Result<(), AllocError> {
        let copied = self.expected.ledger.copied;
        let fresh = self.expected.ledger.fresh;
        let new_start = self.expected.new_start();
        if copied > 0 {
            changes.push(bad(70, self.word(70).saturating_sub(1)))?;
        }
        if fresh > 0 {
            let header = self.word_at(new_start);
            changes.push(bad(new_start.saturating_add(70), header.saturating_sub(1)))?;
            changes.push(bad(5, fresh.saturating_sub(1)))?;
        }
        if copied < new_start {
            changes.push(bad(copied.saturating_add(70), 1))?;
            changes.push(bad(new_start.saturating_add(69), 2147483648))?;
        }
        Ok(())
    }

    // References of registers into the middle of an object and to the other half, and nils with a payload.
    fn push_register_changes(&self, changes: &mut Vec<Change>) -> Result<(), AllocError> {
        let half = self.expected.sizes.half();
        for (k, item) in (0..32u32).zip(self.expected.ledger.registers.iter()) {
            let at = k.saturating_mul(2).saturating_add(7);
            let payload = self.word(at);
            match *item {
                Item::Nil => changes.push(bad(at, 1))?,
                Item::Number(_) => {}
                Item::Object(object) => {
                    if self.expected.objects.shape(object).slots > 0 {
                        changes.push(bad(at, payload.saturating_add(1)))?;
                    }
                    let moved = if self.expected.ledger.upper {
                        payload.saturating_sub(half)
                    } else {
                        payload.saturating_add(half)
                    };
                    changes.push(bad(at, moved))?;
                }
            }
        }
        Ok(())
    }

    // A slot that refers to an object with slots, made to refer into its middle: of the object at a word of to-space.
    fn middle_change(&self, a: u32) -> Option<Change> {
        let packing = self.expected.packing;
        let start = self.expected.first_word();
        let header = self.word_at(a);
        for slot in 0..packing.slots(header).min(255) {
            let at = a.saturating_add(slot).saturating_add(71);
            let word = self.word(at);
            if let Some(address) = packing.reference(header, slot, word) {
                let target = self.word_at(address.saturating_sub(start));
                if packing.slots(target) > 0 {
                    return Some(bad(at, packing.next_reference(word)));
                }
            }
        }
        None
    }

    // The first slot between two words of to-space that can be made to refer into the middle of an object.
    fn first_middle(&self, from: u32, stop: u32) -> Option<Change> {
        let mut a = from;
        // As often as an object may begin in these words, for each has one or more.
        for _ in from..stop {
            if a >= stop {
                break;
            }
            if let Some(change) = self.middle_change(a) {
                return Some(change);
            }
            let slots = self.expected.packing.slots(self.word_at(a));
            a = a.saturating_add(slots).saturating_add(1);
        }
        None
    }

    fn all_changes(&self, heap: Global) -> Result<Vec<Change>, AllocError> {
        let half = self.expected.sizes.half();
        let copied = self.expected.ledger.copied;
        let mut changes = Vec::from_slice(heap, &self.plain_changes())?;
        self.push_word_changes(&mut changes)?;
        self.push_register_changes(&mut changes)?;
        changes.extend(self.first_middle(0, copied))?;
        changes.extend(self.first_middle(self.expected.new_start(), half))?;
        Ok(changes)
    }
}

// Tries to restore an image: what it is refused with, if it is, and the host.
fn refusal_of<H: Host, L: Layout + Drop>(
    host: H,
    layout: L,
    words: &[u32],
) -> (H, Option<Refused>) {
    match Heap::restore(host, layout, words) {
        Ok(heap) => {
            let (host, _) = heap.into_parts();
            (host, None)
        }
        Err(rejected) => {
            let Rejected { refusal, given } = rejected;
            let (host, _) = given;
            (host, Some(Refused::from(refusal)))
        }
    }
}

// What MAKE on a host is refused with, if it is.
fn made_refusal<H: Host + Drop, L: Layout + Drop>(host: H, layout: L) -> Option<Refused> {
    match Heap::make(host, layout) {
        Ok(heap) => {
            let _ = heap.into_parts();
            None
        }
        Err(rejected) => Some(Refused::from(rejected.refusal)),
    }
}

// MAKE, and RESTORE of an image, on a host with one page less, which is an odd number.
fn check_odd<L: Layout + Copy>(heap: Global, layout: L, image: Image<'_>) -> Result<(), Stop> {
    let sizes = image.expected.sizes;
    let pages = sizes.pages().saturating_sub(1);
    let odd = <CheckHost as Fresh>::fresh(heap, pages, sizes.page)?;
    let (odd, restored) = refusal_of(odd, layout, image.words);
    let made = made_refusal(odd, layout);
    let size = Some(Refused::from(Reason::Size));
    differ("RESTORE on an odd page count", size, restored)?;
    differ("MAKE on an odd page count", size, made)?;
    Ok(())
}

/// Restores images that are spoilt, each in one word: what they are refused with.
pub fn check_spoilt<H: Host + Fresh + Drop, L: Layout + Copy>(
    heap: Global,
    layout: L,
    image: Image<'_>,
    tally: &mut Tally,
) -> Result<(), Stop> {
    let sizes = image.expected.sizes;
    let fresh = H::fresh(heap, sizes.pages(), sizes.page)?;
    let length = sizes.image().min(image.words.len()).saturating_sub(1);
    let (mut host, short) = refusal_of(fresh, layout, &image.words[..length]);
    let odd = check_odd(heap, layout, image);
    tally.spoilt = tally.spoilt.saturating_add(2);
    let too_short = Some(Refused::from(Reason::Short));
    differ("an image that is too short", too_short, short)?;
    odd?;
    let mut words = Vec::from_slice(heap, image.words)?;
    for change in image.all_changes(heap)?.iter() {
        let at = change.at as usize;
        if let Some(word) = words.get_mut(at) {
            *word = change.word;
        }
        let (back, refusal) = refusal_of(host, layout, words.as_slice());
        host = back;
        tally.spoilt = tally.spoilt.saturating_add(1);
        differ("a spoilt image", Some(change.refused), refusal)?;
        if let Some(word) = words.get_mut(at) {
            *word = image.word(change.at);
        }
    }
    Ok(())
}
