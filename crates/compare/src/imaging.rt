use super::differences::{Difference, Stop, differ};
use super::expected::{Expected, Sizes};
use super::hosts::Fresh;
use super::objects::Item;
use super::random::Random;
use super::spoiling::check_spoilt;
use super::tallying::Tally;
use super::walking::{check_graph, check_registers};
use heap::Heap;
use images::Seal;
use layouts::Layout;
use memory::Host;
use std::alloc::Global;

/// The words of a sealed image, and the heap that was marked.
#[derive(Clone, Copy)]
pub struct Image<'a> {
    pub words: &'a [u32],
    pub expected: &'a Expected,
}

impl<'a> Image<'a> {
    /// A word, 0 behind the end.
    pub fn word(&self, j: u32) -> u32 {
        self.words.get(j as usize).copied().unwrap_or(0)
    }

    /// The word at an address of to-space, counted from its first.
    pub fn word_at(&self, a: u32) -> u32 {
        self.word(a.saturating_add(70))
    }

    // Compares the first six words.
    fn check_fields(&self) -> Result<(), Difference> {
        let Expected {
            sizes,
            packing,
            ledger,
            ..
        } = self.expected;
        differ("word 0 of an image", sizes.page, self.word(0))?;
        differ("word 1 of an image", sizes.half_pages, self.word(1))?;
        differ("word 2 of an image", packing.number(), self.word(2))?;
        differ("word 3 of an image", u32::from(ledger.upper), self.word(3))?;
        differ("word 4 of an image", ledger.copied, self.word(4))?;
        differ("word 5 of an image", ledger.fresh, self.word(5))
    }

    // Compares the two words of a register; no address is known.
    fn check_register(&self, k: u32, item: Item) -> Result<(), Difference> {
        let at = k.saturating_mul(2).saturating_add(6);
        let kind = self.word(at);
        let payload = self.word(at.saturating_add(1));
        match item {
            Item::Nil => {
                differ("a nil's kind", 0, kind)?;
                differ("a nil's payload", 0, payload)
            }
            Item::Number(n) => {
                differ("a number's kind", 1, kind)?;
                differ("a number's payload", n, payload)
            }
            Item::Object(_) => differ("a reference's kind", 2, kind),
        }
    }

    // Compares what is known of the words: the first six, the registers, and the unused words, which are 0.
    fn check_words(&self) -> Result<(), Difference> {
        self.check_fields()?;
        for (k, item) in (0..32u32).zip(self.expected.ledger.registers.iter()) {
            self.check_register(k, *item)?;
        }
        for a in self.expected.ledger.copied..self.expected.new_start() {
            differ("an unused word of an image", 0, self.word_at(a))?;
        }
        Ok(())
    }
}

/// Restores an image on a host of its own.
pub fn restore_on<H: Host + Fresh + Drop, L: Layout + Copy>(
    heap: Global,
    layout: L,
    sizes: Sizes,
    words: &[u32],
) -> Result<Heap<H, L>, Stop> {
    let host = H::fresh(heap, sizes.pages(), sizes.page)?;
    let restored = Heap::restore(host, layout, words).map_err(|rejected| Difference::refused(
        "RESTORE of a good image",
        rejected.refusal,
    ))?;
    Ok(restored)
}

// Saves an image of a heap again, and compares it with the first.
fn check_second<H: Host, L: Layout>(
    heap: &mut Heap<H, L>,
    alloc: Global,
    image: Image<'_>,
) -> Result<(), Stop> {
    let sizes = image.expected.sizes;
    let mut again = vec![in alloc; 3735928559u32; sizes.image()]?;
    heap.mark(again.as_mut_slice()).map_err(|refusal| Difference::refused(
        "MARK on a restored heap",
        refusal,
    ))?;
    for _ in 0..sizes.half_pages {
        let seal = heap.save(again.as_mut_slice()).map_err(|refusal| Difference::refused(
            "SAVE on a restored heap",
            refusal,
        ))?;
        if matches!(seal, Seal::Sealed) {
            break;
        }
    }
    for (word, first) in again.iter().zip(image.words.iter()) {
        differ("a word of the second image", *first, *word)?;
    }
    Ok(())
}

// Compares a restored heap with the one that was marked.
fn check_restored<H: Host, L: Layout>(
    heap: &mut Heap<H, L>,
    alloc: Global,
    image: Image<'_>,
    random: &mut Random,
    tally: &mut Tally,
) -> Result<(), Stop> {
    let count = differ("COUNT of a restored heap", 0, heap.count());
    let told = check_registers(heap, image.expected, tally);
    let again = check_second(heap, alloc, image);
    tally.count_compared(image.expected.sizes.half().saturating_add(70));
    count?;
    told?;
    again?;
    check_graph(heap, alloc, image.expected, random, tally)
}

/// Compares a sealed image with the heap that was marked: its words, the heap that it restores, and the refusals of the image
/// when it is spoilt.
pub fn check_image<H: Host + Fresh + Drop, L: Layout + Copy>(
    alloc: Global,
    layout: L,
    image: Image<'_>,
    random: &mut Random,
    tally: &mut Tally,
) -> Result<(), Stop> {
    image.check_words()?;
    tally.restores = tally.restores.saturating_add(1);
    let mut heap = restore_on::<H, L>(alloc, layout, image.expected.sizes, image.words)?;
    let found = check_restored(&mut heap, alloc, image, random, tally);
    let _ = heap.into_parts();
    found?;
    check_spoilt::<H, L>(alloc, layout, image, tally)
}
