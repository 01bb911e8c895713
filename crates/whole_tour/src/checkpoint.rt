use super::stories::{Story, Told, show_lines};
use super::zone_calls::{AROUND, MAKER, RULE, TARIFF, make_city};
use heap::Heap;
use layouts::{Layout, Split, Tagged};
use memory::Host;
use model::Answer;
use std::alloc::{AllocError, Global};
use tariff::{Line, words};

// Where an image has the address of what the rule holds in register 0.
const MARKET_ADDRESS: usize = 23;

// The city, the market, and a list of 61 words, so that the words in use lie on several pages.
fn make_objects<H: Host, L: Layout>(story: &mut Story<H, L>) -> Result<(), AllocError> {
    make_city(story)?;
    story.new_object("it makes a list of 61 words", MAKER, 2, 0, 60)?;
    story.copy("a rule looks at the market", RULE, 0, MAKER, 1)?;
    story.copy("and at the city", RULE, 1, MAKER, 0)?;
    Ok(())
}

// What a rule was answered: the market's tariff, whether the zone around it is the city, and whether the city is the market.
#[derive(Clone, Copy, PartialEq, Eq)]
pub struct Asked {
    tariff: Answer,
    around: Answer,
    other: Answer,
}

// What the rule asks before the image is marked, and of the heap that is restored from it.
fn ask<H: Host, L: Layout>(story: &mut Story<H, L>) -> Result<Asked, AllocError> {
    story.load("the market's tariff", RULE, 7, 0, TARIFF)?;
    let tariff = story.tell("what is it?", RULE, 7)?;
    story.load("the zone around the market", RULE, 2, 0, AROUND)?;
    let around = story.same("is it the city?", RULE, 1, 2)?;
    let other = story.same("is the city the market?", RULE, 0, 1)?;
    story.set_nil("the rule forgets the tariff", RULE, 7)?;
    story.set_nil("and the zone around", RULE, 2)?;
    Ok(Asked {
        tariff,
        around,
        other,
    })
}

// The rule stores into a page that is not saved yet, waits, and goes on.
fn store_meanwhile<H: Host, L: Layout>(story: &mut Story<H, L>) -> Result<(), AllocError> {
    story.load("a page marked can be read", RULE, 2, 0, AROUND)?;
    story.set_number("a new tariff number", RULE, 7, 9)?;
    story.store("which is the market's", RULE, 0, TARIFF, 7)?;
    story.same("the rule waits", RULE, 0, 1)?;
    story.serve("the rule's fault", "its page is saved", RULE)?;
    story.store("which is the market's", RULE, 0, TARIFF, 7)?;
    Ok(())
}

// A NEW into a page that is not saved yet.
fn make_meanwhile<H: Host, L: Layout>(story: &mut Story<H, L>) -> Result<(), AllocError> {
    story.new_object("the maker makes a stall", MAKER, 3, 1, 1)?;
    story.serve("the maker's fault", "its page is saved", MAKER)?;
    story.new_object("the maker makes a stall", MAKER, 3, 1, 1)?;
    story.store("which lies in the market", MAKER, 3, AROUND, 1)?;
    Ok(())
}

// An image is marked and saved while rules go on. What was answered before.
fn checkpoint<H: Host, L: Layout>(story: &mut Story<H, L>) -> Result<Asked, AllocError> {
    make_objects(story)?;
    let asked = ask(story)?;
    story.mark("an image begins")?;
    story.mark("one image at a time")?;
    story.flip("and no collection meanwhile")?;
    store_meanwhile(story)?;
    make_meanwhile(story)?;
    story.save_to_the_end("the lowest page left")?;
    story.save("no image is in progress")?;
    story.load("the market's tariff", RULE, 7, 0, TARIFF)?;
    story.tell("what is it now?", RULE, 7)?;
    story.count("how often did a call trap?")?;
    Ok(asked)
}

// An image of a restored heap, written at once, and the questions of before.
fn write_again<H: Host, L: Layout>(story: &mut Story<H, L>) -> Result<Asked, AllocError> {
    story.mark("an image of the restored heap")?;
    story.save_to_the_end("the lowest page left")?;
    story.count("how often did a call trap?")?;
    ask(story)
}

// The story of an image on a heap over a host.
fn told_on<H: Host + Drop, L: Layout + Drop>(
    alloc: Global,
    host: H,
    layout: L,
) -> anyhow::Result<Told<Asked>> {
    let mut story = Story::on(alloc, host, layout)?;
    let asked = checkpoint(&mut story);
    Ok(story.end(asked)?)
}

// The story of an image on a heap over a host, and that of a heap restored from the image on another host.
#[derive(Drop)]
struct RoundTrip {
    told: Told<Asked>,
    again: Told<Asked>,
}

impl RoundTrip {
    // Restores the image of the first story on another host, and carries out the second.
    fn make<H: Host + Drop, L: Layout + Drop>(
        alloc: Global,
        told: Told<Asked>,
        other: H,
        layout: L,
    ) -> anyhow::Result<RoundTrip> {
        let mut story = Story::from_image(alloc, other, layout, told.buffer.as_slice())?;
        let asked = write_again(&mut story);
        let again = story.end(asked)?;
        Ok(RoundTrip { told, again })
    }

    // Whether the restored heap answers as the first did before the image.
    fn answers_again(&self) -> bool {
        self.told.found == self.again.found
    }

    // Whether the restored heap writes its image again.
    fn writes_again(&self) -> bool {
        self.told.buffer == self.again.buffer
    }
}

/// Carries out the story of an image on a heap over a host, restores the image on another host, and prints both. The first story.
pub fn show_trip<H: Host + Drop, G: Host + Drop, L: Layout + Copy>(
    rt: &(impl Print + AllocGlobal),
    host: H,
    other: G,
    layout: L,
) -> anyhow::Result<Told<Asked>> {
    let told = told_on(rt.alloc(), host, layout)?;
    show_lines(rt, told.lines.as_slice())?;
    println!(rt; "the image restored on another host")?;
    let trip = RoundTrip::make(rt.alloc(), told, other, layout)?;
    show_lines(rt, trip.again.lines.as_slice())?;
    let answers = trip.answers_again();
    let image = trip.writes_again();
    println!(rt; "  the answers of before the image: {answers}")?;
    println!(rt; "  the same image written again: {image}")?;
    Ok(trip.told)
}

/// Carries out both stories, and says whether the answers are the given ones, and the restored heap writes its image again.
pub fn compare_trip<H: Host + Drop, G: Host + Drop, L: Layout + Copy>(
    rt: &(impl Print + AllocGlobal),
    name: &str,
    host: H,
    other: G,
    layout: L,
    expected: &[Line],
) -> anyhow::Result<()> {
    let number = layout.number();
    let told = told_on(rt.alloc(), host, layout)?;
    let trip = RoundTrip::make(rt.alloc(), told, other, layout)?;
    let answers = trip.told.lines.as_slice() == expected && trip.answers_again();
    let image = trip.writes_again();
    println!(rt;
        "  {name}, layout {number}: the same answers: {answers}, the same image again: {image}"
    )?;
    Ok(())
}

// A copy of an image with one word altered.
fn spoilt(alloc: Global, image: &[u32], at: usize, word: u32) -> anyhow::Result<Vec<u32>> {
    let mut copy = image.to_vec(alloc)?;
    if let Some(place) = copy.get_mut(at) {
        *place = word;
    }
    Ok(copy)
}

// Tries to restore an image; host and layout come back.
fn try_restore<H: Host + Drop, L: Layout + Drop>(
    rt: &impl Print,
    what: &str,
    host: H,
    layout: L,
    image: &[u32],
) -> anyhow::Result<(H, L)> {
    match Heap::restore(host, layout, image) {
        Ok(heap) => {
            let given = heap.into_parts();
            println!(rt; "  RESTORE, {what}: a heap")?;
            Ok(given)
        }
        Err(rejected) => {
            println!(rt; "  RESTORE, {what}: {}", rejected.refusal)?;
            Ok(rejected.given)
        }
    }
}

/// Tries to restore spoilt copies of the image of the story, which is in the tagged layout.
pub fn show_spoilt<H: Host + Drop>(
    rt: &(impl Print + AllocGlobal),
    host: H,
    image: &[u32],
) -> anyhow::Result<()> {
    let address = image.get(MARKET_ADDRESS).copied().unwrap_or(0);
    let astray = spoilt(rt.alloc(), image, MARKET_ADDRESS, address.saturating_add(1))?;
    let unsealed = spoilt(rt.alloc(), image, 0, 0)?;
    let third_half = spoilt(rt.alloc(), image, 3, 2)?;
    let stray_word = spoilt(rt.alloc(), image, 70, 5)?;
    let short = words(rt.alloc(), 69)?;
    let images = [
        ("a reference into the market's middle", astray),
        ("no seal", unsealed),
        ("a third half", third_half),
        ("a word that is not in use", stray_word),
        ("69 words", short),
    ];
    let mut given = (host, Tagged);
    for (what, image) in images {
        let (host, layout) = given;
        given = try_restore(rt, what, host, layout, image.as_slice())?;
    }
    let (host, layout) = given;
    let (host, _) = try_restore(rt, "the image as it was", host, layout, image)?;
    let _ = try_restore(rt, "the same in the other layout", host, Split, image)?;
    Ok(())
}

// An image of a heap with two zones and nothing else.
fn small_image<H: Host, L: Layout>(story: &mut Story<H, L>) -> Result<(), AllocError> {
    make_city(story)?;
    story.mark("an image begins")?;
    story.save_to_the_end("the lowest page left")
}

/// Prints the words other than 0 of an image of a small heap.
pub fn show_small_image<H: Host + Drop, L: Layout + Drop>(
    rt: &(impl Print + AllocGlobal),
    host: H,
    layout: L,
) -> anyhow::Result<()> {
    let mut story = Story::on(rt.alloc(), host, layout)?;
    let ended = small_image(&mut story);
    let told = story.end(ended)?;
    for (j, word) in told
        .buffer
        .iter()
        .enumerate()
        .filter(|(_, word)| **word != 0)
    {
        println!(rt; "  word {j}: {word}")?;
    }
    Ok(())
}
