use super::stories::{Story, Told, show_lines, totals};
use super::zone_calls::{AROUND, MAKER, NewZone, RULE, TARIFF, make_city, make_zone};
use layouts::Layout;
use memory::Host;
use model::Answer;
use std::alloc::{AllocError, Global};
use tariff::Line;

// The mutator that has the innermost of some nested zones.
const PLANNER: u32 = 2;

// The slots of the table of tariffs that have zones.
const MARKET: u32 = 0;

const HARBOUR: u32 = 1;

// Three zones, the table of tariffs, which is longer than a page, and two drafts that nothing will refer to.
fn make_zones<H: Host, L: Layout>(story: &mut Story<H, L>) -> Result<(), AllocError> {
    let harbour = NewZone {
        purpose: "the maker makes the harbour",
        register: 2,
        around: 0,
        tariff: 7,
    };
    make_city(story)?;
    make_zone(story, harbour)?;
    story.new_object("it makes a draft of 3 words", MAKER, 3, 1, 1)?;
    story.new_object("and one of 23 words", MAKER, 3, 0, 22)?;
    story.new_object("and the table of tariffs, 41 words", MAKER, 3, 2, 38)?;
    story.store("which has the market", MAKER, 3, MARKET, 1)?;
    story.store("and the harbour", MAKER, 3, HARBOUR, 2)?;
    Ok(())
}

// Five zones, each in the one before.
fn nest_zones<H: Host, L: Layout>(story: &mut Story<H, L>) -> Result<(), AllocError> {
    for _ in 0..5u32 {
        story.new_object("the planner makes a zone", PLANNER, 1, 1, 1)?;
        story.store("which lies in the one before", PLANNER, 1, AROUND, 0)?;
        story.copy("and has the next in it", PLANNER, 0, PLANNER, 1)?;
    }
    story.set_nil("the planner keeps the innermost", PLANNER, 1)?;
    Ok(())
}

// What the rule finds before anything moves. It keeps the market, twice.
fn ask_before<H: Host, L: Layout>(story: &mut Story<H, L>) -> Result<(), AllocError> {
    story.copy("a rule looks at the market", RULE, 0, MAKER, 1)?;
    story.copy("and at the table", RULE, 5, MAKER, 3)?;
    story.load("the market in the table", RULE, 1, 5, MARKET)?;
    story.load("the harbour in the table", RULE, 2, 5, HARBOUR)?;
    story.same("are both the market?", RULE, 0, 1)?;
    story.same("is the harbour the market?", RULE, 0, 2)?;
    story.set_nil("the rule forgets the harbour", RULE, 2)?;
    story.set_nil("and the table", RULE, 5)?;
    Ok(())
}

// The maker keeps the table only.
fn forget<H: Host, L: Layout>(story: &mut Story<H, L>) -> Result<(), AllocError> {
    story.set_nil("the maker forgets the city", MAKER, 0)?;
    story.set_nil("and the market", MAKER, 1)?;
    story.set_nil("and the harbour", MAKER, 2)?;
    Ok(())
}

// The rule traps on a page that is not scanned yet, waits, and goes on.
fn meet_fault<H: Host, L: Layout>(story: &mut Story<H, L>) -> Result<(), AllocError> {
    story.load("the zone around the market", RULE, 3, 0, AROUND)?;
    story.same("the rule waits", RULE, 0, 1)?;
    story.flip("one collection at a time")?;
    story.serve("the rule's fault", "the fault is worked off", RULE)?;
    story.load("the zone around the market", RULE, 3, 0, AROUND)?;
    story.same("are both still the market?", RULE, 0, 1)?;
    Ok(())
}

// A zone is made while the others move. New objects keep off the pages that the copies may need.
fn make_quay<H: Host, L: Layout>(story: &mut Story<H, L>) -> Result<(), AllocError> {
    let quay = NewZone {
        purpose: "the maker makes the quay",
        register: 1,
        around: 0,
        tariff: 5,
    };
    story.copy("the maker looks at the rule's city", MAKER, 0, RULE, 3)?;
    make_zone(story, quay)?;
    story.new_object("no room for 30 words", MAKER, 2, 0, 29)?;
    Ok(())
}

// A LOAD of the rule; if it traps, the fault is worked off and the LOAD made again.
fn load_through<H: Host, L: Layout>(
    story: &mut Story<H, L>,
    purpose: &'static str,
    d: u32,
    s: u32,
    i: u32,
) -> Result<(), AllocError> {
    if let Answer::Trapped(_) = story.load(purpose, RULE, d, s, i)? {
        story.serve("the rule's fault", "the fault is worked off", RULE)?;
        story.load(purpose, RULE, d, s, i)?;
    }
    Ok(())
}

// What the rule finds while zones move.
fn ask_meanwhile<H: Host, L: Layout>(story: &mut Story<H, L>) -> Result<(), AllocError> {
    story.step("the collector takes a page")?;
    load_through(story, "the market's tariff", 7, 0, TARIFF)?;
    story.tell("what is it?", RULE, 7)?;
    story.copy("the rule looks at the table", RULE, 5, MAKER, 3)?;
    load_through(story, "the market in the table", 4, 5, MARKET)?;
    story.same("is it the market?", RULE, 0, 4)?;
    load_through(story, "the harbour in the table", 2, 5, HARBOUR)?;
    story.same("is it the market?", RULE, 0, 2)?;
    Ok(())
}

// What the rule finds once all have moved.
fn ask_after<H: Host, L: Layout>(story: &mut Story<H, L>) -> Result<(), AllocError> {
    story.step("no collection goes on")?;
    story.load("the zone around the harbour", RULE, 4, 2, AROUND)?;
    story.same("is it that around the market?", RULE, 3, 4)?;
    story.copy("the rule looks at the quay", RULE, 5, MAKER, 1)?;
    story.load("the zone around the quay", RULE, 4, 5, AROUND)?;
    story.same("is it that around the market?", RULE, 3, 4)?;
    story.same("is the quay the market?", RULE, 0, 5)?;
    story.count("how often did a call trap?")?;
    Ok(())
}

fn collect<H: Host, L: Layout>(story: &mut Story<H, L>) -> Result<(), AllocError> {
    make_zones(story)?;
    nest_zones(story)?;
    ask_before(story)?;
    forget(story)?;
    story.flip("a collection begins")?;
    meet_fault(story)?;
    make_quay(story)?;
    ask_meanwhile(story)?;
    story.step_to_the_end("the collector takes a page")?;
    ask_after(story)
}

// The story on a heap over a host.
fn told_on<H: Host + Drop, L: Layout + Drop>(
    alloc: Global,
    host: H,
    layout: L,
) -> anyhow::Result<Told<()>> {
    let mut story = Story::on(alloc, host, layout)?;
    let ended = collect(&mut story);
    Ok(story.end(ended)?)
}

/// Carries out the story of a collection on a heap over a host, and prints it. Its calls.
pub fn show_collection<H: Host + Drop, L: Layout + Drop>(
    rt: &(impl Print + AllocGlobal),
    host: H,
    layout: L,
) -> anyhow::Result<Vec<Line>> {
    let told = told_on(rt.alloc(), host, layout)?;
    show_lines(rt, told.lines.as_slice())?;
    let (scanned, copied) = totals(told.lines.as_slice());
    let equal = scanned == copied;
    println!(rt; "  words copied in all: {copied}, scanned: {scanned}, equal: {equal}")?;
    Ok(told.lines)
}

/// Carries out the story of a collection on a heap over a host, and says whether the answers are the given ones.
pub fn compare_collection<H: Host + Drop, L: Layout + Drop>(
    rt: &(impl Print + AllocGlobal),
    name: &str,
    host: H,
    layout: L,
    expected: &[Line],
) -> anyhow::Result<()> {
    let number = layout.number();
    let told = told_on(rt.alloc(), host, layout)?;
    let equal = told.lines.as_slice() == expected;
    println!(rt; "  {name}, layout {number}: the same answers: {equal}")?;
    Ok(())
}
