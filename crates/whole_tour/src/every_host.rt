use super::checkpoint::{compare_trip, show_small_image, show_spoilt, show_trip};
use super::collection::{compare_collection, show_collection};
use layouts::{Split, Tagged};
use memory::Host;
use tariff::{Line, check_host, pile, small_pages, table_host};

// A collection on two hosts of a kind, in both layouts.
fn compare_both<H: Host + Drop, F: Fn() -> anyhow::Result<H>>(
    rt: &(impl Print + AllocGlobal),
    name: &str,
    host: F,
    expected: &[Line],
) -> anyhow::Result<()>
    requires { F.IsAlwaysCallable host }
{
    let first = host()?;
    let second = host()?;
    compare_collection(rt, name, first, Tagged, expected)?;
    compare_collection(rt, name, second, Split, expected)
}

/// A collection on heaps of a size over every kind of host, in both layouts.
pub fn show_collections(
    rt: &(impl Print + AllocGlobal),
    pages: u32,
    size: u32,
) -> anyhow::Result<()> {
    println!(rt;
        "a collection on a heap over the check host, {pages} pages of {size} words, layout 1"
    )?;
    let told = show_collection(rt, check_host(rt.alloc(), pages, size)?, Tagged)?;
    let lines = told.as_slice();
    let alloc = rt.alloc();
    compare_collection(
        rt,
        "check host",
        check_host(rt.alloc(), pages, size)?,
        Split,
        lines,
    )?;
    compare_both(
        rt,
        "table host",
        move || table_host(alloc, pages, size),
        lines,
    )?;
    compare_both(
        rt,
        "small pages",
        move || small_pages(alloc, pages, size),
        lines,
    )?;
    compare_both(
        rt,
        "a pile of small pages",
        move || pile(alloc, pages),
        lines,
    )
}

/// Images of heaps over every kind of host, each restored on another.
pub fn show_images(rt: &(impl Print + AllocGlobal)) -> anyhow::Result<()> {
    let alloc = rt.alloc();
    println!(rt; "an image of a heap over the check host, 16 pages of 16 words, layout 1")?;
    let told = show_trip(rt, check_host(alloc, 16, 16)?, pile(alloc, 16)?, Tagged)?;
    let lines = told.lines.as_slice();
    compare_trip(
        rt,
        "table host to small pages",
        table_host(alloc, 16, 16)?,
        small_pages(alloc, 16, 16)?,
        Split,
        lines,
    )?;
    compare_trip(
        rt,
        "small pages to check host",
        small_pages(alloc, 16, 16)?,
        check_host(alloc, 16, 16)?,
        Tagged,
        lines,
    )?;
    compare_trip(
        rt,
        "a pile of small pages to table host",
        pile(alloc, 16)?,
        table_host(alloc, 16, 16)?,
        Split,
        lines,
    )?;
    println!(rt; "images that are not restored")?;
    show_spoilt(rt, table_host(alloc, 16, 16)?, told.buffer.as_slice())?;
    println!(rt; "the words other than 0 of an image of 86 words, layout 1")?;
    show_small_image(rt, check_host(alloc, 2, 16)?, Tagged)?;
    println!(rt; "the same in layout 2")?;
    show_small_image(rt, check_host(alloc, 2, 16)?, Split)
}
