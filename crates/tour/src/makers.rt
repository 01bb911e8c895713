use anyhow::anyhow;
use check_host::CheckHost;
use memory::Rejected;
use small_pages::SmallPages;
use table_host::TableHost;
use tariff::{check_host, words};

// Whether a host was made, or why not. What was given for it, if it was refused.
fn tell_made<H: Drop, T: Drop>(
    rt: &impl Print,
    what: &str,
    made: Result<H, Rejected<T>>,
) -> anyhow::Result<Option<T>> {
    match made {
        Ok(_) => {
            println!(rt; "  {what}: made")?;
            Ok(None)
        }
        Err(rejected) => {
            println!(rt; "  {what}: {}", rejected.refusal)?;
            Ok(Some(rejected.given))
        }
    }
}

// The same of a host over a memory.
fn tell_over_words<H: Drop>(
    rt: &impl Print,
    what: &str,
    made: Result<H, Rejected<Vec<u32>>>,
) -> anyhow::Result<()> {
    if let Some(memory) = tell_made(rt, what, made)? {
        println!(rt; "    {} words handed back", memory.len())?;
    }
    Ok(())
}

// Tries to make a check host of so many words.
fn try_check(
    rt: &(impl Print + AllocGlobal),
    what: &str,
    count: usize,
    pages: u32,
    size: u32,
) -> anyhow::Result<()> {
    let memory = words(rt.alloc(), count)?;
    tell_over_words(rt, what, CheckHost::make(memory, pages, size))
}

// Tries to make a table host of 8 pages of 32 words.
fn try_table(rt: &(impl Print + AllocGlobal), what: &str, frames: &[u32]) -> anyhow::Result<()> {
    let memory = words(rt.alloc(), 256)?;
    tell_over_words(rt, what, TableHost::make(memory, frames, 8, 32))
}

/// Tries to make hosts that are refused, and prints what is handed back.
pub fn show_refusals(rt: &(impl Print + AllocGlobal)) -> anyhow::Result<()> {
    println!(rt; "hosts that are not made")?;
    try_check(rt, "no page", 256, 0, 16)?;
    try_check(rt, "65 pages", 256, 65, 16)?;
    try_check(rt, "pages of 24 words", 256, 4, 24)?;
    try_check(rt, "255 words for 256", 255, 8, 32)?;
    try_table(rt, "a frame twice", &[0, 1, 2, 3, 4, 5, 6, 6])?;
    try_table(rt, "a frame too many", &[0, 1, 2, 3, 4, 5, 6, 7, 8])?;
    try_table(rt, "a frame too high", &[0, 1, 2, 3, 4, 5, 6, 8])?;
    let host = check_host(rt.alloc(), 8, 32)?;
    let thirds = SmallPages::make(host, 3);
    let Some(host) = tell_made(rt, "3 small pages out of each", thirds)? else {
        return Err(anyhow!("a layer of three"));
    };
    let eighths = SmallPages::make(host, 8);
    let Some(_) = tell_made(rt, "8 pages of 4 words out of each", eighths)? else {
        return Err(anyhow!("pages of four words"));
    };
    Ok(())
}
