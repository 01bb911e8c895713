use anyhow::anyhow;
use check_host::CheckHost;
use memory::Host;
use small_pages::SmallPages;
use std::alloc::Global;
use table_host::TableHost;

/// A kind of host that can be made new, its memory full of words that mean nothing.
pub trait Fresh {
    fn fresh(heap: Global, pages: u32, size: u32) -> anyhow::Result<Self>
    where
        Self: Sized;
}

fn littered(heap: Global, pages: u32, size: u32) -> anyhow::Result<Vec<u32>> {
    Ok(vec![in heap; 2779096485u32; pages.saturating_mul(size) as usize]?)
}

fn layered<H: Host + Drop>(below: H) -> anyhow::Result<SmallPages<H>> {
    SmallPages::make(below, 2).map_err(|_| anyhow!("no layer"))
}

impl Fresh for CheckHost {
    fn fresh(heap: Global, pages: u32, size: u32) -> anyhow::Result<CheckHost> {
        let words = littered(heap, pages, size)?;
        CheckHost::make(words, pages, size).map_err(|_| anyhow!("no check host"))
    }
}

/// The last page is in the first frame.
impl Fresh for TableHost {
    fn fresh(heap: Global, pages: u32, size: u32) -> anyhow::Result<TableHost> {
        let frames = (0..pages).rev().collect::<Vec<u32>>(heap)?;
        let words = littered(heap, pages, size)?;
        TableHost::make(words, frames.as_slice(), pages, size).map_err(|_| anyhow!("no table host"))
    }
}

/// Two small pages out of each page of a check host.
impl Fresh for SmallPages<CheckHost> {
    fn fresh(heap: Global, pages: u32, size: u32) -> anyhow::Result<SmallPages<CheckHost>> {
        layered(<CheckHost as Fresh>::fresh(heap, pages / 2, size.saturating_mul(2))?)
    }
}

/// Two small pages out of each of two small pages out of each page of a table host.
impl Fresh for SmallPages<SmallPages<TableHost>> {
    fn fresh(
        heap: Global,
        pages: u32,
        size: u32,
    ) -> anyhow::Result<SmallPages<SmallPages<TableHost>>> {
        layered(layered(<TableHost as Fresh>::fresh(heap, pages / 4, size.saturating_mul(4))?)?)
    }
}
