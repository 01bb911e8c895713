ghost use Rattle.std.specs.Prelude.{◌≡◌, ◌*◌, ◌/◌, ◌^◌, ◌<◌, IfOk, replicate};
ghost use Rattle.check_host.specs.Meaning.{check_meaning};
ghost use Rattle.table_host.specs.Meaning.{table_meaning};
ghost use Rattle.small_pages.specs.Layers.{layer_meaning};
ghost use Rattle.tariff.specs.Sizes.{HasSizes};

use anyhow::anyhow;
use check_host::CheckHost;
use memory::Host;
use small_pages::SmallPages;
use std::alloc::Global;
use std::array;
use table_host::TableHost;

/// So many words, each 0.
pub fn words(alloc: Global, count: usize) -> anyhow::Result<Vec<u32>>
    ensures { IfOk result (λ words. words.items ≡ replicate count 0) }
{
    Ok(vec![in alloc; 0u32; count]?)
}

/// A check host of 256 words.
pub fn check_host(alloc: Global, pages: u32, size: u32) -> anyhow::Result<CheckHost>
    ensures { IfOk result (λ host. HasSizes (check_meaning host) pages size) }
{
    CheckHost::make(words(alloc, 256)?, pages, size).map_err(|_| anyhow!("no check host"))
}

/// A table host of 256 words, its first page in its last frame.
pub fn table_host(alloc: Global, pages: u32, size: u32) -> anyhow::Result<TableHost>
    ensures { IfOk result (λ host. HasSizes (table_meaning host) pages size) }
{
    let frames: [u32; 64] = array::from_fn(|page| pages.saturating_sub(page as u32 + 1));
    let frames = &frames[..pages.min(64) as usize];
    TableHost::make(words(alloc, 256)?, frames, pages, size).map_err(|_| anyhow!("no table host"))
}

// Small pages, k of each page of a host.
fn layer<H: Host + Drop>(host: H, k: u32) -> anyhow::Result<SmallPages<H>>
    ensures { IfOk result (λ layer. HasSizes (layer_meaning H.Host.meaning layer) ((H.Host.meaning host).page_count * k) ((H.Host.meaning host).page_size / k)) }
{
    SmallPages::make(host, k).map_err(|_| anyhow!("no layer"))
}

/// Small pages, two of each page of a check host.
pub fn small_pages(alloc: Global, pages: u32, size: u32) -> anyhow::Result<SmallPages<CheckHost>>
    ensures { size < 2 ^ 31 → IfOk result (λ layer. HasSizes (layer_meaning check_meaning layer) (pages / 2 * 2) size) }
{
    layer(check_host(alloc, pages / 2, size.saturating_mul(2))?, 2)
}

// Small pages, two of each of the two pages of a table host.
fn four_pages(alloc: Global) -> anyhow::Result<SmallPages<TableHost>>
    ensures { IfOk result (λ layer. HasSizes (layer_meaning table_meaning layer) 4 64) }
{
    layer(table_host(alloc, 2, 128)?, 2)
}

/// 8 or 16 small pages over four small pages over the two pages of a table host.
pub fn pile(alloc: Global, pages: u32) -> anyhow::Result<SmallPages<SmallPages<TableHost>>>
    ensures { IfOk result (λ layer. HasSizes (layer_meaning (layer_meaning table_meaning) layer) (4 * (pages / 4)) (64 / (pages / 4))) }
{
    layer(four_pages(alloc)?, pages / 4)
}
