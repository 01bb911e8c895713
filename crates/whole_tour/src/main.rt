#![tactic(auto)]

mod answers;
mod checkpoint;
mod collection;
mod every_host;
mod lists;
mod stories;
mod zone_calls;

use every_host::{show_collections, show_images};
use lists::AllLists;
use tariff::show_heaps;

fn main(rt: HostRuntime) -> anyhow::Result<()> {
    show_heaps(&rt, &AllLists)?;
    show_collections(&rt, 8, 32)?;
    show_collections(&rt, 16, 16)?;
    show_images(&rt)
}
