#![tactic(auto)]

mod answering;
mod calls;
mod choosing;
mod differences;
mod expected;
mod hosts;
mod imaging;
mod lists;
mod objects;
mod packing;
mod performing;
mod random;
mod refusing;
mod rights;
mod sessions;
mod spoiling;
mod tallying;
mod walking;
mod watching;

use check_host::CheckHost;
use expected::Sizes;
use hosts::Fresh;
use layouts::{Split, Tagged};
use lists::{Group, run_group};
use memory::Host;
use packing::Packing;
use small_pages::SmallPages;
use std::alloc::Global;
use table_host::TableHost;
use tallying::Tally;

type Small = SmallPages<CheckHost>;

type Pile = SmallPages<SmallPages<TableHost>>;

const CHECK: &str = "check host";

const TABLE: &str = "table host";

const SMALL: &str = "small pages";

const PILE: &str = "pile of two layers";

// What all groups print to, allocate from and are counted in.
#[derive(Drop)]
struct Groups<'a, R: Print> {
    rt: &'a R,
    alloc: Global,
    total: Tally,
}

impl<'a, R: Print> Groups<'a, R> {
    // So many lists on hosts of kind A with both layouts; images are restored on hosts of kind B.
    fn run<A: Host + Fresh + Drop, B: Host + Fresh + Drop>(
        &mut self,
        name: &str,
        sizes: Sizes,
        lists: u32,
    ) -> anyhow::Result<()> {
        let tagged = Group {
            sizes,
            packing: Packing::Tagged,
            lists,
            seed: self.total.lists.saturating_add(1),
            calls: 400,
        };
        let split = Group {
            packing: Packing::Split,
            seed: tagged.seed.saturating_add(lists),
            ..tagged
        };
        let total = &mut self.total;
        run_group::<A, B, Tagged>(self.rt, self.alloc, name, Tagged, tagged, total)?;
        run_group::<A, B, Split>(self.rt, self.alloc, name, Split, split, total)
    }

    fn run_small(&mut self) -> anyhow::Result<()> {
        self.run::<CheckHost, TableHost>(CHECK, sizes(2, 16), 60)?;
        self.run::<TableHost, Small>(TABLE, sizes(2, 16), 60)?;
        self.run::<Small, CheckHost>(SMALL, sizes(4, 16), 100)?;
        self.run::<Pile, Small>(PILE, sizes(4, 16), 100)?;
        self.run::<CheckHost, Pile>(CHECK, sizes(8, 16), 400)?;
        self.run::<TableHost, Pile>(TABLE, sizes(8, 32), 300)?;
        self.run::<Small, TableHost>(SMALL, sizes(6, 32), 300)?;
        self.run::<Pile, TableHost>(PILE, sizes(12, 16), 400)
    }

    fn run_large(&mut self) -> anyhow::Result<()> {
        self.run::<CheckHost, TableHost>(CHECK, sizes(32, 16), 200)?;
        self.run::<CheckHost, TableHost>(CHECK, sizes(64, 16), 200)?;
        self.run::<TableHost, CheckHost>(TABLE, sizes(18, 64), 200)?;
        self.run::<Small, CheckHost>(SMALL, sizes(10, 128), 150)?;
        self.run::<Pile, CheckHost>(PILE, sizes(8, 64), 150)?;
        self.run::<CheckHost, TableHost>(CHECK, sizes(64, 256), 40)?;
        self.run::<TableHost, CheckHost>(TABLE, sizes(4, 256), 100)
    }
}

fn sizes(pages: u32, page: u32) -> Sizes {
    Sizes {
        page,
        half_pages: pages / 2,
    }
}

fn main(rt: HostRuntime) -> anyhow::Result<()> {
    let mut groups = Groups {
        rt: &rt,
        alloc: rt.alloc(),
        total: Tally::default(),
    };
    groups.run_small()?;
    groups.run_large()?;
    println!(rt; "all groups")?;
    groups.total.print(&rt)?;
    Ok(())
}
