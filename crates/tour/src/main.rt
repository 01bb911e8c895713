#![tactic(auto)]

mod actions;
mod makers;
mod zones;

use actions::show;
use anyhow::anyhow;
use layouts::{Layout, Split, Tagged};
use makers::show_refusals;
use memory::Host;
use model::Answer;
use runs::{MutatorCall, run};
use tariff::{CALLS, Lists, check_host, pile, show_heaps, small_pages, table_host};

// Lists of the mutators' calls.
struct MutatorLists;

impl Lists for MutatorLists {
    fn answers_on<H: Host + Drop, L: Layout + Drop>(
        &self,
        host: H,
        layout: L,
        calls: &[MutatorCall; CALLS],
    ) -> anyhow::Result<[Answer; CALLS]> {
        let mut answers = [Answer::Done; CALLS];
        run(host, layout, calls, &mut [0u32; 1], &mut answers).map_err(|_| anyhow!(
            "the tariff was refused"
        ))?;
        Ok(answers)
    }
}

// Both layouts on a host.
fn both<H: Host + Drop>(rt: &impl Print, name: &str, mut host: H) -> anyhow::Result<()> {
    println!(rt; "{name}")?;
    show(rt, &mut host, &Tagged)?;
    show(rt, &mut host, &Split)
}

fn main(rt: HostRuntime) -> anyhow::Result<()> {
    let heap = rt.alloc();
    show_refusals(&rt)?;
    both(&rt, "check host", check_host(heap, 8, 32)?)?;
    both(&rt, "table host", table_host(heap, 8, 32)?)?;
    both(
        &rt,
        "small pages, two of each page of a check host",
        small_pages(heap, 8, 32)?,
    )?;
    both(
        &rt,
        "small pages over small pages over a table host",
        pile(heap, 8)?,
    )?;
    show_heaps(&rt, &MutatorLists)
}

#[cfg(test)]
mod tests {
    use super::MutatorLists;
    use tariff::show_heaps;

    #[test]
    fn heaps_are_shown(rt: HostRuntime) {
        assert!(rt; show_heaps(&rt, &MutatorLists).is_ok());
    }
}
