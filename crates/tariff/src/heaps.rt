ghost use Rattle.std.specs.Prelude.{IfOk};
ghost use Rattle.runs.specs.Lists.{as_calls, AsIfNothingMoved};

use super::calls::{CALLS, TARIFF};
use super::hosts::{check_host, pile, small_pages, table_host};
use super::lines::Line;
use layouts::{Layout, Split, Tagged};
use memory::Host;
use model::Answer;
use runs::MutatorCall;

/// A way to carry out a list of calls on a heap that is made for it.
pub trait Lists {
    /// The answers to the calls, in order. They are as if nothing moved.
    fn answers_on<H: Host + Drop, L: Layout + Drop>(
        &self,
        host: H,
        layout: L,
        calls: &[MutatorCall; CALLS],
    ) -> anyhow::Result<[Answer; CALLS]>
        ensures { IfOk result (λ answers. AsIfNothingMoved L.Layout.rules (H.Host.meaning host) (as_calls calls.now) answers) };
}

fn show(rt: &impl Print, answers: &[Answer; CALLS]) -> anyhow::Result<()> {
    for (entry, answer) in TARIFF.iter().zip(answers) {
        let line = Line {
            call: entry.name(),
            purpose: entry.purpose,
            answer: *answer,
        };
        println!(rt; "  {line}")?;
    }
    Ok(())
}

/// Prints a tariff, call by call, on a heap over a check host, and whether heaps over every kind of host, in both layouts, answer
/// the same.
pub fn show_heaps(rt: &(impl Print + AllocGlobal), lists: &impl Lists) -> anyhow::Result<()> {
    let calls = TARIFF.map(|entry| entry.call);
    println!(rt; "a tariff on a heap over the check host, layout 1")?;
    let answers = lists.answers_on(check_host(rt.alloc(), 8, 32)?, Tagged, &calls)?;
    show(rt, &answers)?;
    let compare = |name: &str, others: [Answer; CALLS]| -> anyhow::Result<()> {
        println!(rt; "  {name}: the same answers: {}", others == answers)?;
        Ok(())
    };
    let check = lists.answers_on(check_host(rt.alloc(), 8, 32)?, Split, &calls)?;
    compare("check host, layout 2", check)?;
    let table = lists.answers_on(table_host(rt.alloc(), 8, 32)?, Tagged, &calls)?;
    compare("table host, layout 1", table)?;
    let table = lists.answers_on(table_host(rt.alloc(), 8, 32)?, Split, &calls)?;
    compare("table host, layout 2", table)?;
    let small = lists.answers_on(small_pages(rt.alloc(), 8, 32)?, Tagged, &calls)?;
    compare("small pages, layout 1", small)?;
    let piled = lists.answers_on(pile(rt.alloc(), 8)?, Split, &calls)?;
    compare("a pile of small pages, layout 2", piled)
}
