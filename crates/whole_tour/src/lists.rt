ghost use Rattle.std.specs.Prelude.{◌≡◌};
ghost use Rattle.runs.specs.Lists.{as_calls};

use anyhow::anyhow;
use layouts::Layout;
use memory::Host;
use model::{Answer, Call};
use runs::MutatorCall;
use tariff::{CALLS, Lists};
use whole_runs::run;

/// Lists of all calls, the collector's and the images' among them.
pub struct AllLists;

// Mutators' calls, as such a list has them.
fn all_listed(calls: &[MutatorCall; CALLS]) -> [Call; CALLS]
    ensures { result ≡ as_calls calls.now }
{
    calls.map(Call::from)
}

impl Lists for AllLists {
    fn answers_on<H: Host + Drop, L: Layout + Drop>(
        &self,
        host: H,
        layout: L,
        calls: &[MutatorCall; CALLS],
    ) -> anyhow::Result<[Answer; CALLS]> {
        let mut answers = [Answer::Done; CALLS];
        run(
            host,
            layout,
            &all_listed(calls),
            &mut [0u32; 1],
            &mut answers,
        )
        .map_err(|_| anyhow!("the tariff was refused"))?;
        Ok(answers)
    }
}
