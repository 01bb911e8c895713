ghost use Rattle.std.specs.Prelude.{◌≡◌, ℕ, ◌≤◌, length};
ghost use Rattle.images.specs.Lent.{Writes, machine};
ghost use Rattle.model.specs.declared.calls.Call.TheVariants as Call;
ghost use Rattle.model.specs.Faults.{fault_page};
ghost use Rattle.heap.specs.View.{view};
ghost use Rattle.heap.specs.Effects.{Does, take_answer, FaultOf, resolve_answer, Serves};

use super::faults::Fault;
use super::heap_state::Heap;
use collector::scan_if_unscanned;
use images::save_if_unsaved;
use layouts::Layout;
use memory::{Host, Refusal};
use model::{Phase, State};
use state::{Event, MutatorName};

// The page that a mutator waits on or is in hand with; 0 if it runs.
fn page_of(state: State) -> u32
    ensures { result ≡ fault_page state }
{
    match state {
        State::Running => 0,
        State::Waiting(page) | State::InHand(page) => page,
    }
}

impl<H: Host, L: Layout> Heap<H, L> {
    /// TAKE: hands out the fault of a waiting mutator.
    pub fn take(&mut self, m: u32) -> Result<Fault, Refusal>
        ensures does { Does L.Layout.rules (view H.Host.meaning self.old) (Call.Take m) (view H.Host.meaning self.new) (take_answer result) }
        ensures fault { FaultOf m result }
        ensures layout { self.new.layout ≡ self.old.layout }
    {
        let m = MutatorName::try_from(m)?.number();
        let state = self.advance(m, Event::Take).ok_or(Refusal::NoFault)?;
        Ok(Fault {
            mutator: m,
            page: page_of(state),
        })
    }

    // Does what the phase asks of a fault's page: scans it if collecting and a word there is unscanned, saves it if imaging and
    // unsaved. The words scanned and the words copied.
    fn serve(&mut self, page: u32, buffer: &mut [u32]) -> Result<(u32, u32), Refusal>
        ensures served { Serves L.Layout.rules (view H.Host.meaning self.old) buffer.old page (view H.Host.meaning self.new) buffer.new result }
        ensures layout { self.new.layout ≡ self.old.layout }
    {
        match self.plain.phase {
            Phase::Collecting => Ok(scan_if_unscanned(
                &mut self.host,
                &self.layout,
                &mut self.plain,
                page,
            )),
            Phase::Imaging => {
                save_if_unsaved(&mut self.host, &mut self.plain, buffer, page)?;
                Ok((0, 0))
            }
            Phase::Idle => Ok((0, 0)),
        }
    }

    // Works the fault of a mutator on a page off, if it is in hand with that page.
    fn work_off(&mut self, m: u32, page: u32, buffer: &mut [u32]) -> Result<(u32, u32), Refusal>
        ensures writes { Writes L.Layout.rules (view H.Host.meaning self.old) buffer.old (Call.Resolve m page (length buffer.old)) (view H.Host.meaning self.new) buffer.new (resolve_answer result) }
        ensures layout { self.new.layout ≡ self.old.layout }
    {
        if buffer.len() < self.image_words() as usize {
            let _ = self.advance(m, Event::GoBack(page));
            return Err(Refusal::Short);
        }
        if self.advance(m, Event::Resolve(page)).is_none() {
            return Err(Refusal::NoFault);
        }
        self.serve(page, buffer)
    }

    /// RESOLVE: works a fault off, and its mutator runs again. The words scanned and the words copied.
    pub fn resolve(&mut self, fault: Fault, buffer: &mut [u32]) -> Result<(u32, u32), Refusal>
        ensures writes { Writes L.Layout.rules (view H.Host.meaning self.old) buffer.old (Call.Resolve fault.mutator fault.page (length buffer.old)) (view H.Host.meaning self.new) buffer.new (resolve_answer result) }
        ensures layout { self.new.layout ≡ self.old.layout }
    {
        let (m, page) = fault.parts();
        self.work_off(m, page, buffer)
    }
}
