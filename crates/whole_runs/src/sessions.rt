ghost use Rattle.std.specs.Prelude.{◌≡◌, length, if◌then◌else◌, None, Ok, nat_lt};
ghost use Rattle.memory.specs.declared.refusals.Refusal.TheVariants.{Short, NoFault};
ghost use Rattle.model.specs.Images.{image_words};
ghost use Rattle.model.specs.declared.calls.Call.TheVariants as Call;
ghost use Rattle.images.specs.Lent.{Writes, save_answer};
ghost use Rattle.heap.specs.View.{view};
ghost use Rattle.heap.specs.Effects.{Does};
ghost use Rattle.whole_runs.specs.Hands.{HandsMatch, HandsMatch-prop, AllRun, at_hand};
ghost use Rattle.whole_runs.specs.Lists.{Carries};

use super::turns::Turn;
use collector::Progress;
use heap::{Fault, Heap};
use layouts::Layout;
use memory::{Host, Refusal};
use model::{Answer, Call as ListedCall};

/// A heap while a list of calls is carried out on it, with the faults that it handed out and that are still to be resolved.
pub(crate) struct Session<H: Host, L: Layout> {
    heap: Heap<H, L>,
    // The fault of each mutator that is in hand.
    hands: [Option<Fault>; 4],
    ghost hands_match: { HandsMatch (view H.Host.meaning heap).state hands } by { HandsMatch-prop (view H.Host.meaning heap).state hands },
}

// Spends a fault that is left over: it goes back, and its mutator waits again.
fn spend<H: Host, L: Layout>(heap: &mut Heap<H, L>, held: Option<Fault>)
    ensures memory { (view H.Host.meaning heap.new).memory ≡ (view H.Host.meaning heap.old).memory }
    ensures kept { held ≡ None → view H.Host.meaning heap.new ≡ view H.Host.meaning heap.old }
    ensures layout { heap.new.layout ≡ heap.old.layout }
{
    if let Some(fault) = held {
        let _ = heap.resolve(fault, &mut []);
    }
}

impl<H: Host, L: Layout> Session<H, L> {
    /// A heap whose mutators all run, so that no fault is at hand.
    pub(crate) fn new(heap: Heap<H, L>) -> Session<H, L>
        requires { AllRun (view H.Host.meaning heap).state }
        ensures { result.heap ≡ heap }
    {
        Session {
            heap,
            hands: [None, None, None, None],
        }
    }

    // Whether the fault of a mutator on a page is at hand.
    fn is_at_hand(&self, m: u32, page: u32) -> bool
        ensures { result ≡ at_hand self.now.hands m page }
    {
        matches!(self.hands.get(m as usize), Some(Some(fault)) if fault.page() == page)
    }

    // TAKE: the fault of a mutator comes to hand.
    fn take(&mut self, m: u32) -> Answer
        ensures does { Does L.Layout.rules (view H.Host.meaning self.old.heap) (Call.Take m) (view H.Host.meaning self.new.heap) result }
        ensures layout { self.new.heap.layout ≡ self.old.heap.layout }
    {
        match self.heap.take(m) {
            Ok(fault) => {
                let page = fault.page();
                let old = self.hands[m as usize].replace(fault);
                spend(&mut self.heap, old);
                Answer::Fault(page)
            }
            Err(refusal) => Answer::Refused(refusal),
        }
    }

    // What RESOLVE of a fault that is not at hand is refused for.
    fn not_at_hand(&self, buffer: &[u32]) -> Refusal
        ensures { result ≡ (if nat_lt (length buffer.now) (image_words (view H.Host.meaning self.now.heap).memory) then Short else NoFault) }
    {
        if buffer.len() < self.heap.image_words() as usize {
            Refusal::Short
        } else {
            Refusal::NoFault
        }
    }

    // RESOLVE: the fault of a mutator, if it is at hand, is worked off.
    fn resolve(&mut self, m: u32, page: u32, buffer: &mut [u32]) -> Answer
        ensures writes { Writes L.Layout.rules (view H.Host.meaning self.old.heap) buffer.old (Call.Resolve m page (length buffer.old)) (view H.Host.meaning self.new.heap) buffer.new result }
        ensures layout { self.new.heap.layout ≡ self.old.heap.layout }
    {
        if !self.is_at_hand(m, page) {
            return Answer::Refused(self.not_at_hand(buffer));
        }
        match self.hands[m as usize].take() {
            Some(fault) => self.heap.resolve(fault, buffer).map_or_else(
                Answer::Refused,
                |(scanned, copied)| Answer::Scanned(scanned, copied),
            ),
            // Never, for the fault is at hand; `get_mut` and `take_if` need no such arm, but their proof did not close.
            None => Answer::Refused(Refusal::NoFault),
        }
    }

    /// Carries out one call, lent the first words of the buffer.
    pub(crate) fn carry_out(&mut self, buffer: &mut [u32], call: ListedCall) -> Answer
        ensures carries { Carries L.Layout.rules (view H.Host.meaning self.old.heap) buffer.old call (view H.Host.meaning self.new.heap) buffer.new result }
        ensures layout { self.new.heap.layout ≡ self.old.heap.layout }
    {
        match Turn::from(call) {
            Turn::Mutator(call) => runs::carry_out(&mut self.heap, call),
            Turn::Flip => self
                .heap
                .flip()
                .map_or_else(Answer::Refused, Answer::Copied),
            Turn::Step => self
                .heap
                .step()
                .map_or_else(Answer::Refused, |(progress, (scanned, copied))| {
                    Answer::Stepped(progress == Progress::Ended, scanned, copied)
                }),
            Turn::Take { mutator } => self.take(mutator),
            // Each of three arms cuts the buffer, for the proof of a function that lends its first words did not close.
            Turn::Resolve {
                mutator,
                page,
                lent,
            } => {
                let words = lent.min(buffer.len());
                self.resolve(mutator, page, &mut buffer[..words])
            }
            Turn::Mark { lent } => {
                let words = lent.min(buffer.len());
                self.heap
                    .mark(&mut buffer[..words])
                    .map_or_else(Answer::Refused, |()| Answer::Done)
            }
            Turn::Save { lent } => {
                let words = lent.min(buffer.len());
                self.heap
                    .save(&mut buffer[..words])
                    .map_or_else(Answer::Refused, Answer::from)
            }
        }
    }

    /// Spends the faults that are left at hand, which alters no word or right, and ends the heap.
    pub(crate) fn into_parts(self) -> (H, L)
        ensures memory { H.Host.meaning result.0 ≡ (view H.Host.meaning self.heap).memory }
        ensures layout { result.1 ≡ self.heap.layout }
    {
        let Session { mut heap, hands } = self;
        // By name: an array's iterator would drop a fault.
        let [first, second, third, fourth] = hands;
        spend(&mut heap, first);
        spend(&mut heap, second);
        spend(&mut heap, third);
        spend(&mut heap, fourth);
        heap.into_parts()
    }
}
