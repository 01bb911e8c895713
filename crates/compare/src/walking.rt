use super::calls::{Call, Reason, Refused, Reply};
use super::differences::{Difference, Stop, differ};
use super::expected::{Expected, place};
use super::objects::{Item, Reached, Route, reach_from};
use super::performing::{call_mutator, call_step};
use super::random::Random;
use super::tallying::Tally;
use heap::Heap;
use layouts::Layout;
use memory::Host;
use std::alloc::{AllocError, Global};

// Makes a call, and compares its answer with the expected one.
fn expect<H: Host, L: Layout>(
    heap: &mut Heap<H, L>,
    tally: &mut Tally,
    what: &'static str,
    call: Call,
    expected: Reply,
) -> Result<(), Difference> {
    let found = call_mutator(heap, call);
    tally.count_compared(1);
    differ(what, expected, found)
}

/// Compares what each register is told to hold.
pub fn check_registers<H: Host, L: Layout>(
    heap: &mut Heap<H, L>,
    expected: &Expected,
    tally: &mut Tally,
) -> Result<(), Difference> {
    for (k, item) in (0..32u32).zip(expected.ledger.registers.iter()) {
        let tell = Call::Tell { m: k / 8, s: k % 8 };
        expect(heap, tally, "a register", tell, Reply::from(*item))?;
    }
    Ok(())
}

// Three registers of a mutator that a walk uses: for an object, for what a slot of it holds, and for the object that the slot
// must hold.
#[derive(Clone, Copy)]
struct Walker {
    m: u32,
    object: u32,
    slot: u32,
    target: u32,
}

impl Walker {
    fn drawn(random: &mut Random) -> Walker {
        let first = random.below(6);
        Walker {
            m: random.below(4),
            object: first,
            slot: first.wrapping_add(1),
            target: first.wrapping_add(2),
        }
    }

    fn registers(self) -> [u32; 3] {
        [self.object, self.slot, self.target]
    }

    // A LOAD of a slot of the object.
    fn load(self, i: u32) -> Call {
        Call::Load {
            m: self.m,
            d: self.slot,
            s: self.object,
            i,
        }
    }
}

// A walk over all objects that registers reach. The heap and the tally stand beside it, for the loop over `found` did not
// prove with both in it: the borrow checker has no rule for it.
#[derive(Drop)]
struct Walk {
    alloc: Global,
    walker: Walker,
    found: Reached,
}

// The slots on the way from a register to an object, the last one first, and the register.
fn way_to(heap: Global, found: &Reached, object: u32) -> Result<(Vec<u32>, u32), AllocError> {
    let mut way = Vec::new(heap);
    let mut at = object;
    // The count is only a bound: a way passes each object once.
    for _ in 0..found.order.len().saturating_add(1) {
        match found.route(at) {
            Some(Route::Register(k)) => return Ok((way, k)),
            Some(Route::Slot { object, slot }) => {
                way.push(slot)?;
                at = object;
            }
            None => break,
        }
    }
    Ok((way, 0))
}

impl Walk {
    // Brings an object to a register, by the way that it is reached.
    fn bring<H: Host, L: Layout>(
        &self,
        heap: &mut Heap<H, L>,
        object: u32,
        d: u32,
    ) -> Result<(), AllocError> {
        let m = self.walker.m;
        let (way, k) = way_to(self.alloc, &self.found, object)?;
        let _ = heap.copy(m, d, k / 8, k % 8);
        for slot in way.iter().rev() {
            let _ = heap.load(m, d, d, *slot);
        }
        Ok(())
    }

    // Compares a slot of the object that the walker has.
    fn check_slot<H: Host, L: Layout>(
        &self,
        heap: &mut Heap<H, L>,
        tally: &mut Tally,
        i: u32,
        item: Item,
    ) -> Result<(), Stop> {
        let Walker {
            m,
            slot,
            target,
            ..
        } = self.walker;
        let load = self.walker.load(i);
        let tell = Call::Tell { m, s: slot };
        let loaded = expect(heap, tally, "a LOAD of the walk", load, Reply::Done);
        let told = expect(heap, tally, "a slot", tell, Reply::from(item));
        let Item::Object(object) = item else {
            loaded?;
            return Ok(told?);
        };
        self.bring(heap, object, target)?;
        let same = Call::Same {
            m,
            a: slot,
            b: target,
        };
        let one = expect(heap, tally, "an object in a slot", same, Reply::Same(true));
        loaded?;
        told?;
        Ok(one?)
    }

    // Compares an object: every slot, and that there is none behind them.
    fn check_object<H: Host, L: Layout>(
        &self,
        heap: &mut Heap<H, L>,
        tally: &mut Tally,
        expected: &Expected,
        object: u32,
    ) -> Result<(), Stop> {
        self.bring(heap, object, self.walker.object)?;
        let slots = expected.objects.shape(object).slots;
        for (i, item) in (0..slots).zip(expected.objects.slots(object).iter()) {
            self.check_slot(heap, tally, i, *item)?;
        }
        let behind = self.walker.load(slots);
        let refused = Reply::Refused(Refused::from(Reason::Slot));
        Ok(expect(heap, tally, "a slot too many", behind, refused)?)
    }
}

// Collects, and compares the words copied with those that are reached: no two objects are one.
fn check_words<H: Host, L: Layout>(heap: &mut Heap<H, L>, words: u32) -> Result<(), Difference> {
    let mut copied = heap.flip().map_err(|refusal| Difference::refused(
        "the last FLIP is refused",
        refusal,
    ))?;
    for _ in 0..33 {
        let found = call_step(heap).map_err(|refusal| Difference::refused(
            "the last STEP is refused",
            refusal,
        ))?;
        copied = copied.saturating_add(found.work.copied);
        if found.reply == (Reply::Stepped { ended: true }) {
            break;
        }
    }
    differ("words reached", words, copied)
}

/// Compares all objects that the registers reach, on an idle heap whose mutators run. Three registers are lost by that.
pub fn check_graph<H: Host, L: Layout>(
    heap: &mut Heap<H, L>,
    alloc: Global,
    expected: &Expected,
    random: &mut Random,
    tally: &mut Tally,
) -> Result<(), Stop> {
    let walker = Walker::drawn(random);
    let mut registers = expected.ledger.registers;
    for d in walker.registers() {
        registers[place(walker.m, d)] = Item::Nil;
        let _ = heap.set_nil(walker.m, d);
    }
    let walk = Walk {
        alloc,
        walker,
        found: reach_from(alloc, &expected.objects, &registers)?,
    };
    for object in walk.found.order.iter() {
        walk.check_object(heap, tally, expected, *object)?;
    }
    check_words(heap, walk.found.words)?;
    Ok(())
}
