use super::calls::Call;
use super::differences::{Difference, Stop};
use super::expected::{Phase, Sizes};
use super::hosts::Fresh;
use super::imaging::{Image, check_image, restore_on};
use super::packing::Packing;
use super::performing::spend;
use super::rights::{check_rights, check_unused};
use super::sessions::Session;
use super::tallying::Tally;
use super::walking::{check_graph, check_registers};
use heap::{Fault, Heap};
use layouts::Layout;
use memory::Host;
use std::alloc::Global;

// How a part of a list ended, if there was no difference.
#[derive(Clone, Copy, PartialEq, Eq)]
enum Ending {
    Over,
    /// The list goes on, on the heap that the image restores.
    GoesOn,
}

/// A list of calls on a heap, with the faults that the heap handed out, by mutator. It must be ended, so that no fault is
/// dropped.
pub struct List<'a, H: Host, L: Layout> {
    pub heap: Heap<H, L>,
    pub hands: [Option<Fault>; 4],
    pub session: &'a mut Session,
    pub layout: L,
    /// The calls of each part of the list.
    pub calls: u32,
}

// Compares the image that was just sealed, on hosts of another kind.
fn check_sealed<B: Host + Fresh + Drop, L: Layout + Copy>(
    session: &mut Session,
    layout: L,
) -> Result<(), Stop> {
    session.sealed = false;
    let Some(snapshot) = session.snapshot.take() else {
        let what = "an image that was never marked";
        return Err(Stop::from(Difference::new(what, false, true)));
    };
    let image = Image {
        words: session.buffer.as_slice(),
        expected: &snapshot,
    };
    let random = &mut session.random;
    check_image::<B, L>(session.alloc, layout, image, random, &mut session.tally)?;
    session.snapshot = Some(snapshot);
    Ok(())
}

// Compares the rights of all pages and the unused words of a host that was a heap's.
fn check_host<H: Host>(host: &mut H, session: &Session) -> Result<(), Stop> {
    check_rights(host, session.alloc, &session.expected, &session.watch)?;
    check_unused(host, &session.expected, &session.watch)?;
    Ok(())
}

impl<'a, H: Host + Fresh + Drop, L: Layout + Copy> List<'a, H, L> {
    fn make_call(&mut self, call: Call) -> Result<(), Stop> {
        let found = self.perform(call);
        self.session.judge(call, found)
    }

    // Works a mutator's fault off, the one in hand first.
    fn settle(&mut self, m: u32) -> Result<(), Stop> {
        let lent = self.session.expected.sizes.image();
        for _ in 0..3 {
            let call = match self.page_in_hand(m) {
                Some(page) => Call::Resolve { m, page, lent },
                None if self.session.expected.ledger.waits(m) => Call::Take { m },
                None => break,
            };
            self.make_call(call)?;
        }
        Ok(())
    }

    // Ends a collection or an image.
    fn complete(&mut self) -> Result<(), Stop> {
        let lent = self.session.expected.sizes.image();
        for _ in 0..33 {
            let call = match self.session.expected.ledger.phase {
                Phase::Idle => break,
                Phase::Collecting => Call::Step,
                Phase::Imaging => Call::Save { lent },
            };
            self.make_call(call)?;
        }
        Ok(())
    }

    // Works off all faults, ends what is in progress, and compares the whole heap. Three registers are lost by that.
    fn wind_up(&mut self) -> Result<(), Stop> {
        for m in 0..4 {
            self.settle(m)?;
        }
        self.complete()?;
        let heap = &mut self.heap;
        let session = &mut *self.session;
        check_registers(heap, &session.expected, &mut session.tally)?;
        let random = &mut session.random;
        check_graph(
            heap,
            session.alloc,
            &session.expected,
            random,
            &mut session.tally,
        )
    }

    // Makes the calls of a part of the list. Images are restored on hosts of kind B.
    fn play<B: Host + Fresh + Drop>(&mut self, may_go_on: bool) -> Result<Ending, Stop> {
        for _ in 0..self.calls {
            let call = self.next_call();
            self.make_call(call)?;
            if self.session.sealed {
                check_sealed::<B, L>(self.session, self.layout)?;
                if may_go_on && self.session.random.one_in(2) {
                    return Ok(Ending::GoesOn);
                }
            }
        }
        Ok(Ending::Over)
    }

    // Spends all faults that are left, and ends the heap: its host, and the list's session.
    fn finish(self) -> (H, &'a mut Session) {
        let List {
            mut heap,
            hands,
            session,
            layout: _,
            calls: _,
        } = self;
        // One by one: an iterator over them could drop a fault, which no proof allows.
        let [a, b, c, d] = hands;
        spend(&mut heap, a);
        spend(&mut heap, b);
        spend(&mut heap, c);
        spend(&mut heap, d);
        let (host, _) = heap.into_parts();
        (host, session)
    }

    // Ends the list where it is.
    fn stop(self, stop: Stop) -> Result<(), Stop> {
        let _ = self.finish();
        Err(stop)
    }

    // The end of the list: mostly in the middle of what is in progress, where the rights of all pages are compared, once in
    // three times after all is ended, where all objects are.
    fn end(mut self) -> Result<(), Stop> {
        if self.session.random.one_in(3) {
            let ended = self.wind_up();
            let _ = self.finish();
            return ended;
        }
        let (mut host, session) = self.finish();
        check_host(&mut host, session)
    }

    // The heap that the image in the buffer restores.
    fn restored<B: Host + Fresh + Drop>(&self) -> Result<Heap<B, L>, Stop> {
        let session = &*self.session;
        let words = session.buffer.as_slice();
        restore_on::<B, L>(session.alloc, self.layout, session.expected.sizes, words)
    }

    // The second part of the list, on a restored heap, unless this one's host differs. The faults in hand are those of this
    // heap.
    fn go_on<B: Host + Fresh + Drop>(self, restored: Heap<B, L>) -> Result<(), Stop> {
        let List {
            heap,
            hands,
            session,
            layout,
            calls,
        } = self;
        let (mut host, _) = heap.into_parts();
        let checked = check_host(&mut host, session);
        session.resume();
        let mut list = List {
            heap: restored,
            hands,
            session,
            layout,
            calls,
        };
        let ending = match checked {
            Ok(()) => list.play::<H>(false),
            Err(stop) => Err(stop),
        };
        match ending {
            Ok(_) => list.end(),
            Err(stop) => list.stop(stop),
        }
    }

    // Plays the list, in most cases with a second part.
    fn run<B: Host + Fresh + Drop>(mut self) -> Result<(), Stop> {
        let resumes = !self.session.random.one_in(3);
        match self.play::<B>(resumes) {
            Ok(Ending::Over) => self.end(),
            Ok(Ending::GoesOn) => match self.restored::<B>() {
                Ok(restored) => self.go_on(restored),
                Err(stop) => self.stop(stop),
            },
            Err(stop) => self.stop(stop),
        }
    }
}

/// A group of lists: the sizes, the packing of the layout, how many lists, the first seed, and the calls of each part of a
/// list.
#[derive(Clone, Copy)]
pub struct Group {
    pub sizes: Sizes,
    pub packing: Packing,
    pub lists: u32,
    pub seed: u32,
    pub calls: u32,
}

// A list on a host of kind A; its images are restored on hosts of kind B.
fn run_list<A: Host + Fresh + Drop, B: Host + Fresh + Drop, L: Layout + Copy>(
    session: &mut Session,
    layout: L,
    calls: u32,
) -> Result<(), Stop> {
    let sizes = session.expected.sizes;
    let host = A::fresh(session.alloc, sizes.pages(), sizes.page)?;
    let heap = Heap::make(host, layout).map_err(|rejected| Difference::refused(
        "MAKE",
        rejected.refusal,
    ))?;
    let list = List {
        heap,
        hands: [None, None, None, None],
        session,
        layout,
        calls,
    };
    list.run::<B>()
}

// Runs a list, and prints a difference.
fn print_list<A: Host + Fresh + Drop, B: Host + Fresh + Drop, L: Layout + Copy>(
    rt: &impl Print,
    alloc: Global,
    layout: L,
    group: Group,
    seed: u32,
    tally: &mut Tally,
) -> anyhow::Result<()> {
    let mut session = Session::new(alloc, group.sizes, group.packing, seed)?;
    let played = run_list::<A, B, L>(&mut session, layout, group.calls);
    session.tally.lists = 1;
    match played {
        Ok(()) => {}
        Err(Stop::Differs(difference)) => {
            session.tally.differences = 1;
            let call = session.number;
            println!(rt; "  DIFFERENCE: seed {seed}, call {call}, {difference}")?;
        }
        Err(Stop::Failed(error)) => return Err(error),
    }
    tally.add(&session.tally);
    Ok(())
}

/// The lists of a group.
pub fn run_group<A: Host + Fresh + Drop, B: Host + Fresh + Drop, L: Layout + Copy>(
    rt: &impl Print,
    alloc: Global,
    name: &str,
    layout: L,
    group: Group,
    total: &mut Tally,
) -> anyhow::Result<()> {
    let mut tally = Tally::default();
    let pages = group.sizes.pages();
    let size = group.sizes.page;
    let number = layout.number();
    let first = group.seed;
    let last = first.saturating_add(group.lists).saturating_sub(1);
    println!(rt;
        "{name}, layout {number}, {pages} pages of {size} words, seeds {first} to {last}"
    )?;
    for k in 0..group.lists {
        let seed = first.wrapping_add(k);
        print_list::<A, B, L>(rt, alloc, layout, group, seed, &mut tally)?;
    }
    tally.print(rt)?;
    total.add(&tally);
    Ok(())
}
