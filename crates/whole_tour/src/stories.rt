use super::answers::{of_resolve, of_step};
use anyhow::anyhow;
use heap::Heap;
use layouts::Layout;
use memory::{Host, Refusal};
use model::Answer;
use std::alloc::{AllocError, Global};
use tariff::{Line, words};

// The words that an image of the stories' heaps takes: 70, and 128 of a half.
const IMAGE_WORDS: usize = 198;

/// A heap, a buffer lent to its calls, and the calls made so far.
pub struct Story<H: Host, L: Layout> {
    heap: Heap<H, L>,
    buffer: Vec<u32>,
    lines: Vec<Line>,
}

/// What a story leaves: the buffer, its calls, and what was found.
#[derive(Drop)]
pub struct Told<T> {
    pub buffer: Vec<u32>,
    pub lines: Vec<Line>,
    pub found: T,
}

impl<H: Host, L: Layout> Story<H, L> {
    // A story on a heap, with no call made yet.
    fn of(heap: Heap<H, L>, buffer: Vec<u32>, alloc: Global) -> Story<H, L> {
        Story {
            heap,
            buffer,
            lines: Vec::new(alloc),
        }
    }

    /// A story on a fresh heap over a host, with no call made yet.
    pub fn on(alloc: Global, host: H, layout: L) -> anyhow::Result<Story<H, L>>
    where
        H: Drop,
        L: Drop,
    {
        let buffer = words(alloc, IMAGE_WORDS)?;
        let heap = Heap::make(host, layout).map_err(|_| anyhow!("no heap"))?;
        Ok(Story::of(heap, buffer, alloc))
    }

    /// The same on a heap that is restored from an image.
    pub fn from_image(
        alloc: Global,
        host: H,
        layout: L,
        image: &[u32],
    ) -> anyhow::Result<Story<H, L>>
    where
        H: Drop,
        L: Drop,
    {
        let buffer = words(alloc, IMAGE_WORDS)?;
        let heap = Heap::restore(host, layout, image).map_err(|_| anyhow!("an image refused"))?;
        Ok(Story::of(heap, buffer, alloc))
    }

    /// Ends the story and its heap, with what was found.
    pub fn end<T: Drop>(self, found: Result<T, AllocError>) -> Result<Told<T>, AllocError>
    where
        H: Drop,
        L: Drop,
    {
        let Story {
            heap,
            buffer,
            lines,
        } = self;
        let _ = heap.into_parts();
        Ok(Told {
            buffer,
            lines,
            found: found?,
        })
    }

    // Adds a line with what a call answered, of which `answer` says what it means if the call was not refused.
    fn add<T, F: FnOnce(T) -> Answer>(
        &mut self,
        call: &'static str,
        purpose: &'static str,
        res: Result<T, Refusal>,
        answer: F,
    ) -> Result<Answer, AllocError>
        requires { F.IsAlwaysCallable answer }
    {
        let answer = res.map_or_else(Answer::Refused, answer);
        self.lines.push(Line {
            call,
            purpose,
            answer,
        })?;
        Ok(answer)
    }

    pub fn new_object(
        &mut self,
        purpose: &'static str,
        m: u32,
        d: u32,
        r: u32,
        w: u32,
    ) -> Result<Answer, AllocError> {
        let made = self.heap.new_object(m, d, r, w);
        self.add("NEW", purpose, made, Answer::from)
    }

    pub fn load(
        &mut self,
        purpose: &'static str,
        m: u32,
        d: u32,
        s: u32,
        i: u32,
    ) -> Result<Answer, AllocError> {
        let loaded = self.heap.load(m, d, s, i);
        self.add("LOAD", purpose, loaded, Answer::from)
    }

    pub fn store(
        &mut self,
        purpose: &'static str,
        m: u32,
        s: u32,
        i: u32,
        v: u32,
    ) -> Result<Answer, AllocError> {
        let stored = self.heap.store(m, s, i, v);
        self.add("STORE", purpose, stored, Answer::from)
    }

    pub fn copy(
        &mut self,
        purpose: &'static str,
        m: u32,
        d: u32,
        f: u32,
        s: u32,
    ) -> Result<Answer, AllocError> {
        let copied = self.heap.copy(m, d, f, s);
        self.add("COPY", purpose, copied, |()| Answer::Done)
    }

    pub fn set_number(
        &mut self,
        purpose: &'static str,
        m: u32,
        d: u32,
        n: u32,
    ) -> Result<Answer, AllocError> {
        let set = self.heap.set_number(m, d, n);
        self.add("SETNUM", purpose, set, |()| Answer::Done)
    }

    pub fn set_nil(&mut self, purpose: &'static str, m: u32, d: u32) -> Result<Answer, AllocError> {
        let set = self.heap.set_nil(m, d);
        self.add("SETNIL", purpose, set, |()| Answer::Done)
    }

    pub fn same(
        &mut self,
        purpose: &'static str,
        m: u32,
        a: u32,
        b: u32,
    ) -> Result<Answer, AllocError> {
        let equal = self.heap.same(m, a, b);
        self.add("SAME", purpose, equal, Answer::Same)
    }

    pub fn tell(&mut self, purpose: &'static str, m: u32, s: u32) -> Result<Answer, AllocError> {
        let kind = self.heap.tell(m, s);
        self.add("TELL", purpose, kind, Answer::Kind)
    }

    pub fn count(&mut self, purpose: &'static str) -> Result<Answer, AllocError> {
        let count = self.heap.count();
        self.add("COUNT", purpose, Ok(count), Answer::Count)
    }

    pub fn flip(&mut self, purpose: &'static str) -> Result<Answer, AllocError> {
        let copied = self.heap.flip();
        self.add("FLIP", purpose, copied, Answer::Copied)
    }

    pub fn step(&mut self, purpose: &'static str) -> Result<Answer, AllocError> {
        let stepped = self.heap.step();
        self.add("STEP", purpose, stepped, of_step)
    }

    pub fn mark(&mut self, purpose: &'static str) -> Result<Answer, AllocError> {
        let marked = self.heap.mark(self.buffer.as_mut_slice());
        self.add("MARK", purpose, marked, |()| Answer::Done)
    }

    pub fn save(&mut self, purpose: &'static str) -> Result<Answer, AllocError> {
        let seal = self.heap.save(self.buffer.as_mut_slice());
        self.add("SAVE", purpose, seal, Answer::from)
    }

    /// TAKE and RESOLVE. The fault is spent before a line is added, which may fail.
    pub fn serve(
        &mut self,
        taken: &'static str,
        resolved: &'static str,
        m: u32,
    ) -> Result<Answer, AllocError> {
        match self.heap.take(m) {
            Ok(fault) => {
                let page = fault.page();
                let work = self.heap.resolve(fault, self.buffer.as_mut_slice());
                self.add("TAKE", taken, Ok(page), Answer::Fault)?;
                self.add("RESOLVE", resolved, work, of_resolve)
            }
            Err(refusal) => self.add("TAKE", taken, Err(refusal), Answer::Fault),
        }
    }

    /// STEPs until one ends the collection; there are at most 64 pages to scan.
    pub fn step_to_the_end(&mut self, purpose: &'static str) -> Result<(), AllocError> {
        for _ in 0..64u32 {
            if !matches!(self.step(purpose)?, Answer::Stepped(false, _, _)) {
                break;
            }
        }
        Ok(())
    }

    /// SAVEs until one seals the image; there are at most 64 pages to save.
    pub fn save_to_the_end(&mut self, purpose: &'static str) -> Result<(), AllocError> {
        for _ in 0..64u32 {
            if self.save(purpose)? != Answer::Saved(false) {
                break;
            }
        }
        Ok(())
    }
}

/// Prints a story, a line for each call.
pub fn show_lines(rt: &impl Print, lines: &[Line]) -> anyhow::Result<()> {
    for line in lines {
        println!(rt; "  {line}")?;
    }
    Ok(())
}

/// The words scanned and the words copied by all calls of a story.
pub fn totals(lines: &[Line]) -> (u32, u32) {
    lines.iter().fold((0u32, 0u32), |(scanned, copied), line| {
        let (s, c) = match line.answer {
            Answer::Copied(c) => (0, c),
            Answer::Scanned(s, c) | Answer::Stepped(_, s, c) => (s, c),
            _ => (0, 0),
        };
        (scanned.saturating_add(s), copied.saturating_add(c))
    })
}
