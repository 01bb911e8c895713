ghost use Rattle.std.specs.Prelude.{◌≡◌, ℕ, ◌+◌, ◌-◌, ◌<◌, ◌≤◌, Ok, Err};
ghost use Rattle.memory.specs.Memory.{after_put};
ghost use Rattle.memory.specs.declared.refusals.Refusal.TheVariants.{Shape};
ghost use Rattle.model.specs.Heap.{to_start, with_memory, with_new_start};
ghost use Rattle.model.specs.Scanning.{lowest};
ghost use Rattle.state.specs.View.{unsaved_view};
ghost use Rattle.model.specs.Objects.{initial};
ghost use Rattle.model.specs.Mutators.{slots_put, has_room, unsaved_in};
ghost use Rattle.model.specs.declared.calls.Call.TheVariants as Call;
ghost use Rattle.heap.specs.View.{view};
ghost use Rattle.heap.specs.Effects.{Does, access_answer};

use super::heap_state::{Access, Heap};
use collector::packed_word;
use images::lowest_unsaved;
use layouts::{Layout, Value};
use memory::{Host, Refusal};
use model::Phase;
use state::{Held, MutatorName, RegisterName, ToAddress, pages_for, start_of_half};
use words::{page_words, put_behind};

// What a slot of a new object holds.
fn initial_value(references: u32, slot: u32) -> Value
    ensures { result ≡ initial references slot }
{
    if slot < references {
        Value::Nil
    } else {
        Value::Number(0)
    }
}

// The header of a new object, if it has at most 255 slots.
fn new_header<L: Layout>(layout: &L, references: u32, numbers: u32) -> Result<u32, Refusal>
    ensures { elim result [ Ok x ↦ (references + numbers ≤ 255) × (x ≡ L.Layout.rules.header references numbers) | Err e ↦ (255 < references + numbers) × (e ≡ Shape) ] }
{
    layout.header(references, numbers)
}

// Writes a new object: its header, then its first slots nil and the others number 0.
fn put_object<H: Host, L: Layout>(
    host: &mut H,
    layout: &L,
    header: u32,
    at: u32,
    references: u32,
    slots: u32,
)
    requires { slots ≤ 255 }
    ensures { H.Host.meaning host.new ≡ slots_put L.Layout.rules slots (after_put (H.Host.meaning host.old) at header) header at references }
{
    let _ = host.put(at, header);
    for i in 0..slots {
        let word = packed_word(layout, header, i, initial_value(references, i));
        let _ = put_behind(host, at, i + 1, word);
    }
}

impl<H: Host, L: Layout> Heap<H, L> {
    // The first word of to-space.
    fn to_start(&self) -> u32
        ensures value { result ≡ to_start (view H.Host.meaning self.now) }
        ensures few { result ≤ 8192 }
    {
        start_of_half(&self.host, self.plain.half)
    }

    // Whether so many words find space below the new objects.
    fn has_room(&self, words: u32) -> bool
        ensures { result ≡ has_room (view H.Host.meaning self.now) words }
    {
        let limit = match self.plain.phase {
            Phase::Collecting => self.to_start()
                + pages_for(&self.host, self.plain.flip_used) * page_words(&self.host),
            Phase::Idle | Phase::Imaging => self.plain.space.copy_end,
        };
        limit.saturating_add(words) <= self.plain.new_start
    }

    // The lowest page that these words touch and that the image in progress has yet to save: it cannot be written.
    fn unsaved_page(&self, at: u32, words: u32) -> Option<u32>
        ensures { result ≡ unsaved_in (view H.Host.meaning self.now) at words self.now.plain.phase }
    {
        let Phase::Imaging = self.plain.phase else {
            return None;
        };
        let size = page_words(&self.host);
        let last = at.saturating_add(words.saturating_sub(1)) / size;
        lowest_unsaved(&self.plain.unsaved, at / size, last.saturating_add(1))
    }

    // Writes a new object below the others.
    fn place(&mut self, header: u32, at: u32, references: u32, slots: u32)
        requires { slots ≤ 255 }
        ensures after { view H.Host.meaning self.new ≡ with_new_start (with_memory (view H.Host.meaning self.old) (slots_put L.Layout.rules slots (after_put (view H.Host.meaning self.old).memory at header) header at references)) at }
        ensures layout { self.new.layout ≡ self.old.layout }
    {
        put_object(&mut self.host, &self.layout, header, at, references, slots);
        self.plain.new_start = at;
    }

    /// NEW: places an object with r slots meant for references, nil at first, and w for numbers, 0 at first, below the
    /// others, and puts its reference into register d.
    pub fn new_object(&mut self, m: u32, d: u32, r: u32, w: u32) -> Result<Access, Refusal>
        ensures does { Does L.Layout.rules (view H.Host.meaning self.old) (Call.New m d r w) (view H.Host.meaning self.new) (access_answer result) }
        ensures layout { self.new.layout ≡ self.old.layout }
    {
        let m = MutatorName::try_from(m)?;
        let d = RegisterName::try_from(d)?;
        let header = new_header(&self.layout, r, w)?;
        if !self.plain.runs(m) {
            return Err(Refusal::Waits);
        }
        let words = r + w + 1;
        if !self.has_room(words) {
            return Err(Refusal::NoSpace);
        }
        let at = self.plain.new_start.saturating_sub(words);
        match self.unsaved_page(at, words) {
            Some(page) => {
                self.trap(m, page);
                Ok(Access::Trapped(page))
            }
            None => {
                self.place(header, at, r, r + w);
                self.hold(m, d, Held::Reference(ToAddress(at)));
                Ok(Access::Done)
            }
        }
    }
}
