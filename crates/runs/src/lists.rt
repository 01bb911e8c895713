ghost use Rattle.std.specs.Prelude.{◌≡◌};
ghost use Rattle.heap.specs.View.{view};
ghost use Rattle.heap.specs.Effects.{Does};
ghost use Rattle.runs.specs.Lists.{as_call, HasPlaces, Ran};

use heap::Heap;
use layouts::Layout;
use memory::{Host, Refusal, Rejected};
use model::{Answer, Call};

/// A mutator's call, with its arguments.
#[derive(Clone, Copy, Debug, PartialEq, Eq)]
pub enum MutatorCall {
    New {
        mutator: u32,
        register: u32,
        references: u32,
        numbers: u32,
    },
    Load {
        mutator: u32,
        register: u32,
        object: u32,
        slot: u32,
    },
    Store {
        mutator: u32,
        object: u32,
        slot: u32,
        value: u32,
    },
    Copy {
        mutator: u32,
        register: u32,
        source: u32,
        from: u32,
    },
    SetNumber {
        mutator: u32,
        register: u32,
        number: u32,
    },
    SetNil {
        mutator: u32,
        register: u32,
    },
    Same {
        mutator: u32,
        left: u32,
        right: u32,
    },
    Tell {
        mutator: u32,
        register: u32,
    },
    Count,
}

/// A mutator's call among all calls.
impl From<MutatorCall> for Call {
    ghost from_gives = { λ call listed. listed ≡ as_call call };

    fn from(call: MutatorCall) -> Call {
        match call {
            MutatorCall::New {
                mutator,
                register,
                references,
                numbers,
            } => Call::New {
                mutator,
                register,
                references,
                numbers,
            },
            MutatorCall::Load {
                mutator,
                register,
                object,
                slot,
            } => Call::Load {
                mutator,
                register,
                object,
                slot,
            },
            MutatorCall::Store {
                mutator,
                object,
                slot,
                value,
            } => Call::Store {
                mutator,
                object,
                slot,
                value,
            },
            MutatorCall::Copy {
                mutator,
                register,
                source,
                from,
            } => Call::Copy {
                mutator,
                register,
                source,
                from,
            },
            MutatorCall::SetNumber {
                mutator,
                register,
                number,
            } => Call::SetNumber {
                mutator,
                register,
                number,
            },
            MutatorCall::SetNil { mutator, register } => Call::SetNil { mutator, register },
            MutatorCall::Same {
                mutator,
                left,
                right,
            } => Call::Same {
                mutator,
                left,
                right,
            },
            MutatorCall::Tell { mutator, register } => Call::Tell { mutator, register },
            MutatorCall::Count => Call::Count,
        }
    }
}

/// Carries out one call.
// Inlined, so that a list of all calls tells its calls apart once, and not a second time in here.
#[inline(always)]
pub fn carry_out<H: Host, L: Layout>(heap: &mut Heap<H, L>, call: MutatorCall) -> Answer
    ensures does { Does L.Layout.rules (view H.Host.meaning heap.old) (as_call call) (view H.Host.meaning heap.new) result }
    ensures layout { heap.new.layout ≡ heap.old.layout }
{
    match call {
        MutatorCall::New {
            mutator,
            register,
            references,
            numbers,
        } => heap
            .new_object(mutator, register, references, numbers)
            .map_or_else(Answer::Refused, Answer::from),
        MutatorCall::Load {
            mutator,
            register,
            object,
            slot,
        } => heap
            .load(mutator, register, object, slot)
            .map_or_else(Answer::Refused, Answer::from),
        MutatorCall::Store {
            mutator,
            object,
            slot,
            value,
        } => heap
            .store(mutator, object, slot, value)
            .map_or_else(Answer::Refused, Answer::from),
        MutatorCall::Copy {
            mutator,
            register,
            source,
            from,
        } => heap
            .copy(mutator, register, source, from)
            .map_or_else(Answer::Refused, |()| Answer::Done),
        MutatorCall::SetNumber {
            mutator,
            register,
            number,
        } => heap
            .set_number(mutator, register, number)
            .map_or_else(Answer::Refused, |()| Answer::Done),
        MutatorCall::SetNil { mutator, register } => heap
            .set_nil(mutator, register)
            .map_or_else(Answer::Refused, |()| Answer::Done),
        MutatorCall::Same {
            mutator,
            left,
            right,
        } => heap
            .same(mutator, left, right)
            .map_or_else(Answer::Refused, Answer::Same),
        MutatorCall::Tell { mutator, register } => heap
            .tell(mutator, register)
            .map_or_else(Answer::Refused, Answer::Kind),
        MutatorCall::Count => Answer::Count(heap.count()),
    }
}

/// Refuses fewer places for answers than calls, with host and layout given back. An odd page count is left to what refuses it
/// first.
pub fn check_places<H: Host, L>(
    host: H,
    layout: L,
    calls: usize,
    places: usize,
) -> Result<(H, L), Rejected<(H, L)>>
    ensures { HasPlaces H.Host.meaning host layout calls places result }
{
    if host.page_count() % 2 == 0 && places < calls {
        return Err(Rejected {
            refusal: Refusal::Short,
            given: (host, layout),
        });
    }
    Ok((host, layout))
}

// Not by `run` of all calls: a list of another type, with a promise of its own, for a body of five lines.

/// Makes a heap on a host, carries out a list of calls, and writes an answer to each into the places for answers. They are the
/// answers of a heap that never moves an object. Host and layout come back.
///
/// Refused, with nothing altered, for an odd page count, then for fewer places than calls. The buffer is lent to the calls that
/// write images; none of these does, and it stays as it is.
pub fn run<H: Host, L: Layout>(
    host: H,
    layout: L,
    calls: &[MutatorCall],
    buffer: &mut [u32],
    answers: &mut [Answer],
) -> Result<(H, L), Rejected<(H, L)>>
    ensures ran { Ran L.Layout.rules H.Host.meaning host layout calls.now answers.old answers.new result }
    ensures buffer { buffer.new ≡ buffer.old }
{
    let (host, layout) = check_places(host, layout, calls.len(), answers.len())?;
    let mut heap = Heap::make(host, layout)?;
    // By index, for no invariant can name the places behind a `zip` with their `iter_mut`.
    for (i, call) in calls.iter().enumerate() {
        answers[i] = carry_out(&mut heap, *call);
    }
    Ok(heap.into_parts())
}
