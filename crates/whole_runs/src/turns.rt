ghost use Rattle.std.specs.Prelude.{◌≡◌};
ghost use Rattle.whole_runs.specs.Calls.{turn_call};

use model::Call;
use runs::MutatorCall;

/// A call of a list, by what carries it out: the mutators' calls are together.
#[derive(Clone, Copy)]
pub(crate) enum Turn {
    Mutator(MutatorCall),
    Flip,
    Step,
    Take {
        mutator: u32,
    },
    Resolve {
        mutator: u32,
        page: u32,
        lent: usize,
    },
    Mark {
        lent: usize,
    },
    Save {
        lent: usize,
    },
}

impl From<Call> for Turn {
    ghost from_gives = { λ call turn. turn_call turn ≡ call };

    fn from(call: Call) -> Turn {
        match call {
            Call::New {
                mutator,
                register,
                references,
                numbers,
            } => Turn::Mutator(MutatorCall::New {
                mutator,
                register,
                references,
                numbers,
            }),
            Call::Load {
                mutator,
                register,
                object,
                slot,
            } => Turn::Mutator(MutatorCall::Load {
                mutator,
                register,
                object,
                slot,
            }),
            Call::Store {
                mutator,
                object,
                slot,
                value,
            } => Turn::Mutator(MutatorCall::Store {
                mutator,
                object,
                slot,
                value,
            }),
            Call::Copy {
                mutator,
                register,
                source,
                from,
            } => Turn::Mutator(MutatorCall::Copy {
                mutator,
                register,
                source,
                from,
            }),
            Call::SetNumber {
                mutator,
                register,
                number,
            } => Turn::Mutator(MutatorCall::SetNumber {
                mutator,
                register,
                number,
            }),
            Call::SetNil { mutator, register } => {
                Turn::Mutator(MutatorCall::SetNil { mutator, register })
            }
            Call::Same {
                mutator,
                left,
                right,
            } => Turn::Mutator(MutatorCall::Same {
                mutator,
                left,
                right,
            }),
            Call::Tell { mutator, register } => {
                Turn::Mutator(MutatorCall::Tell { mutator, register })
            }
            Call::Count => Turn::Mutator(MutatorCall::Count),
            Call::Flip => Turn::Flip,
            Call::Step => Turn::Step,
            Call::Take { mutator } => Turn::Take { mutator },
            Call::Resolve {
                mutator,
                page,
                lent,
            } => Turn::Resolve {
                mutator,
                page,
                lent,
            },
            Call::Mark { lent } => Turn::Mark { lent },
            Call::Save { lent } => Turn::Save { lent },
        }
    }
}
