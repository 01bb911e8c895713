use runs::MutatorCall;

/// How many calls the tariff takes.
pub const CALLS: usize = 26;

// A call of the tariff, and what it is for.
#[derive(Clone, Copy)]
pub(crate) struct Entry {
    pub(crate) purpose: &'static str,
    pub(crate) call: MutatorCall,
}

// A zone has slot 0 for the zone around it and slot 1 for its tariff number.
pub(crate) const TARIFF: [Entry; CALLS] = [
    Entry {
        purpose: "mutator 0 makes the city, a zone",
        call: MutatorCall::New {
            mutator: 0,
            register: 0,
            references: 1,
            numbers: 1,
        },
    },
    Entry {
        purpose: "a tariff number",
        call: MutatorCall::SetNumber {
            mutator: 0,
            register: 7,
            number: 19,
        },
    },
    Entry {
        purpose: "which is the city's",
        call: MutatorCall::Store {
            mutator: 0,
            object: 0,
            slot: 1,
            value: 7,
        },
    },
    Entry {
        purpose: "it makes the market, a zone",
        call: MutatorCall::New {
            mutator: 0,
            register: 1,
            references: 1,
            numbers: 1,
        },
    },
    Entry {
        purpose: "which lies in the city",
        call: MutatorCall::Store {
            mutator: 0,
            object: 1,
            slot: 0,
            value: 0,
        },
    },
    Entry {
        purpose: "another tariff number",
        call: MutatorCall::SetNumber {
            mutator: 0,
            register: 7,
            number: 7,
        },
    },
    Entry {
        purpose: "which is the market's",
        call: MutatorCall::Store {
            mutator: 0,
            object: 1,
            slot: 1,
            value: 7,
        },
    },
    Entry {
        purpose: "it makes the harbour, a zone",
        call: MutatorCall::New {
            mutator: 0,
            register: 2,
            references: 1,
            numbers: 1,
        },
    },
    Entry {
        purpose: "which lies in the city too",
        call: MutatorCall::Store {
            mutator: 0,
            object: 2,
            slot: 0,
            value: 0,
        },
    },
    Entry {
        purpose: "and has the market's tariff",
        call: MutatorCall::Store {
            mutator: 0,
            object: 2,
            slot: 1,
            value: 7,
        },
    },
    Entry {
        purpose: "a rule, mutator 1, looks at the market",
        call: MutatorCall::Copy {
            mutator: 1,
            register: 0,
            source: 0,
            from: 1,
        },
    },
    Entry {
        purpose: "and at the harbour",
        call: MutatorCall::Copy {
            mutator: 1,
            register: 1,
            source: 0,
            from: 2,
        },
    },
    Entry {
        purpose: "are they one and the same zone?",
        call: MutatorCall::Same {
            mutator: 1,
            left: 0,
            right: 1,
        },
    },
    Entry {
        purpose: "the zone around the market",
        call: MutatorCall::Load {
            mutator: 1,
            register: 2,
            object: 0,
            slot: 0,
        },
    },
    Entry {
        purpose: "the zone around the harbour",
        call: MutatorCall::Load {
            mutator: 1,
            register: 3,
            object: 1,
            slot: 0,
        },
    },
    Entry {
        purpose: "are these one and the same?",
        call: MutatorCall::Same {
            mutator: 1,
            left: 2,
            right: 3,
        },
    },
    Entry {
        purpose: "the market's tariff",
        call: MutatorCall::Load {
            mutator: 1,
            register: 4,
            object: 0,
            slot: 1,
        },
    },
    Entry {
        purpose: "the harbour's tariff",
        call: MutatorCall::Load {
            mutator: 1,
            register: 5,
            object: 1,
            slot: 1,
        },
    },
    Entry {
        purpose: "are the numbers equal?",
        call: MutatorCall::Same {
            mutator: 1,
            left: 4,
            right: 5,
        },
    },
    Entry {
        purpose: "what is it?",
        call: MutatorCall::Tell {
            mutator: 1,
            register: 4,
        },
    },
    Entry {
        purpose: "no mutator 4",
        call: MutatorCall::SetNil {
            mutator: 4,
            register: 0,
        },
    },
    Entry {
        purpose: "no object of 256 slots",
        call: MutatorCall::New {
            mutator: 1,
            register: 6,
            references: 200,
            numbers: 56,
        },
    },
    Entry {
        purpose: "nothing loaded from nil",
        call: MutatorCall::Load {
            mutator: 1,
            register: 6,
            object: 6,
            slot: 0,
        },
    },
    Entry {
        purpose: "a zone has no slot 2",
        call: MutatorCall::Load {
            mutator: 1,
            register: 6,
            object: 0,
            slot: 2,
        },
    },
    Entry {
        purpose: "no room for 120 words and more",
        call: MutatorCall::New {
            mutator: 1,
            register: 6,
            references: 0,
            numbers: 119,
        },
    },
    Entry {
        purpose: "how often did a call trap?",
        call: MutatorCall::Count,
    },
];

impl Entry {
    // The name of the call.
    pub(crate) fn name(&self) -> &'static str {
        match self.call {
            MutatorCall::New { .. } => "NEW",
            MutatorCall::Load { .. } => "LOAD",
            MutatorCall::Store { .. } => "STORE",
            MutatorCall::Copy { .. } => "COPY",
            MutatorCall::SetNumber { .. } => "SETNUM",
            MutatorCall::SetNil { .. } => "SETNIL",
            MutatorCall::Same { .. } => "SAME",
            MutatorCall::Tell { .. } => "TELL",
            MutatorCall::Count => "COUNT",
        }
    }
}
