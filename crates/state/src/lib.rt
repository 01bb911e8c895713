#![tactic(auto)]

pub mod halves;
pub mod mutators;
pub mod names;
pub mod objects;
pub mod plain_state;
pub mod registers;

pub use halves::{other, page_of_half, pages_for, start_of_half, words_in_half};
pub use mutators::{Event, FromAddress, Held, Mutator, ToAddress, next_state};
pub use names::{MutatorName, Name, RegisterName};
pub use objects::{object_words, slot_count};
pub use plain_state::{Plain, Space};
