#![tactic(auto)]

pub mod allocation;
pub mod collection_calls;
pub mod fault_calls;
pub mod faults;
pub mod heap_state;
pub mod image_calls;
pub mod making;
pub mod parts;
pub mod plain_state;
pub mod register_calls;
pub mod registers;
pub mod slot_calls;

pub use faults::Fault;
pub use heap_state::{Access, Heap};
