// The types of a heap's state, also under this name.
pub use super::heap_state::{Access, Heap, Object};
pub use state::Plain;
