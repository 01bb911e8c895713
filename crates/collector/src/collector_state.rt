// The types of the state that the collector works on, also under this name.
pub use state::{FromAddress, Held, Mutator, Space, ToAddress};
