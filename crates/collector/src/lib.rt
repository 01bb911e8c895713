#![tactic(auto)]

pub mod collector_state;
pub mod flipping;
pub mod forwarding;
pub mod pages;
pub mod root_pass;
pub mod scanning;

pub use collector_state::{FromAddress, Held, Mutator, Space, ToAddress};
pub use flipping::begin_collection;
pub use forwarding::{forward, forward_held};
pub use pages::{Progress, scan_if_unscanned, step_collection};
pub use root_pass::forward_roots;
pub use scanning::{packed_word, scan_words};
