#![tactic(auto)]

pub mod hosts;
pub mod refusals;
pub mod rights;

pub use hosts::{Denied, Host, sizes_fit};
pub use refusals::{Refusal, Rejected};
pub use rights::Right;
