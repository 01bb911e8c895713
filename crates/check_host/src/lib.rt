#![tactic(auto)]

pub mod host_calls;
pub mod marks;

pub use marks::CheckHost;
