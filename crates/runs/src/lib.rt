#![tactic(auto)]

pub mod lists;

pub use lists::{MutatorCall, carry_out, check_places, run};
