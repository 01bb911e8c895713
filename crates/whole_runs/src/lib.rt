#![tactic(auto)]

pub mod lists;
mod sessions;
mod turns;

pub use lists::{run, run_restored};
