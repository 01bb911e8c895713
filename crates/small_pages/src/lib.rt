#![tactic(auto)]

pub mod calls;
pub mod pages;
mod parts;

pub use calls::HostCall;
pub use pages::SmallPages;
