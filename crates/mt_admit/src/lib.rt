//! Processors that are admitted by an update, and that are retired.
#![tactic(auto)]

mod admission;
mod fault;

pub use admission::{admit, retire, up};
pub use fault::{RetireFault, UpFault};
