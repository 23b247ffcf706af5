//! What the pages of a block want, and what the types of the ranges that hold a page leave on it.
#![tactic(auto)]

mod context;
mod wants;
mod wish;

pub use context::Context;
pub use wants::want;
pub use wish::Wish;
