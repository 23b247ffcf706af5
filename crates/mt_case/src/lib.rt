//! The text of a case: registers, a start, lists of steps, and what is asked for.
#![tactic(auto)]

mod case;
mod listing;
mod reader;
mod turns;
mod words;

pub use case::{Ask, Input, Part, Reason, Trouble};
pub use reader::read_input;
