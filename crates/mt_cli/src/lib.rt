//! The program's top call: a command line and an input in, a text and a status out.
#![tactic(auto)]

mod callers;
mod measured;
mod program;
mod sums;
mod top;

pub use callers::Callers;
pub use measured::measured_text;
pub use program::program_status;
pub use sums::{big, private, summary_text};
pub use top::{answer_words, tool, tool_with};
