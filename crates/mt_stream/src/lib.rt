//! Texts that are run line by line out of a feed, and the output for their lines.
#![tactic(auto)]

mod ending;
mod run;
mod running;

pub use ending::{Cut, End, Ended, Stop};
pub use run::LineRun;
pub use running::{close, run_lines, run_status, tell};
