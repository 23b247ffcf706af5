//! Scripts: what their lines say, done on one machine, and the transcript of it.
#![tactic(auto)]

mod commands;
mod line;
mod replayer;
mod report;
mod running;
mod summing;
mod texts;

pub use commands::add_window;
pub use replayer::Replayer;
pub use report::REPORT_ROOM;
pub use running::{replay, replay_with};
pub use summing::{Totals, summary, summary_with};
