//! Logs of other programs, and the dump that they show.
#![tactic(auto)]

mod advice;
mod auto_reader;
mod census;
mod chipsec;
mod command_reader;
mod coreboot;
mod digits;
mod dumping;
mod edk2;
mod fault;
mod format;
mod help;
mod inteltool;
mod kernel;
mod line_words;
mod linux;
mod log_tables;
mod missing;
mod pieces;
mod plain;
mod program;
mod rdmsr;
mod reader;
mod readers;
mod reading;
mod running;
mod shape;
mod slot;
mod supplied;
mod tables;
mod text;
mod tries;
mod values;
mod warnings;
mod windbg;
mod writing;
mod x86info;
mod xen;

pub use chipsec::CHIPSEC;
pub use command_reader::read_log;
pub use digits::rows_have_their_digits;
pub use fault::{ImportFault, Reason, Rival, Stop};
pub use format::{Choice, Format};
pub use inteltool::INTELTOOL;
pub use plain::PLAIN;
pub use program::program_status;
pub use reader::LogReader;
pub use reading::{Context, LineSays, Shows, Turn};
pub use running::{import, import_apart};
pub use shape::{
    Announced, Best, Census, Failure, FixedLine, Pick, Reading, Shown, Slot, Tables, Tally, Told,
    Warned, Warning, Way,
};
pub use supplied::{Assumed, Supplied, command_of};
pub use tables::{EACH, Row, Says};
pub use text::Outcome;
pub use windbg::WINDBG;
pub use x86info::X86INFO;
