//! What a command line asks for, and the answers of the commands that start no thread.
#![tactic(auto)]

mod answers;
mod command;
mod generator;
mod help;
mod lines;
mod program;
mod serial;
mod texts;
mod words;

pub use answers::{answer, answer_input, make};
pub use command::{Command, DumpCommand, SerialCommand, ThreadedCommand, TidyOption, TidyOptions};
pub use generator::{drawn, make_text, stepped};
pub use help::{help_text, version_text};
pub use lines::{disabled_line, lost_line, page_text, run_line, too_few_line, used_line};
pub use program::{answer_words, serial_status, words_from};
pub use serial::run_serial;
pub use texts::{grained_text, tidied_text, types_text};
pub use words::command_of;
