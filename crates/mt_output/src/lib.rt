//! Lines of text that programs write, a writer that gathers them, and what a program makes of its
//! arguments and of its status.
#![tactic(auto)]

mod faults;
mod line;
mod program;
mod whole;
mod writer;

pub use faults::{
    bad_text, bad_text_line, dump_reason_text, dump_refused_line, reason_text, refused_line,
};
pub use line::{
    LINE_ROOM, LineBuffer, accepted_line, append, append_address, append_decimal, append_number,
    append_pat_type, append_type, append_value,
};
pub use program::{NoWords, exit_code, words_from};
pub use whole::{written, wrong_usage};
pub use writer::{WRITER_ROOM, Writer};
