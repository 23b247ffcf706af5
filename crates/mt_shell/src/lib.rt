//! What programs that read one input have in common: words, the texts about themselves, files, and reasons on standard error.
#![tactic(auto)]

mod input;
mod own;
mod program;
mod reasons;

pub use input::{FileSource, Input};
pub use own::own_text;
pub use program::{CommandLines, Program, Started, run_program};
