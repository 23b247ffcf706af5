//! A register file as plain numbers of fixed widths, and calls on it that return numbers: what C can hold and pass.
#![tactic(auto)]

mod answers;
mod books;
mod file;
mod laws;
mod maps;
mod next_step;
mod plain;
mod rounded;
mod status;
mod tidied;
mod turn;
mod worked;

pub use answers::{effective_type, first_fault, page_type};
pub use books::did;
pub use file::{file_of, is_file};
pub use laws::each_file_is_taken;
pub use maps::type_map;
pub use next_step::{a_due_step_is_the_machines, due};
pub use plain::{PlainFault, PlainLoss, PlainNeed, PlainPair, PlainRegisters, PlainRun};
pub use rounded::gran;
pub use tidied::tidy;
pub use turn::{PlainProcessor, PlainStep, PlainUpdate};
pub use worked::worked_told_updates;
