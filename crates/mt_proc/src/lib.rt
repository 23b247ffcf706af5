//! Changes of the memory type ranges in the form of Linux's mtrr document, carried out on all processors.
#![tactic(auto)]

mod applying;
mod listing;
mod names;
mod processors;
mod reading;
mod request;
mod running;

pub use applying::{Applied, apply};
pub use listing::write_range;
pub use processors::Processors;
pub use reading::read_request;
pub use request::{ProcFault, ProcReason, Request};
pub use running::{proc, proc_with};
