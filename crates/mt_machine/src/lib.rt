//! The machine: processors with caches, write-combining buffers and TLBs over shared memory, their
//! accesses and control instructions, and the update of their range registers, event by event.
//!
//! These are definitions, in `specs/`, with the enums that they name.
#![tactic(auto)]

mod control;
mod done;
mod event;
mod go;
mod op;
mod phase;
mod ruled;

pub use control::Control;
pub use done::Done;
pub use event::Event;
pub use go::Go;
pub use op::Op;
pub use phase::Phase;
pub use ruled::Ruled;
