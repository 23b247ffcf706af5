//! Processors over one memory: their accesses and control instructions, with all snoops.
#![tactic(auto)]

mod accesses;
mod buffers;
mod bus;
mod coming;
mod controls;
mod copies;
mod fills;
mod holders;
mod laws;
mod loads;
mod snoops;
mod steps;
mod stores;
mod system;
mod system_parts;
mod words;

pub use holders::Holders;
pub use laws::{a_system_is_sound, accesses_refuse_in_order, controls_refuse_in_order};
pub use mt_machine::{Control, Done, Op, Ruled};
pub use system::System;
pub use system_parts::SystemParts;
