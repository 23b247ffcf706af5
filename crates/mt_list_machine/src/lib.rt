//! The machine over plain lists: the slow program beside `mt_bus`, whose contracts are the definitions of `mt_machine`, one by one.
//!
//! States of it can be copied and compared. An event is done whether or not it is due.
#![tactic(auto)]

mod accesses;
mod buffers;
mod bus;
mod controls;
mod cpu;
mod events;
mod fills;
mod fitting;
mod lines;
mod ram;
mod snoops;
mod steps;

pub use accesses::{find_entry, is_cached};
pub use bus::Bus;
pub use controls::map;
pub use cpu::{Cpu, copied};
pub use fitting::are_physical;
pub use lines::{find_line, first_dirty_line, first_dirty_word};
pub use steps::{clear_pge, write_back_or_drop};
