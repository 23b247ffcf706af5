//! One processor: its range registers, controls, mappings, TLB, cache and write-combining buffers.
#![tactic(auto)]

mod coming;
mod cpu;
mod laws;
mod state;
mod steps;
mod translation;

pub use cpu::Cpu;
pub use laws::a_processor_is_whole;
pub use mt_machine::{Event, Phase};
pub use steps::is_local;
