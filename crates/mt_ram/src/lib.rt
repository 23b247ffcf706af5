//! Physical memory: windows of words that are 0 at first. Outside the windows there is no memory.
#![tactic(auto)]

mod fault;
mod ram;
mod window;

pub use fault::RamFault;
pub use ram::Ram;
