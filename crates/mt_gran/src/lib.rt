//! Granularity: types rounded to granules of pages, the fewest variable ranges that give them, and what is lost.
#![tactic(auto)]

mod cut;
mod fault;
mod grains;
mod join;
mod lists;
mod run_list;
mod sizes;

pub use fault::GranFault;
pub use grains::{Grained, Lost, gran, gran_enabled, gran_in, rounded};
pub use run_list::RunList;
pub use sizes::granule_log;
