//! What holds of the machine over every list of enabled events, and of the update by events. A law is a function with an empty
//! body: its contract is the theorem. Laws on runs range over every sound start, quiet or just broadcast. A `worked_` function has
//! an instance, where a law has premises or laws alone cite a relation.
#![tactic(auto)]

pub mod admit_laws;
pub mod admit_worked;
pub mod bus_worked;
pub mod core_laws;
pub mod core_worked;
pub mod core_worked_laws;
pub mod machine_worked;
pub mod ram_laws;
pub mod ram_worked;
pub mod run_laws;
pub mod run_worked;
pub mod run_worked_laws;
pub mod worked_events;
