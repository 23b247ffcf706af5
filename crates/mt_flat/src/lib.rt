//! The flat machine, which has no cache: one value for each word, and pending lines of write combining.
//!
//! These are definitions and laws: each load of the machine with caches is answered as the flat one
//! answers it.
#![tactic(auto)]

mod laws;
mod worked;

pub use laws::{
    caches_are_never_seen, comers_and_goers_are_flat, courses_are_flat, events_are_flat,
    pending_stays_few, starts_are_flat, updates_are_flat,
};
pub use worked::{
    worked_coming_turns, worked_flat_answers, worked_flat_comers, worked_flat_held,
    worked_flat_laws, worked_flat_of, worked_laws_of_broadcasts, worked_laws_of_takes,
    worked_laws_under_way, worked_pending, worked_turns,
};
