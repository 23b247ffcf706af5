//! What holds of stations and yards, where processors go through an update on threads of their own. A law is a function with an empty
//! body: its contract is the theorem. A `worked_` function has an instance, where a law has premises or laws alone cite a relation.
#![tactic(auto)]

pub mod job_laws;
pub mod job_worked;
pub mod job_worked_laws;
pub mod station_laws;
pub mod station_worked_laws;
pub mod worked_steps;
pub mod yard_laws;
