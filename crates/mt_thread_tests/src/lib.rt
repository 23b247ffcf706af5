//! Tests of updates and jobs on threads, over public calls.
#![tactic(auto)]

#[cfg(test)]
mod checks;
#[cfg(test)]
mod common;
#[cfg(test)]
mod endings;
#[cfg(test)]
mod job_tests;
#[cfg(test)]
mod station_tests;
#[cfg(test)]
mod update_tests;
#[cfg(test)]
mod yard_tests;
