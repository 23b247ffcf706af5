//! Tests of updates by events, and of what no program does to caches, memory and the bus, over public calls.
#![tactic(auto)]

#[cfg(test)]
mod checks;
#[cfg(test)]
mod common;
#[cfg(test)]
mod drawn;
#[cfg(test)]
mod holders;
#[cfg(test)]
mod interleavings;
#[cfg(test)]
mod parts;
