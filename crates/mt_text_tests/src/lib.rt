//! Tests of dumps beside a plain reader, of the first offence of a script, and of where a feed ends.
#![tactic(auto)]

#[cfg(test)]
mod checks;
#[cfg(test)]
mod dump;
#[cfg(test)]
mod feed;
#[cfg(test)]
mod script;
