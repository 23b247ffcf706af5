//! Tests of the top call, of `replay` and of `proc` under gates, and of summaries: what rows can't say.
#![tactic(auto)]

#[cfg(test)]
mod gates;
#[cfg(test)]
mod runs;
#[cfg(test)]
mod summaries;
