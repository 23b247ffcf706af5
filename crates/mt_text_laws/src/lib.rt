//! What holds of lines, words, dumps and scripts. A law is a function with an empty body: its contract is the theorem.
//! A `worked_` function has an instance, where a law has premises or laws alone cite a relation.
#![tactic(auto)]

pub mod script_laws;
pub mod script_worked;
pub mod text_laws;
pub mod text_worked;
pub mod worked_plain;
