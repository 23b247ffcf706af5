//! What holds of register files, type maps, tidied and rounded files. A law is a function with an empty body: its contract is the
//! theorem. A `worked_` function has an instance, where a law has premises or laws alone cite a relation.
#![tactic(auto)]

pub mod decided;
pub mod gran_laws;
pub mod gran_worked;
pub mod regs_laws;
pub mod regs_worked;
pub mod tables;
pub mod tidy_laws;
pub mod tidy_worked;
pub mod trie_laws;
pub mod trie_worked;
pub mod types_laws;
pub mod types_worked;
pub mod unique;
