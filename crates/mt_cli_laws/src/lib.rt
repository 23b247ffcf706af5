//! What holds of the outputs of the top call. A law is a function with an empty body: its contract is the theorem.
//! A `worked_` function has instances of the relations in the contract of the top call.
#![tactic(auto)]

pub mod laws;
pub mod outputs_worked;
