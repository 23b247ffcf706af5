//! What holds of transcripts and of the text of requests, the headline among it. A law is a function with an empty body: its contract
//! is the theorem. A `worked_` function has an instance, where a law has premises or laws alone cite a relation.
#![tactic(auto)]

pub mod headline;
pub mod hidden;
pub mod kept;
pub mod known;
pub mod proc_laws;
pub mod proc_worked;
pub mod replay_laws;
pub mod replay_worked;
pub mod statuses;
pub mod worked_laws;
