//! Processors that access memory of their own before and after one update of their range registers.
#![tactic(auto)]

mod attendance;
mod caller;
mod fault;
mod gather;
mod host;
mod job;
mod joint;
mod leaving;
mod pages;
mod rooms;
mod runs;
mod shared;
mod view;
mod visiting;
mod visitor;

pub use caller::{Caller, visit};
pub use fault::PrivateFault;
pub use host::{Host, Yard};
pub use job::{Job, JobAnswers, Part};
pub use leaving::leave;
pub use pages::shared_page;
pub use runs::{run_private, run_private_with};
pub use view::{Resident, YardView};
pub use visiting::{Guest, Visited, YardPass};
