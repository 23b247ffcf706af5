//! The update of the range registers over events: processors over one memory with the update that
//! is under way, if there is one.
#![tactic(auto)]

mod barriers;
mod coming;
mod core_type;
mod facts;
mod fault;
mod order;
mod stepped;
mod steps;

pub use core_type::Core;
pub use facts::a_core_arises;
pub use fault::CallFault;
pub use mt_machine::{Event, Go, Phase};
pub use order::Order;
pub use stepped::Stepped;
