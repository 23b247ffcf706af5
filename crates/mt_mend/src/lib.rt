//! What to write: the registers that give pages the types that are wished for, and the writes that lead to them.
#![tactic(auto)]

mod between;
mod edges;
mod fault;
mod faults;
mod fixed;
mod laws;
mod mending;
mod repair;
mod settled;
mod steps;
mod wish;
mod wished;
mod write;

pub use between::changes_between;
pub use fault::{MendFault, WishFault};
pub use laws::{range_registers_change_with_e_clear, the_last_wish_decides};
pub use mending::mend;
pub use repair::lawful_file;
pub use settled::{fixed_file, mend_in_place};
pub use steps::changes;
pub use wish::{MAX_WISHES, Wish};
pub use wished::wished_type;
pub use write::Write;
