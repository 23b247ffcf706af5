//! Gates for tests of updates on threads. They refuse a start, count what they are asked and told, see on which threads and
//! in which order, or see that threads run at once.
#![tactic(auto)]

mod all_but;
mod counts;
mod in_order;
mod meets;
mod one_first;
mod thread_number;
mod waiting;

pub use all_but::AllBut;
pub use in_order::InOrder;
pub use meets::Meets;
pub use one_first::OneFirst;
