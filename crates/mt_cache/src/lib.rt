//! The lines of one cache and the write-combining buffers of one processor, in the order in which they were filled.
#![tactic(auto)]

mod buffers;
mod cache;
mod counts;
mod hints;
mod line;
mod places;
mod slots;
mod words;

pub use buffers::Buffers;
pub use cache::Cache;
pub use counts::MODULUS;
pub use line::CacheLine;
