//! The translations that a TLB keeps, in the order in which they were filled, and the mappings of virtual pages.
#![tactic(auto)]

mod entry;
mod hints;
mod mapping;
mod maps;
mod tlb;

pub use entry::Entry;
pub use mapping::Mapping;
pub use maps::{Full, Maps};
pub use tlb::Tlb;
