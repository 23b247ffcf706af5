//! Kinds of memory, and ranges of one kind, as a memory map has them.
#![tactic(auto)]

mod kind;

pub use kind::{MemoryKind, MemoryRange};
