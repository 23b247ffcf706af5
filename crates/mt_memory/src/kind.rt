use crate::MemoryRange;
use arrayvec::ArrayVec;

/// The most ranges that a map has.
pub const MOST_RANGES: usize = 512;

/// Ranges in ascending order, of which no two share a byte.
pub type Ranges = ArrayVec<MemoryRange, MOST_RANGES>;
