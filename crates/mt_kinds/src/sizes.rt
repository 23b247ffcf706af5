/// The bytes of a page.
pub const PAGE_BYTES: u64 = 4096;

/// The bytes of a cache line.
pub const LINE_BYTES: u64 = 64;

/// The bytes of a word of memory. It has 64 bits, and not 16 as in the manual.
pub const WORD_BYTES: u64 = 8;

/// The cache lines that all windows of memory have together at most.
pub const MOST_LINES: u64 = 4096;
