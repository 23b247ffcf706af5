// The numbers that the calls return. `include/mtrr.h` has the same, as MTRR_DONE and so on.
pub(crate) const DONE: u32 = 0;

pub(crate) const FAULT: u32 = 1;

pub(crate) const NO_FILE: u32 = 2;

pub(crate) const NO_PAGE: u32 = 3;

pub(crate) const UNDEFINED: u32 = 4;

pub(crate) const NO_ENTRY: u32 = 5;

pub(crate) const NO_ROOM: u32 = 6;

pub(crate) const WAITS: u32 = 7;

pub(crate) const NO_PHASE: u32 = 8;

pub(crate) const DISABLED: u32 = 9;

pub(crate) const TOO_FEW: u32 = 10;

pub(crate) const NO_GRANULE: u32 = 11;

pub(crate) const NOT_DUE: u32 = 12;
