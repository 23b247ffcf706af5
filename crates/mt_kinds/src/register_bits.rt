// Bits of registers by their names in the manual, each by its number.

/// V of IA32_MTRR_PHYSMASKn: the pair is valid.
pub const PHYSMASK_V: u8 = 11;

/// E of IA32_MTRR_DEF_TYPE: MTRRs are on.
pub const DEF_TYPE_E: u8 = 11;

/// FE of IA32_MTRR_DEF_TYPE: fixed ranges are on.
pub const DEF_TYPE_FE: u8 = 10;

/// FIX of IA32_MTRRCAP: there are fixed-range registers.
pub const MTRRCAP_FIX: u8 = 8;

/// WC of IA32_MTRRCAP: the type WC may be given.
pub const MTRRCAP_WC: u8 = 10;
