/// A variable range: PHYSBASEn and PHYSMASKn.
#[repr(C)]
#[derive(Clone, Copy)]
pub struct PlainPair {
    pub base: u64,
    pub mask: u64,
}

/// The range registers of a processor. `width` is in bits.
#[repr(C)]
#[derive(Clone, Copy)]
pub struct PlainRegisters {
    pub width: u64,
    pub capabilities: u64,
    pub pairs: [PlainPair; 32],
    pub fixed: [u64; 11],
    pub pat: u64,
    pub default_type: u64,
}

/// The number of a register at fault, and the number of the reason.
#[repr(C)]
#[derive(Clone, Copy)]
pub struct PlainFault {
    pub number: u32,
    pub reason: u32,
}

/// The `pages` pages from page `first` on, which have one type: its byte, or 255 where they have no defined type.
#[repr(C)]
#[derive(Clone, Copy)]
pub struct PlainRun {
    pub first: u64,
    pub pages: u64,
    pub kind: u32,
}

/// How many pages had WB and get UC, and how many parts lose a type.
#[repr(C)]
#[derive(Clone, Copy)]
pub struct PlainLoss {
    pub pages: u64,
    pub parts: u64,
}

/// How many pairs the pages' types need, and how many may be used.
#[repr(C)]
#[derive(Clone, Copy)]
pub struct PlainNeed {
    pub needs: u64,
    pub has: u64,
}
