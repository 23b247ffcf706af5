use mt_memory_kinds::MemoryKind;
use mt_regs::PageType;

/// What a map and the registers make of a page, if the two don't fit.
#[derive(Clone, Copy, Debug, Drop, PartialEq, Eq)]
pub struct Misfit {
    pub memory: MemoryKind,
    pub kind: PageType,
}
