use mt_kinds::MemType;

/// A translation that a TLB keeps. Pages are addresses divided by 4,096, and `era` is the number
/// of updates that its processor had finished when the entry was filled.
#[derive(Clone, Copy, Debug, Default, PartialEq, Eq)]
pub struct Entry {
    pub vpage: u64,
    pub ppage: u64,
    pub kind: MemType,
    pub global: bool,
    pub era: u64,
}
