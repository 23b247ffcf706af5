/// A writable register, by its place.
#[derive(Clone, Copy, Debug, PartialEq, Eq)]
pub enum Register {
    /// PHYSBASEn.
    PhysBase(u8),
    /// PHYSMASKn.
    PhysMask(u8),
    /// A fixed-range register by its place in the list.
    FixedRange(u8),
    Pat,
    /// The default type.
    DefaultType,
}
