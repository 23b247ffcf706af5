use mt_kinds::MemType;

/// What the pages of a block want. A free page wants nothing.
#[derive(Clone, Copy, Debug, Drop, PartialEq, Eq)]
pub enum Wish {
    /// Each page is free.
    Any,
    /// Some page isn't free, and each that isn't wants this type.
    Only(MemType),
    /// Two pages that aren't free want different types.
    Mixed,
}
