use mt_kinds::MemType;

/// No list of wishes is longer.
pub const MAX_WISHES: usize = 64;

/// The pages from `first` to `last`, both included, are to have a type.
#[derive(Clone, Copy, Debug, PartialEq, Eq)]
pub struct Wish {
    pub first: u64,
    pub last: u64,
    pub kind: MemType,
}
