use mt_kinds::MemType;

/// The bar of the pages from page `first` on up to page `end`. `place` counts the bars of the file before it. For a valid
/// pair `number` is that of its PhysBase register, `base` and `mask` are the values of its registers, and `kind` is its
/// type. The bar of the fixed-range registers has no type, and 0 for both values. `is_on` says whether the MTRRs are on.
#[derive(Clone, Copy, Default)]
pub struct Bar {
    pub place: u32,
    pub number: u32,
    pub first: u64,
    pub end: u64,
    pub base: u64,
    pub mask: u64,
    pub kind: Option<MemType>,
    pub is_on: bool,
}
