use mt_regs::PageType;

/// The `count` pages from page `first` on, which have one type, and in which no range begins or ends. `top` is where the
/// band begins below the first one, in pixels. `other` is the type of the second file, where there is one.
#[derive(Clone, Copy)]
pub struct Band {
    pub first: u64,
    pub count: u64,
    pub top: u64,
    pub kind: PageType,
    pub other: Option<PageType>,
}
