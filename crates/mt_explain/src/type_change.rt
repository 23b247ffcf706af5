use mt_regs::PageType;

/// The types that a page has in two files. A page beyond a file's address width has none there.
#[derive(Clone, Copy, Debug, Drop, PartialEq, Eq)]
pub struct TypeChange {
    pub old: Option<PageType>,
    pub new: Option<PageType>,
}
