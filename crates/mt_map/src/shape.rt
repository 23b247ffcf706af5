use crate::Bar;
use mt_kinds::MemType;
use mt_types::Run;

/// A file of a picture: the first, or the one that is drawn beside it.
#[derive(Clone, Copy)]
pub enum Side {
    First,
    Second,
}

/// The `count` pages from page `first` on.
#[derive(Clone, Copy)]
pub struct Pages {
    pub first: u64,
    pub count: u64,
}

/// A part of a picture, by what it stands for.
#[derive(Clone, Copy)]
pub enum Shape {
    /// Pages with the type that a file gives to each of them.
    Band(Side, Run),
    /// The range of a valid pair, or of the fixed-range registers.
    Bar(Side, Bar),
    /// The default type of a file whose MTRRs are on.
    Default(Side, MemType),
    /// Pages to which the two files give different types.
    Mark(Pages),
}
