use crate::MemoryKind;
use mt_rows::{Fields, Part};

/// Where the front of a form stands.
#[derive(Clone, Copy)]
pub enum Front {
    /// At the line's first byte.
    Start,
    /// At some word.
    Word,
}

/// What the second number of a range is.
#[derive(Clone, Copy)]
pub enum Ends {
    /// The last byte.
    Last,
    /// The last byte. A size is behind it, as a third number.
    LastBeforeSize,
    /// The last byte, and two numbers are behind it.
    LastBeforeTwo,
    /// The last byte, and both numbers are 0 where the range is hidden.
    LastOrHidden,
    /// The byte behind the last.
    Behind,
}

/// Where the kind of a range is named.
#[derive(Clone, Copy)]
pub enum Named {
    /// At the front's first byte.
    AtFront,
    /// At the word behind the front's last number.
    BehindFront,
    /// At the word behind the range's last number.
    BehindRange,
}

/// How a line shows a range: behind a front stand two numbers, each at a word.
pub type Form<'a> = (&'a [Part<'a>], Front, &'a [Part<'a>], Ends, Named);

/// What names a kind.
pub type Name<'a> = (&'a [Part<'a>], MemoryKind);

/// The lines of a format: forms of ranges, names of kinds, what stands at some word of the lines that begin a map, and whether the
/// source lists ranges in ascending order.
pub type Table<'a> = (&'a [Form<'a>], &'a [Name<'a>], &'a [&'a [Part<'a>]], bool);

/// What a form reads in a line.
#[derive(Clone, Copy)]
pub struct Seen {
    pub ends: Ends,
    pub fields: Fields,
    pub kind: Option<MemoryKind>,
    /// How many bytes stand in front of the range.
    pub before: usize,
}
