/// What a run of bytes is.
#[derive(Clone, Copy)]
pub enum Kind {
    /// Spaces and tabs.
    Blank,
    /// Bytes of a word: no blanks, and no `#`.
    Mark,
    /// `x` or `X`.
    Ex,
    /// The digits of a hexadecimal number.
    Hexadecimal,
    /// The digits of a decimal number.
    Decimal,
    /// What stands between two numbers: blanks, `=`, `:`, `,` and `;`.
    Between,
    /// A hexadecimal number with or without `0x`. Behind `0d` it may be decimal, so such a run shows no number.
    Number,
    /// Bytes that stand in numbers of any form: hexadecimal digits, `x`, `X`, `h` and `H`.
    Figure,
}

/// What stands behind the bytes of a part.
#[derive(Clone, Copy)]
pub enum Run {
    Nothing,
    /// The end of the line.
    End,
    /// The longest run of a kind, of so few bytes at least and so many at most.
    Of(Kind, usize, usize),
}

/// A part of a line: bytes, and a run behind them. It is a tuple since a clause can name a constant of
/// tuples that hold references, and none of structs that do.
pub type Part<'a> = (&'a [u8], Run);

/// A number of a line.
#[derive(Clone, Copy)]
pub struct Field {
    pub value: u64,
    /// Where it begins, counted from 0.
    pub column: usize,
}

/// The last eight numbers of a line.
#[derive(Clone, Copy)]
pub struct Fields {
    pub eighth_last: Field,
    pub seventh_last: Field,
    pub sixth_last: Field,
    pub fifth_last: Field,
    pub fourth_last: Field,
    pub third_last: Field,
    pub second_last: Field,
    pub last: Field,
}

/// Blanks.
pub const BLANKS: Run = Run::Of(Kind::Blank, 1, 4096);

/// Blanks or none.
pub const SPACE: Run = Run::Of(Kind::Blank, 0, 4096);

/// A word that isn't read.
pub const WORD: Run = Run::Of(Kind::Mark, 1, 4096);

/// The rest of a word, which isn't read.
pub const MARKS: Run = Run::Of(Kind::Mark, 0, 4096);

/// The `x` or `X` of `0x`.
pub const EX: Run = Run::Of(Kind::Ex, 1, 1);

/// A hexadecimal number of as many digits as it has.
pub const HEX: Run = Run::Of(Kind::Hexadecimal, 1, 16);

/// A hexadecimal number of eight digits.
pub const HEX_8: Run = Run::Of(Kind::Hexadecimal, 8, 8);

/// A hexadecimal number of sixteen digits.
pub const HEX_16: Run = Run::Of(Kind::Hexadecimal, 16, 16);

/// A decimal number below 2^64.
pub const DECIMAL: Run = Run::Of(Kind::Decimal, 1, 20);

/// Blanks and signs between two numbers.
pub const BETWEEN: Run = Run::Of(Kind::Between, 1, 4096);

/// A hexadecimal number with or without `0x`.
pub const NUMBER: Run = Run::Of(Kind::Number, 1, 18);

/// A number that isn't read.
pub const FIGURE: Run = Run::Of(Kind::Figure, 1, 4096);

/// The rest of a number, which isn't read.
pub const FIGURES: Run = Run::Of(Kind::Figure, 0, 4096);
