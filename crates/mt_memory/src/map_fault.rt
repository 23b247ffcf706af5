use mt_text::Place;

/// What is wrong with a line of a map's text.
#[derive(Clone, Copy)]
pub enum MapTextReason {
    /// It has more than 4,096 bytes.
    LongLine,
    /// Its first word isn't `FIRST-LAST`, of 1 to 16 hexadecimal digits each.
    BadRange,
    /// The last byte is before the first.
    Backward,
    /// Nothing is behind the range.
    NoKind,
    /// The second word isn't a kind.
    BadKind,
    /// There is a third word.
    ExtraWord,
    /// The range doesn't lie above those before it.
    NotAscending,
    /// It is the range behind the 512th.
    TooManyRanges,
}

/// Why a text is no map, and where.
#[derive(Clone, Copy)]
pub struct MapTextFault {
    pub reason: MapTextReason,
    pub place: Place,
}
