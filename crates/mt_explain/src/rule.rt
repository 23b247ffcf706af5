/// The case of the manual that gives a page its type (Intel SDM, MTRR Precedences).
#[derive(Clone, Copy, Debug, PartialEq, Eq)]
pub enum Rule {
    /// E is clear, so each page is UC.
    Off,
    /// A byte of a fixed-range register, which is named by its place in the list.
    FixedByte { place: u8, byte: u8 },
    /// No valid pair matches, so the page has the default type.
    NoPair,
    /// The pairs that match have one type.
    OneType,
    /// The pairs that match have several types, and UC is one of them.
    UncachedWins,
    /// Pairs of WT and pairs of WB match, and no others, so the page is WT.
    ThroughOverBack,
    /// The pairs that match have types for which the manual defines no result.
    NotDefined,
}
