use crate::shape::Warned;
use mt_text::Place;

/// What contradicts a line.
#[derive(Clone, Copy)]
pub enum Rival {
    /// The line of this number.
    Line(u64),
    /// A word of the command line.
    Word,
    /// The 0FEH that the line of this number shows: it doesn't have the register.
    CapabilityLine(u64),
    /// The 0FEH that a word supplies: it doesn't have the register.
    CapabilityWord,
    /// The line of this number shows a register that this 0FEH doesn't have.
    RegisterLine(u64),
}

/// Why a line isn't read.
#[derive(Clone, Copy)]
pub enum Reason {
    /// It has more than 4,096 bytes.
    LongLine,
    /// A number isn't hexadecimal, or may be decimal.
    BadNumber,
    /// It names a processor and a line before doesn't, or the other way round.
    MixedNumbers,
    /// It is UTF-16.
    Utf16,
}

/// Why a log shows no dump, and where.
#[derive(Clone, Copy)]
pub enum ImportFault {
    /// A line isn't read.
    BadLine(Reason, Place),
    /// The register is of a processor past the sixteenth, or of one whose number can't be read or isn't known.
    BadProcessor(Place),
    /// The capability register has more than 32 pairs.
    TooManyPairs(Place),
    /// The address width is less than 32 bits or more than 52.
    BadWidth(Place),
    /// The register has another value elsewhere, or 0FEH doesn't have it.
    Contradiction(Place, u32, Rival),
    /// The address width is another elsewhere.
    WidthContradiction(Place, Rival),
}

/// The first fault of a log, and what lines before it warn of.
#[derive(Clone, Copy)]
pub struct Stop {
    pub fault: ImportFault,
    pub warned: Warned,
}
