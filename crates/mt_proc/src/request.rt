use mt_kinds::MemType;
use mt_text::Place;

/// What a line asks for, in the form of Linux's mtrr document.
#[derive(Clone, Copy, Debug, PartialEq, Eq)]
pub enum Request {
    /// A type for the range of `size` bytes from the address `base` on.
    Range { base: u64, size: u64, kind: MemType },
    /// That the pair of this number is cleared.
    Disable(u64),
}

/// What is wrong with a line that asks for a change.
#[derive(Clone, Copy, Debug, PartialEq, Eq)]
pub enum ProcReason {
    BadLine = 1,
    BadNumber = 2,
    UnknownType = 3,
}

/// The offence of a line, and where it stands.
#[derive(Clone, Copy, Debug, PartialEq, Eq)]
pub struct ProcFault {
    pub reason: ProcReason,
    pub place: Place,
}
