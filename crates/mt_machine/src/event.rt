/// A step of one processor through an update.
#[derive(Clone, Copy, Debug, PartialEq, Eq)]
pub enum Event {
    Take,
    Arrive,
    Leave,
    Pass,
    SetNoFill,
    /// The first dirty word of its cache goes to memory. The address is the word's, in bytes.
    WriteBack { address: u64, value: u64 },
    DropLines,
    FlushTlb,
    Disable,
    /// A register gets its new value. The number is the place of the register in ascending order.
    Write(u32),
    Enable,
    SetNormal,
    RestorePge,
    ArriveAgain,
    Release,
}
