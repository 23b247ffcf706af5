/// Why a window is not added.
#[derive(Clone, Copy, Debug, PartialEq, Eq)]
pub enum RamFault {
    /// The base address is no multiple of 64.
    Misaligned = 1,
    /// The window shares a byte with an earlier one.
    Overlaps = 2,
    /// There would be more than 4,096 lines, or more than 16 windows.
    TooMuch = 3,
    /// The allocator has no memory for the words.
    NoMemory = 4,
}
