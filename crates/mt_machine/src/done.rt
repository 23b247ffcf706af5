use mt_kinds::MemType;

/// What an access returns. How a program ends is a `Status` of mt_ports, whose `Done` has nothing to do with this.
#[derive(Clone, Copy, Debug, PartialEq, Eq)]
pub enum Done {
    /// The value that was loaded, and the memory type of the access.
    Value(u64, MemType),
    Stored(MemType),
    Fenced,
    /// The page has no mapping.
    Unmapped,
    /// There is no memory at the physical address.
    NoRam,
    /// The processor is in an update.
    Busy,
}
