/// Why no processor is brought up.
#[derive(Clone, Copy, Debug, PartialEq, Eq)]
pub enum UpFault {
    /// An update is under way.
    UnderWay = 1,
    /// Sixteen processors stand.
    Full = 2,
    NoMemory = 3,
}

/// Why no processor is retired.
#[derive(Clone, Copy, Debug, PartialEq, Eq)]
pub enum RetireFault {
    /// An update is under way.
    UnderWay = 1,
    /// One processor stands.
    Last = 2,
}
