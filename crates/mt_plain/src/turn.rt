/// An update, as its processors and the coordinator have made it.
#[repr(C)]
#[derive(Clone, Copy)]
pub struct PlainUpdate {
    /// What the coordinator has said: 0 nothing yet, 1 the go, 2 that the update is cancelled.
    pub word: u32,
    /// How many processors take part.
    pub processors: u32,
    /// How many of them are at the first barrier or past it.
    pub arrived: u32,
    /// How many of them are at the second barrier or past it.
    pub arrived_again: u32,
}

/// Where a processor stands in an update.
#[repr(C)]
#[derive(Clone, Copy)]
pub struct PlainProcessor {
    /// Its phase, 0 to 13.
    pub phase: u32,
    /// In the phase of writing, the place of the next register in ascending order.
    pub place: u32,
    /// How many writable registers it has.
    pub registers: u32,
    /// Bit 27 of EDX of CPUID leaf 1: 0 or 1.
    pub self_snoop: u8,
    /// Whether it is through with this update: 0 or 1.
    pub finished: u8,
}

/// A step, and where the processor stands after it.
#[repr(C)]
#[derive(Clone, Copy)]
pub struct PlainStep {
    /// Its number, 1 to 14.
    pub number: u32,
    /// The place of the register that it writes.
    pub place: u32,
    pub next_phase: u32,
    pub next_place: u32,
}
