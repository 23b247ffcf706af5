/// Where a processor stands in an update. The order is that of the procedure.
#[derive(Clone, Copy, Debug, PartialEq, Eq)]
pub enum Phase {
    /// It is outside an update, or has not taken yet, or has left or released.
    Running,
    /// It took the interrupt: its buffers are empty and its interrupts are off.
    Taken,
    /// It waits at the first barrier.
    Arrived,
    /// It is past the first barrier.
    Passed,
    /// Its caches are in no-fill mode.
    NoFill,
    /// Its cache is empty.
    Flushed,
    /// Its TLB is empty.
    TlbFlushed,
    /// Its ranges are off. The number is the place of the next register to be written.
    Writing(u32),
    /// Its ranges are on, with the new values.
    Enabled,
    /// Its cache is empty again.
    Flushed2,
    /// Its TLB is empty again.
    TlbFlushed2,
    /// Its caches are in normal mode.
    Normal,
    /// Its PGE is as it was before.
    Restored,
    /// It waits at the second barrier.
    Arrived2,
}
