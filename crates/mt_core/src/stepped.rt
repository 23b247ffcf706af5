use mt_machine::Event;

/// What a step of a processor did.
#[derive(Clone, Copy, Debug, PartialEq, Eq)]
pub enum Stepped {
    /// The event that was due.
    Did(Event),
    /// Nothing, at a barrier: how many have arrived there, and how many are awaited. At the first barrier the coordinator
    /// counts as one of both, with its go.
    Waits { arrived: u32, of: u32 },
    /// Nothing: the processor runs and takes no part in an update, or not any more.
    NoUpdate,
}
