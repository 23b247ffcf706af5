/// What the coordinator has said about an update.
#[derive(Clone, Copy, Debug, PartialEq, Eq)]
pub enum Go {
    /// Nothing yet.
    Pending,
    /// The processors may pass the first barrier.
    Given,
    /// The update is given up.
    Cancelled,
}
