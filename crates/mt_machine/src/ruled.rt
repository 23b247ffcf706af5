/// What a control instruction returns.
#[derive(Clone, Copy, Debug, PartialEq, Eq)]
pub enum Ruled {
    Okay,
    /// 64 other pages are mapped.
    Full,
    /// The processor is in an update.
    Busy,
}
