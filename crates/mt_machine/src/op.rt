/// An access of one word, or a fence.
#[derive(Clone, Copy, Debug, PartialEq, Eq)]
pub enum Op {
    /// From a virtual address, in bytes, a multiple of 8 below 2^48.
    Load(u64),
    /// To such an address, and the value.
    Store(u64, u64),
    Fence,
}
