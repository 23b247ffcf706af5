/// A register whose value differs in two files. A file that hasn't the register has no value.
#[derive(Clone, Copy, Debug, Drop, PartialEq, Eq)]
pub struct Difference {
    /// The number of the register.
    pub msr: u32,
    pub old: Option<u64>,
    pub new: Option<u64>,
}
