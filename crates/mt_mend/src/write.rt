/// A value to write to the register that has a number.
#[derive(Clone, Copy, Debug, PartialEq, Eq)]
pub struct Write {
    pub number: u32,
    pub value: u64,
}
