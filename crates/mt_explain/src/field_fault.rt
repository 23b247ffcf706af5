/// What is wrong with a field of a register.
#[derive(Clone, Copy, Debug, PartialEq, Eq)]
pub enum Defect {
    /// Reserved bits are set.
    ReservedBits,
    /// The byte is no type that the processor has.
    NoType,
    /// A valid mask has a gap.
    Gap,
}

/// A field at fault: the `count` bits from bit `low` on of the register `msr`, and what stands there.
#[derive(Clone, Copy, Debug, PartialEq, Eq)]
pub struct FieldFault {
    pub msr: u32,
    /// The value of the whole register.
    pub value: u64,
    pub low: u8,
    pub count: u8,
    /// The value of the field.
    pub found: u64,
    pub defect: Defect,
}
