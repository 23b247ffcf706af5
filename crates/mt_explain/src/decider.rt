use arrayvec::ArrayVec;

/// The registers that give a page its type.
#[derive(Drop)]
pub enum Decider {
    /// IA32_MTRR_DEF_TYPE, whose bit E is clear.
    Switch,
    /// A fixed-range register, by its place in the list.
    Fixed(u8),
    /// These valid pairs, or IA32_MTRR_DEF_TYPE if there are none. If UC wins over other types, they are those of UC.
    Pairs(ArrayVec<u8, 32>),
}
