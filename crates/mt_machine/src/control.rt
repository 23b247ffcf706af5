use mt_tlb::Mapping;

/// A control instruction of one processor.
#[derive(Clone, Copy, Debug, PartialEq, Eq)]
pub enum Control {
    /// A mapping is set.
    Map(Mapping),
    /// The entry of the page of this virtual address is dropped.
    Invlpg(u64),
    /// CR3 is reloaded: the entries that are not global are dropped.
    Cr3,
    /// CR4.PGE is set or cleared.
    Pge(bool),
    /// CR0.CD is set or cleared.
    Cd(bool),
}
