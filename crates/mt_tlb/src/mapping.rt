/// A mapping of a virtual page. `index` is that of the PAT entry that the mapping chooses, 0 to 7.
#[derive(Clone, Copy, Debug, Default, PartialEq, Eq)]
pub struct Mapping {
    pub vpage: u64,
    pub ppage: u64,
    pub index: u8,
    pub global: bool,
}
