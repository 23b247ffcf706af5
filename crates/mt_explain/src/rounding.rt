/// What types rounded to granules of one size need and lose.
#[derive(Clone, Copy, Debug, Drop, PartialEq, Eq)]
pub struct Rounding {
    /// The least number of pairs that give the rounded types.
    pub pairs: u64,
    /// How many pages had WB and get UC. It is given if the file has so many pairs.
    pub lost: Option<u64>,
}
