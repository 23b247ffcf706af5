/// The `count` pages from page `first` on, which have one mark.
#[derive(Drop)]
pub struct Span<M> {
    pub first: u64,
    pub count: u64,
    pub mark: M,
}
