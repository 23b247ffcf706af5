/// A line of a cache, or of a processor's write-combining buffers.
///
/// `number` is the physical address divided by 64, and bit w of `dirty` stands for word w of the
/// eight: in a cache memory doesn't have that word yet, in a buffer the word was written.
/// `era` is the number of updates that its processor had finished when the line was filled.
#[derive(Clone, Copy, Debug, Default, PartialEq, Eq)]
pub struct CacheLine {
    pub number: u64,
    pub words: [u64; 8],
    pub dirty: u8,
    pub era: u64,
}
