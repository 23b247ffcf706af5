ghost use Rattle.std.specs.Prelude.{◌≡◌, ℕ, ◌<◌, ◌%◌, ◌==◌, not, replicate, slice_index_or};
ghost use Rattle.mt_cache.specs.Counts.{lowered, modulus, raised};

/// Lines' numbers are told apart by their residues modulo this one, where a table has a place for each residue.
pub const MODULUS: u64 = 4096;

/// How many lines of a cache have a number with each residue modulo `MODULUS`.
#[derive(Drop)]
pub(crate) struct LineCounts {
    pub(crate) counts: [u8; MODULUS as usize],
}

impl LineCounts {
    /// The counts of no lines.
    pub(crate) fn new() -> Self
        ensures { result.counts ≡ replicate modulus 0 }
    {
        LineCounts {
            counts: [0; MODULUS as usize],
        }
    }

    /// Whether a line may have this number.
    pub(crate) fn may_have(&self, number: u64) -> bool
        ensures { result ≡ not (slice_index_or self.now.counts (number % modulus) 0 == 0) }
    {
        self.counts[(number % MODULUS) as usize] != 0
    }

    /// Counts a line of this number.
    pub(crate) fn add(&mut self, number: u64)
        requires { slice_index_or self.old.counts (number % modulus) 0 < 255 }
        ensures { self.new.counts ≡ raised number self.old.counts }
    {
        self.counts[(number % MODULUS) as usize] += 1;
    }

    /// Counts a line of this number no more.
    pub(crate) fn remove(&mut self, number: u64)
        requires { 0 < slice_index_or self.old.counts (number % modulus) 0 }
        ensures { self.new.counts ≡ lowered number self.old.counts }
    {
        self.counts[(number % MODULUS) as usize] -= 1;
    }

    /// Counts no line.
    pub(crate) fn clear(&mut self)
        ensures { self.new.counts ≡ replicate modulus 0 }
    {
        self.counts = [0; MODULUS as usize];
    }
}
