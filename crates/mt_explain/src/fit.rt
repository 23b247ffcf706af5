ghost use Rattle.std.specs.Prelude.{◌≡◌, ◌≤◌, ◌<◌, ◌^◌, ◌+◌, IfErr, IfOk, slice_get, length};
ghost use Rattle.mt_explain.specs.Fit.{AreLeast, IsNeeded, IsRounding, IsUnfit};
ghost use Rattle.mt_explain.specs.Spans.{AreSpans};

use crate::marked::Marked;
use crate::walk::spans;
use crate::{Rounding, Span, Unfit};
use mt_gran::{GranFault, gran};
use mt_regs::RegFile;
use mt_tidy::{TidyFault, WorkArea, tidy};
use std::alloc::{AllocError, Global};

// The number of chunk sizes, which are the powers of two from 4 KB to 2^52 bytes.
const CHUNKS: usize = 41;

// A chunk of this size bounds nothing.
const LARGEST: u64 = 1 << 52;

// The bytes of a chunk by its place.
fn chunk_bytes(place: usize) -> u64
    requires { place < 41 }
    ensures { result ≡ 2 ^ (12 + place) }
{
    1 << (12 + place)
}

// The least number of pairs for the file's types at one chunk.
fn least_pairs(f: &RegFile, chunk: u64, area: &mut WorkArea) -> Result<u64, Unfit>
    ensures ok { IfOk result (IsNeeded f.now chunk) }
    ensures err { IfErr result (IsUnfit f.now) }
{
    match tidy(f, 0, chunk, area) {
        Ok(tidied) => Ok(tidied.used as u64),
        Err(TidyFault::TooFew { needs, .. }) => Ok(needs),
        Err(TidyFault::Refused(fault)) => Err(Unfit::Refused(fault)),
        Err(TidyFault::Disabled) => Err(Unfit::Disabled),
    }
}

/// The least number of pairs that give each page its type, by chunk size: at place `n` where the larger of two ranges that share
/// a page has at most `2^(12 + n)` bytes. No memory is taken.
pub fn least_by_chunk(f: &RegFile) -> Result<[u64; 41], Unfit>
    ensures ok { IfOk result (AreLeast f.now) }
    ensures err { IfErr result (IsUnfit f.now) }
{
    let mut area = WorkArea::new();
    let mut least = [0; CHUNKS];
    for n in 0..CHUNKS {
        least[n] = least_pairs(f, chunk_bytes(n), &mut area)?;
    }
    Ok(least)
}

// Numbers by chunk size: each is the mark of its place.
#[derive(Drop)]
struct ByChunk<'a> {
    numbers: &'a [u64],
}

impl<'a> Marked for ByChunk<'a> {
    type Mark = u64;

    ghost size = { λ c. length c.numbers.now };

    ghost marks = { λ c place. slice_get c.numbers.now place };

    ghost is_checked = { λ _. Unit {0} };

    fn pages(&self) -> u64 {
        self.numbers.len() as u64
    }

    fn mark_at(&self, place: u64) -> Option<u64> {
        self.numbers.get(place as usize).copied()
    }

    fn has(&self, place: u64, mark: &u64) -> bool {
        self.mark_at(place) == Some(*mark)
    }

    fn next_edge(&self, place: u64) -> u64 {
        place + 1
    }
}

/// The longest runs of places at which a list has one number, in ascending order. Fails only if an allocation fails.
pub fn steps(alloc: Global, numbers: &[u64]) -> Result<Vec<Span<u64>>, AllocError>
    ensures { IfOk result (λ steps. AreSpans (slice_get numbers.now) 0 (length numbers.now) steps.items) }
{
    spans(alloc, &ByChunk { numbers })
}

/// What the types rounded to granules of `2^g` pages need, whatever ranges overlap, and what they lose. No memory is taken.
pub fn rounding_of(f: &RegFile, g: u8) -> Result<Rounding, Unfit>
    requires { g ≤ 28 }
    ensures ok { IfOk result (IsRounding f.now g) }
    ensures err { IfErr result (IsUnfit f.now) }
{
    let mut area = WorkArea::new();
    match gran(f, g, 0, LARGEST, &mut area) {
        Ok(grained) => Ok(Rounding {
            pairs: grained.tidied.used as u64,
            lost: Some(grained.lost),
        }),
        Err(GranFault::TooFew { needs, .. }) => Ok(Rounding {
            pairs: needs,
            lost: None,
        }),
        Err(GranFault::Refused(fault)) => Err(Unfit::Refused(fault)),
        Err(GranFault::Disabled) => Err(Unfit::Disabled),
    }
}
