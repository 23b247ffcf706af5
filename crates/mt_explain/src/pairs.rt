ghost use Rattle.std.specs.Prelude.{◌≡◌, ◌≤◌, ◌<◌, length};
ghost use Rattle.mt_regs.specs.RegisterFile.{pair_at};
ghost use Rattle.mt_explain.specs.Pairs.{matching_pairs, pairs_in};

use arrayvec::ArrayVec;
use mt_regs::{RegFile, matches_pair};

/// A pair that the file doesn't have is zeros.
pub(crate) fn pair_at(f: &RegFile, n: u8) -> (u64, u64)
    ensures { result ≡ pair_at f.now.pairs n }
{
    f.pairs
        .as_slice()
        .get(n as usize)
        .copied()
        .unwrap_or((0, 0))
}

fn pairs_in(width: u8, pairs: &[(u64, u64)], page: u64) -> ArrayVec<u8, 32>
    requires low { 12 ≤ width }
    requires high { width ≤ 52 }
    requires few { length pairs.now ≤ 32 }
    ensures { result.items ≡ pairs_in width pairs.now page }
{
    let mut numbers = ArrayVec::new();
    for n in 0..pairs.len() {
        if matches_pair(width, pairs[n], page) {
            numbers.push(n as u8);
        }
    }
    numbers
}

/// The numbers of the valid pairs that match a page, in ascending order.
pub fn pairs_at(f: &RegFile, page: u64) -> ArrayVec<u8, 32>
    ensures { result.items ≡ matching_pairs f.now page }
{
    f.is_register_file(); // a fact for the proof
    pairs_in(f.maxphy, f.pairs.as_slice(), page)
}
