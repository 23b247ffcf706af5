ghost use Rattle.std.specs.Prelude.{◌≡◌, ◌≤◌, ◌<◌, ◌+◌, ◌++◌, None, length};
ghost use Rattle.arrayvec.specs.ArrayVec.{array_vec_len};
ghost use Rattle.mt_regs.specs.Alike.{IsWhole};
ghost use Rattle.mt_regs.specs.Faults.{register_fault};
ghost use Rattle.mt_map.specs.Bands.{are_fixed_on};
ghost use Rattle.mt_map.specs.Shapes.{bars_of, bars_of_pair, fixed_bars};

use crate::Bar;
use arrayvec::ArrayVec;
use mt_ranges::{block_of, is_valid};
use mt_regs::{FIRST_PAIR, RegFile, pair_type};

/// Room for the bars of any file.
pub type Bars = ArrayVec<Bar, 33>;

const FIRST_FIXED: u32 = 0x250;

/// Whether the fixed-range registers give the types of the first megabyte.
pub(crate) fn are_fixed_on(f: &RegFile) -> bool
    ensures { result ≡ are_fixed_on f.now }
{
    f.is_enabled() && f.is_fixed_enabled()
}

// Adds the bar of a pair, where it is valid.
fn add_pair(bars: &mut Bars, f: &RegFile, n: u32, pair: (u64, u64))
    requires few { n < 32 }
    requires room { array_vec_len bars.old ≤ n + 1 }
    ensures room { array_vec_len bars.new ≤ n + 2 }
    ensures bar { IsWhole f.now.width pair → bars.new.items ≡ bars.old.items ++ bars_of_pair f.now (length bars.old.items) n pair }
{
    f.is_register_file(); // a fact for the proof
    if !is_valid(pair) {
        return;
    }
    if let Some(block) = block_of(pair.0, pair.1, f.maxphy) {
        let place = bars.len() as u32;
        bars.push(Bar {
            place,
            number: FIRST_PAIR + 2 * n,
            first: block.first,
            end: block.end(),
            base: pair.0,
            mask: pair.1,
            kind: Some(pair_type(pair)),
            is_on: f.is_enabled(),
        });
    }
}

fn fixed_bars(f: &RegFile) -> Bars
    ensures few { array_vec_len result ≤ 1 }
    ensures bars { result.items ≡ fixed_bars f.now }
{
    let mut bars = ArrayVec::new();
    if are_fixed_on(f) {
        bars.push(Bar {
            place: 0,
            number: FIRST_FIXED,
            first: 0,
            end: 0x100,
            base: 0,
            mask: 0,
            kind: None,
            is_on: true,
        });
    }
    bars
}

/// The bars of a file: that of the fixed-range registers where they are on, and those of the valid pairs, in order.
pub fn bars(f: &RegFile) -> Bars
    ensures { register_fault f.now ≡ None → result.items ≡ bars_of f.now }
{
    f.is_register_file(); // a fact for the proof
    let pairs = f.pairs.as_slice();
    let mut bars = fixed_bars(f);
    'pairs: for n in 0..pairs.len() {
        add_pair(&mut bars, f, n as u32, pairs[n]);
    }
    bars
}
