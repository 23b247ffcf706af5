ghost use Rattle.std.specs.Prelude.{◌≡◌, ◌≤◌, ◌<◌, ◌↔◌, ◌==◌, length, map, true, IfSome, IsSome};
ghost use Rattle.std.specs.List.{list_all};
ghost use Rattle.mt_plain.specs.Plain.{as_pair, file_in, has_no_other_fixed, has_no_other_pair, is_file, is_zero_pair};
ghost use Rattle.mt_regs.specs.RegisterFile.{IsRegisterFile, low_byte};

use crate::{PlainPair, PlainRegisters};
use arrayvec::ArrayVec;
use mt_kinds::{MTRRCAP_FIX, is_bit_set};
use mt_regs::RegFile;

// VCNT.
fn pair_count(capabilities: u64) -> usize
    ensures count { result ≡ low_byte capabilities }
    ensures bound { result < 256 }
{
    (capabilities % 256) as usize
}

fn are_zero_pairs(pairs: &[PlainPair]) -> bool
    ensures { result ≡ list_all is_zero_pair pairs.now }
{
    pairs.iter().all(|pair| pair.base == 0 && pair.mask == 0)
}

fn are_zero(values: &[u64]) -> bool
    ensures { result ≡ list_all (λ v. v == 0) values.now }
{
    values.iter().all(|value| *value == 0)
}

fn copied(pairs: &[PlainPair]) -> ArrayVec<(u64, u64), 32>
    requires { length pairs.now ≤ 32 }
    ensures { result.items ≡ map as_pair pairs.now }
{
    let mut copy = ArrayVec::new();
    for pair in pairs {
        copy.push((pair.base, pair.mask));
    }
    copy
}

/// Whether the words are a register file's: a width of 32 to 52 bits, at most 32 pairs by VCNT, zeros in the pairs
/// beyond, and zeros in the fixed-range registers where FIX is clear.
pub fn is_file(r: &PlainRegisters) -> bool
    ensures file { result ≡ is_file r.now }
    ensures meets { result ≡ true → IsRegisterFile (file_in r.now) }
{
    if r.width < 32 || r.width > 52 {
        return false;
    }
    let count = pair_count(r.capabilities);
    if count > 32 {
        return false;
    }
    are_zero_pairs(&r.pairs[count..])
        && (is_bit_set(r.capabilities, MTRRCAP_FIX) || are_zero(&r.fixed))
}

/// The file, where the words are a register file's.
pub fn file_of(r: &PlainRegisters) -> Option<RegFile>
    ensures file { IfSome result (λ f. f ≡ file_in r.now) }
    ensures exact { IsSome result ↔ (is_file r.now ≡ true) }
{
    if !is_file(r) {
        return None;
    }
    let count = pair_count(r.capabilities);
    Some(RegFile {
        maxphy: r.width as u8,
        cap: r.capabilities,
        pairs: copied(&r.pairs[..count]),
        fixed: r.fixed,
        pat: r.pat,
        deftype: r.default_type,
    })
}
