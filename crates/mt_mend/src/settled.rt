ghost use Rattle.std.specs.Prelude.{◌≡◌, ◌≤◌, ◌<◌, ℕ, IfErr, IfOk, length, true};
ghost use Rattle.mt_regs.specs.Faults.{IsAccepted};
ghost use Rattle.mt_regs.specs.RegisterFile.{pair_count};
ghost use Rattle.mt_tidy.specs.Tidied.{tidying, valid_count};
ghost use Rattle.mt_mend.specs.Settled.{IsAsGood, IsPlaced, IsSettled, IsStart, IsWhyNot};

use crate::fixed::{first_unmet, with_fixed};
use crate::mending::{check_registers, check_wishes, mend, with_pairs};
use crate::{MendFault, Wish};
use arrayvec::ArrayVec;
use mt_explain::changed_pages;
use mt_ranges::is_valid;
use mt_regs::RegFile;
use mt_tidy::{Tidied, WorkArea};

// A chunk that bounds no overlap.
const ANY_CHUNK: u64 = 1 << 52;

// How many pairs are valid.
fn valid_count(f: &RegFile) -> usize
    ensures { result ≡ valid_count f.now }
{
    f.pairs
        .as_slice()
        .iter()
        .filter(|pair| is_valid(**pair))
        .count()
}

// Whether a file is as good as a mended one.
fn is_as_good(f: &RegFile, new: &Tidied) -> bool
    requires { IsAccepted new.now.file }
    ensures { result ≡ true → IsAsGood new.now f.now }
{
    if valid_count(f) > new.used as usize {
        return false;
    }
    match f.first_fault() {
        Some(_) => false,
        None => changed_pages(f, &new.file) == 0,
    }
}

// Whether the pair is one of the pairs.
fn contains(pairs: &[(u64, u64)], pair: (u64, u64)) -> bool {
    for other in pairs {
        if *other == pair {
            return true;
        }
    }
    false
}

// Whether an old pair is one of the new ones, and the first of its equals.
fn is_kept(old: &[(u64, u64)], new: &[(u64, u64)], place: usize) -> bool
    requires { place < length old.now }
{
    is_valid(old[place]) && contains(new, old[place]) && !contains(&old[..place], old[place])
}

// The place of the next valid new pair that isn't an old one.
fn next_new(old: &[(u64, u64)], new: &[(u64, u64)], from: usize) -> usize {
    for place in from..new.len() {
        if is_valid(new[place]) && !contains(old, new[place]) {
            return place;
        }
    }
    new.len()
}

// A pair that stays as it is, if it is kept or isn't valid, and else zeros.
fn left_pair(pair: (u64, u64), is_kept: bool) -> (u64, u64) {
    if is_kept || !is_valid(pair) {
        pair
    } else {
        (0, 0)
    }
}

// The new pairs. Those that are old ones keep their places, and the others take the first places that are left.
fn kept_pairs(old: &[(u64, u64)], new: &[(u64, u64)]) -> ArrayVec<(u64, u64), 32>
    requires { length old.now ≤ 32 }
    ensures { length result.items ≡ length old.now }
{
    let mut pairs = ArrayVec::new();
    let mut next = next_new(old, new, 0);
    for place in 0..old.len() {
        let is_kept = is_kept(old, new, place);
        if !is_kept && next < new.len() {
            pairs.push(new[next]);
            next = next_new(old, new, next + 1);
        } else {
            pairs.push(left_pair(old[place], is_kept));
        }
    }
    pairs
}

// The mended file, or one as good whose pairs stay where they were. If the old file may stay and is as good, it is that.
fn settled(f: &RegFile, new: Tidied, may_stay: bool) -> RegFile
    requires accepted { IsAccepted new.file }
    requires others { new.file ≡ record f.now { pairs = new.file.pairs } }
    ensures { IsSettled f.now new result }
{
    if may_stay && is_as_good(f, &new) {
        return f.same();
    }
    f.is_register_file(); // a fact for the proof
    let kept = with_pairs(f, kept_pairs(f.pairs.as_slice(), new.file.pairs.as_slice()));
    if is_as_good(&kept, &new) {
        return kept;
    }
    new.file
}

/// The file in which fixed-range registers give the types that are wished below 1 MB, if they are on. Its pairs are as they were.
pub fn fixed_file(f: &RegFile, wishes: &[Wish]) -> Result<RegFile, MendFault>
    ensures ok { IfOk result (IsStart f.now wishes.now) }
    ensures err { IfErr result (λ fault. (chunk spare : ℕ) → IsWhyNot (tidying f.now chunk spare) wishes.now fault) }
{
    check_wishes(f, wishes)?;
    check_registers(f)?;
    let start = with_fixed(f, wishes);
    match first_unmet(f, wishes, &start) {
        Some(page) => Err(MendFault::FixedRange { page }),
        None => Ok(start),
    }
}

/// As `mend`, where fixed-range registers change too: if they are on, they give pages below 1 MB their wished types. Pairs stay where
/// they were, if that can be: those that are among the least ones keep their places. If the file gives the wished types already, no list
/// of ranges is shorter, and the chunk bounds no overlap, it stays as it is.
pub fn mend_in_place(
    f: &RegFile,
    wishes: &[Wish],
    spare: u8,
    chunk: u64,
    area: &mut WorkArea,
) -> Result<RegFile, MendFault>
    ensures ok { IfOk result (IsPlaced (tidying f.now chunk spare) wishes.now) }
    ensures err { IfErr result (IsWhyNot (tidying f.now chunk spare) wishes.now) }
{
    let start = fixed_file(f, wishes)?;
    match mend(&start, wishes, spare, chunk, area) {
        Ok(new) => Ok(settled(&start, new, chunk >= ANY_CHUNK)),
        Err(fault) => Err(fault),
    }
}
