ghost use Rattle.std.specs.Prelude.{◌≡◌, ◌↔◌, ◌≤◌, ◌<◌, length, IfOk, IsTrue};
ghost use Rattle.mt_explain.specs.Groups.{AreFirstEqual, AreGroups, IsFirstEqual, members, numbers_of, switches};

use arrayvec::ArrayVec;
use mt_regs::RegFile;
use std::alloc::{AllocError, Global};

/// Numbers of processors, in ascending order.
pub type Cpus = ArrayVec<u32, 16>;

// The numbers of a file beside its pairs and fixed-range registers.
fn numbers_of(f: &RegFile) -> (u8, u64, u64, u64)
    ensures { result ≡ numbers_of f.now }
{
    (f.maxphy, f.cap, f.pat, f.deftype)
}

fn have_same_numbers(a: &RegFile, b: &RegFile) -> bool
    ensures { IsTrue result ↔ (numbers_of a.now ≡ numbers_of b.now) }
{
    numbers_of(a) == numbers_of(b)
}

fn have_same_fixed(a: &RegFile, b: &RegFile) -> bool
    ensures { IsTrue result ↔ (a.now.fixed ≡ b.now.fixed) }
{
    a.fixed == b.fixed
}

fn same_pairs(a: &[(u64, u64)], b: &[(u64, u64)]) -> bool
    ensures { IsTrue result ↔ (a.now ≡ b.now) }
{
    a == b
}

fn have_same_pairs(a: &RegFile, b: &RegFile) -> bool
    ensures { IsTrue result ↔ (a.now.pairs ≡ b.now.pairs) }
{
    same_pairs(a.pairs.as_slice(), b.pairs.as_slice())
}

/// Whether two files are equal: of one width, with equal capabilities and equal writable registers.
pub fn are_equal(a: &RegFile, b: &RegFile) -> bool
    ensures { IsTrue result ↔ (a.now ≡ b.now) }
{
    if !have_same_numbers(a, b) {
        return false;
    }
    if !have_same_fixed(a, b) {
        return false;
    }
    have_same_pairs(a, b)
}

/// The least number of a file that is equal to file `k`. Two files are of one group if and only if it is the same number.
pub fn first_equal(files: &[RegFile], k: usize) -> usize
    requires { k < length files.now }
    ensures { IsFirstEqual files.now k result }
{
    for j in 0..k {
        if are_equal(&files[j], &files[k]) {
            return j;
        }
    }
    k
}

// The first equal one of each file.
fn first_equals(files: &[RegFile]) -> Cpus
    requires { length files.now ≤ 16 }
    ensures { AreFirstEqual files.now result.items }
{
    let mut firsts = ArrayVec::new();
    for k in 0..files.len() {
        firsts.push(first_equal(files, k) as u32);
    }
    firsts
}

// The files whose first equal one is this.
fn members(firsts: &[u32], first: u32) -> Cpus
    requires { length firsts.now ≤ 16 }
    ensures { result.items ≡ members firsts.now first }
{
    let mut numbers = ArrayVec::new();
    for k in 0..firsts.len() {
        if firsts[k] == first {
            numbers.push(k as u32);
        }
    }
    numbers
}

/// The numbers of equal files, in a list for each group. Groups are in the order of their least numbers. Fails only if an
/// allocation fails.
pub fn groups_of(alloc: Global, files: &[RegFile]) -> Result<Vec<Cpus>, AllocError>
    requires { length files.now ≤ 16 }
    ensures { IfOk result (λ groups. AreGroups files.now groups.items) }
{
    let found = first_equals(files);
    let firsts = found.as_slice();
    let mut groups = Vec::new(alloc);
    for k in 0..firsts.len() {
        if firsts[k] as usize == k {
            groups.push(members(firsts, k as u32))?;
        }
    }
    Ok(groups)
}

/// Whether E and FE are as in the other file.
pub fn have_equal_switches(a: &RegFile, b: &RegFile) -> bool
    ensures { IsTrue result ↔ (switches a.now ≡ switches b.now) }
{
    a.is_enabled() == b.is_enabled() && a.is_fixed_enabled() == b.is_fixed_enabled()
}
