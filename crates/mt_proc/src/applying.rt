ghost use Rattle.std.specs.Prelude.{◌≡◌, ◌≤◌, ◌<◌, ◌+◌, ◌*◌, ◌-◌, ◌^◌, ◌↔◌, ℕ, true, false, length, if◌then◌else◌, MatchOption, Some, None};
ghost use Rattle.std.specs.List.{AllPass};
ghost use Rattle.mt_kinds.specs.Sizes.{page_bytes};
ghost use Rattle.mt_kinds.specs.declared.mem_type.MemType.{MemType as Kind};
ghost use Rattle.mt_ranges.specs.Blocks.{block_end};
ghost use Rattle.mt_regs.specs.RegisterFile.{RegisterFile as File, pair_at};
ghost use Rattle.mt_proc.specs.Applied.{IsGoodRange, IsLeastFree, applied, first_free, is_good_range, is_size, range_pair, with_pair};
ghost use Rattle.mt_ranges.specs.Match.{is_valid};

use crate::Request;
use mt_kinds::{MemType, PAGE_BYTES};
use mt_ranges::{Block, is_valid, pair_of};
use mt_regs::RegFile;

// The log of a page in bytes.
const PAGE_LOG: u8 = 12;

/// What a request makes of a register file.
#[derive(Drop)]
pub enum Applied {
    /// The file that it asks for, and the number of the pair that it changes.
    Goal(RegFile, u32),
    /// The size isn't a power of two of at least 4,096, the base isn't a multiple of it, or the range
    /// goes past the physical addresses.
    BadRange,
    /// Each pair is valid.
    NoneFree,
    /// The pair isn't valid, or there is none of this number.
    NotUsed,
}

pub(crate) fn power(k: u8) -> u64
    requires { k < 64 }
    ensures { result ≡ 2 ^ k }
{
    1 << k
}

// The log of a size in pages, where it is a power of two of at least a page.
fn size_log(size: u64) -> Option<u8>
    ensures { MatchOption result (is_size size ≡ false) (λ log. (is_size size ≡ true) × (size ≡ page_bytes * 2 ^ log) × (log ≤ 51)) }
{
    if size < PAGE_BYTES {
        return None;
    }
    let log = size.ilog2() as u8;
    if size == power(log) {
        Some(log - PAGE_LOG)
    } else {
        None
    }
}

// The pages of a range that a pair may have.
fn range_block(base: u64, size: u64, m: u8) -> Option<Block>
    requires low { 32 ≤ m }
    requires high { m ≤ 52 }
    ensures { MatchOption result (is_good_range m base size ≡ false)
        (λ b. (is_good_range m base size ≡ true) × (base ≡ page_bytes * b.first) × (size ≡ page_bytes * 2 ^ b.log) × (block_end b ≤ 2 ^ (m - 12))) }
{
    let Some(log) = size_log(size) else {
        return None;
    };
    let limit = power(m);
    if base % size != 0 || size > limit || base > limit - size {
        return None;
    }
    Some(Block {
        first: base / PAGE_BYTES,
        log,
    })
}

// The values of a pair for a range, where it is good.
fn range_pair(base: u64, size: u64, kind: MemType, m: u8) -> Option<(u64, u64)>
    requires low { 32 ≤ m }
    requires high { m ≤ 52 }
    ensures { result ≡ (if is_good_range m base size then Some (range_pair m base size kind) else None) }
{
    match range_block(base, size, m) {
        Some(block) => Some(pair_of(&block, kind.byte(), m)),
        None => None,
    }
}

// The least pair that isn't valid.
fn first_free(pairs: &[(u64, u64)]) -> Option<usize>
    ensures { result ≡ first_free pairs.now }
{
    pairs.iter().position(|pair| !is_valid(*pair))
}

// The file with other values of a pair.
fn with_pair(f: &RegFile, n: usize, pair: (u64, u64)) -> RegFile
    requires { n < length f.now.pairs }
    ensures { result ≡ with_pair f.now n pair }
{
    let mut file = f.same();
    file.pairs.as_mut_slice()[n] = pair;
    file
}

// What a request makes of a file.
fn change(f: &RegFile, r: &Request) -> Applied
    ensures { result ≡ applied f.now r.now }
{
    match *r {
        Request::Range { base, size, kind } => {
            let Some(pair) = range_pair(base, size, kind, f.maxphy) else {
                return Applied::BadRange;
            };
            match first_free(f.pairs.as_slice()) {
                Some(n) => Applied::Goal(with_pair(f, n, pair), n as u32),
                None => Applied::NoneFree,
            }
        }
        Request::Disable(n) => match f.pairs.as_slice().get(n as usize) {
            Some(pair) if is_valid(*pair) => {
                Applied::Goal(with_pair(f, n as usize, (0, 0)), n as u32)
            }
            _ => Applied::NotUsed,
        },
    }
}

/// What a request makes of a file: a range goes into the least pair that isn't valid, and a pair that
/// is to be cleared gets zeros. Each other register stays.
pub fn apply(f: &RegFile, r: &Request) -> Applied
    ensures answer { result ≡ applied f.now r.now }
    ensures least { (base size : ℕ) (kind : Kind) (goal : File) (n : ℕ) → r.now ≡ Request.Range base size kind → result ≡ Applied.Goal goal n
        → IsLeastFree f.now.pairs n × (goal ≡ with_pair f.now n (range_pair f.now.width base size kind)) }
    ensures none_free { (base size : ℕ) (kind : Kind) → r.now ≡ Request.Range base size kind → (result ≡ Applied.NoneFree) ↔ (IsGoodRange f.now.width base size × AllPass is_valid f.now.pairs) }
    ensures not_used { (n : ℕ) → r.now ≡ Request.Disable n → (result ≡ Applied.NotUsed) ↔ (is_valid (pair_at f.now.pairs n) ≡ false) }
    ensures bad_range { (base size : ℕ) (kind : Kind) → r.now ≡ Request.Range base size kind → (result ≡ Applied.BadRange) ↔ (IsGoodRange f.now.width base size → ⊥) }
{
    f.is_register_file(); // a fact for the proof
    change(f, r)
}
