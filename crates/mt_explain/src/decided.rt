ghost use Rattle.std.specs.Prelude.{◌≡◌, ◌↔◌, ◌≤◌, ◌<◌, ℕ, length, min, None, IfOk, IsTrue};
ghost use Rattle.mt_regs.specs.Alike.{HasFixedPart};
ghost use Rattle.mt_regs.specs.RegisterFile.{page_count};
ghost use Rattle.mt_regs.specs.Faults.{register_fault};
ghost use Rattle.mt_explain.specs.Deciders.{AreDeciders, decider_from, decider_of, deciding_pairs, is_uncached_pair, uncached_of};

use crate::marked::Marked;
use crate::pairs::{pair_at, pairs_at};
use crate::walk::spans;
use crate::{Decider, Span};
use arrayvec::ArrayVec;
use mt_kinds::MemType;
use mt_ranges::{fixed_end, fixed_place};
use mt_regs::{RegFile, are_one, has_uncached, pair_type, same_type};
use std::alloc::{AllocError, Global};

fn is_uncached_pair(f: &RegFile, n: u8) -> bool
    ensures { result ≡ is_uncached_pair f.now n }
{
    same_type(MemType::UC, pair_type(pair_at(f, n)))
}

// Those of UC.
fn uncached_of(f: &RegFile, pairs: &[u8]) -> ArrayVec<u8, 32>
    requires { length pairs.now ≤ 32 }
    ensures { result.items ≡ uncached_of f.now pairs.now }
{
    let mut numbers = ArrayVec::new();
    for n in pairs {
        if is_uncached_pair(f, *n) {
            numbers.push(*n);
        }
    }
    numbers
}

// The pairs that match a page, of which those of UC decide alone if it wins over other types.
fn deciding_pairs(f: &RegFile, page: u64) -> ArrayVec<u8, 32>
    ensures { result.items ≡ deciding_pairs f.now page }
{
    let pairs = pairs_at(f, page);
    let types = f.matching_types(page);
    if has_uncached(types.as_slice()) && !are_one(types.as_slice()) {
        uncached_of(f, pairs.as_slice())
    } else {
        pairs
    }
}

/// The registers that give a page its type.
pub(crate) fn decider_of(f: &RegFile, page: u64) -> Decider
    ensures { result ≡ decider_of f.now page }
{
    if !f.is_enabled() {
        return Decider::Switch;
    }
    if f.is_fixed_enabled() {
        if let Some((place, _)) = fixed_place(page) {
            return Decider::Fixed(place);
        }
    }
    Decider::Pairs(deciding_pairs(f, page))
}

pub(crate) fn same_decider(a: &Decider, b: &Decider) -> bool
    ensures { IsTrue result ↔ (a.now ≡ b.now) }
{
    match a {
        Decider::Switch => match b {
            Decider::Switch => true,
            Decider::Fixed(_) => false,
            Decider::Pairs(_) => false,
        },
        Decider::Fixed(place) => match b {
            Decider::Switch => false,
            Decider::Fixed(other) => *place == *other,
            Decider::Pairs(_) => false,
        },
        Decider::Pairs(pairs) => match b {
            Decider::Switch => false,
            Decider::Fixed(_) => false,
            Decider::Pairs(others) => pairs.as_slice() == others.as_slice(),
        },
    }
}

// The next page of another fixed part, or `end`.
fn part_edge(page: u64, end: u64) -> u64
    requires { page < end }
    ensures above { page < result }
    ensures bound { result ≤ end }
    ensures part { HasFixedPart page result }
{
    if page < 0x100 {
        fixed_end(page).min(end)
    } else {
        end
    }
}

/// The next page at which other registers may decide, or `end`.
pub(crate) fn decider_edge(f: &RegFile, page: u64, end: u64) -> u64
    requires checked { register_fault f.now ≡ None }
    requires page { page < end }
    requires end { end ≤ page_count f.now }
    ensures above { page < result }
    ensures bound { result ≤ end }
    ensures same { (other : ℕ) → page ≤ other → other < result → decider_of f.now other ≡ decider_of f.now page }
{
    part_edge(page, end).min(f.next_edge(page))
}

// A file: the pages from `first` up to `end` have as their marks what gives them their types.
#[derive(Drop)]
struct Decided<'a> {
    file: &'a RegFile,
    first: u64,
    end: u64,
}

impl<'a> Marked for Decided<'a> {
    type Mark = Decider;

    ghost size = { λ c. min c.end (page_count c.file.now) };

    ghost marks = { λ c page. decider_from c.file.now c.first page };

    ghost is_checked = { λ c. register_fault c.file.now ≡ None };

    fn pages(&self) -> u64 {
        self.end.min(self.file.pages())
    }

    fn mark_at(&self, page: u64) -> Option<Decider> {
        if page < self.first {
            None
        } else {
            Some(decider_of(self.file, page))
        }
    }

    fn has(&self, page: u64, mark: &Decider) -> bool {
        match self.mark_at(page) {
            Some(decider) => same_decider(&decider, mark),
            None => false,
        }
    }

    fn next_edge(&self, page: u64) -> u64 {
        let end = self.pages();
        if page < self.first {
            self.first.min(end)
        } else {
            decider_edge(self.file, page, end)
        }
    }
}

/// The longest runs of pages from `first` up to `end` whose types the same registers give, in ascending order, each with these
/// registers. No register of the file is at fault by itself. Pages beyond the address width aren't looked at. Fails only if an
/// allocation fails.
pub fn deciders(
    alloc: Global,
    f: &RegFile,
    first: u64,
    end: u64,
) -> Result<Vec<Span<Decider>>, AllocError>
    requires { register_fault f.now ≡ None }
    ensures { IfOk result (λ deciders. AreDeciders f.now first end deciders.items) }
{
    spans(
        alloc,
        &Decided {
            file: f,
            first,
            end,
        },
    )
}
