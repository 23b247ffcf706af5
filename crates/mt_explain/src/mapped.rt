ghost use Rattle.std.specs.Prelude.{◌≡◌, ◌↔◌, ◌≤◌, ◌<◌, ℕ, nat_lt, not, slice_get, None, IfOk, IsTrue};
ghost use Rattle.std.specs.List.{find};
ghost use Rattle.mt_regs.specs.RegisterFile.{page_count};
ghost use Rattle.mt_regs.specs.Faults.{register_fault};
ghost use Rattle.mt_explain.specs.Memory.{AreInOrder, AreMisfits, is_misfit, memory_at, misfit_at, next_of};

use crate::marked::Marked;
use crate::walk::spans;
use crate::{Misfit, Span};
use mt_kinds::MemType;
use mt_memory_kinds::{MemoryKind, MemoryRange};
use mt_regs::{PageType, RegFile, same_page_type};
use std::alloc::{AllocError, Global};

// Whether memory of a kind shouldn't have a type. Reserved pages may be the firmware's RAM, which is WB.
fn is_misfit(memory: MemoryKind, kind: PageType) -> bool
    ensures { result ≡ is_misfit memory kind }
{
    match memory {
        MemoryKind::Ram => !same_page_type(kind, PageType::Kind(MemType::WB)),
        MemoryKind::Reserved => same_page_type(kind, PageType::Kind(MemType::WC)),
        MemoryKind::Device => !same_page_type(kind, PageType::Kind(MemType::UC)),
        MemoryKind::Acpi => false,
        MemoryKind::Nvs => false,
        MemoryKind::Unusable => false,
    }
}

// Whether a page is behind the last one.
fn is_past(last: Option<u64>, page: u64) -> bool
    ensures { IsTrue result ↔ (next_of last ≤ page) }
{
    match last {
        Some(last) => last < page,
        None => true,
    }
}

/// Whether ranges are in ascending order, share no page, and have some.
pub fn are_in_order(ranges: &[MemoryRange]) -> bool
    ensures { IsTrue result ↔ AreInOrder ranges.now }
{
    let mut last = None;
    for range in ranges {
        if range.last < range.first || !is_past(last, range.first) {
            return false;
        }
        last = Some(range.last);
    }
    true
}

// The place of the first range that ends at a page or behind it, or the number of ranges.
fn place_from(ranges: &[MemoryRange], page: u64) -> usize
    requires { AreInOrder ranges.now }
    ensures { slice_get ranges.now result ≡ find (λ r. not (nat_lt r.last page)) ranges.now }
{
    ranges.partition_point(|range| range.last < page)
}

fn range_from(ranges: &[MemoryRange], page: u64) -> Option<MemoryRange>
    requires { AreInOrder ranges.now }
    ensures { result ≡ find (λ r. not (nat_lt r.last page)) ranges.now }
{
    ranges.get(place_from(ranges, page)).copied()
}

// The kind of a page's memory, if a range has the page.
fn memory_at(ranges: &[MemoryRange], page: u64) -> Option<MemoryKind>
    requires { AreInOrder ranges.now }
    ensures { result ≡ memory_at ranges.now page }
{
    match range_from(ranges, page) {
        Some(range) => {
            if page < range.first {
                None
            } else {
                Some(range.kind)
            }
        }
        None => None,
    }
}

// The next page at which the kind of memory may change, or `end`.
fn memory_edge(ranges: &[MemoryRange], page: u64, end: u64) -> u64
    requires order { AreInOrder ranges.now }
    requires page { page < end }
    ensures above { page < result }
    ensures bound { result ≤ end }
    ensures same { (other : ℕ) → page ≤ other → other < result → memory_at ranges.now other ≡ memory_at ranges.now page }
{
    match range_from(ranges, page) {
        Some(range) => {
            if page < range.first {
                range.first.min(end)
            } else {
                range.last.min(end - 1) + 1
            }
        }
        None => end,
    }
}

fn same_kind(a: MemoryKind, b: MemoryKind) -> bool
    ensures { IsTrue result ↔ (a ≡ b) }
{
    a == b
}

pub(crate) fn same_misfit(a: Misfit, b: Misfit) -> bool
    ensures { IsTrue result ↔ (a ≡ b) }
{
    same_kind(a.memory, b.memory) && a.kind.is(b.kind)
}

/// What a map and the registers make of a page, if the two don't fit.
pub(crate) fn misfit_at(f: &RegFile, ranges: &[MemoryRange], page: u64) -> Option<Misfit>
    requires { AreInOrder ranges.now }
    ensures { result ≡ misfit_at f.now ranges.now page }
{
    let memory = memory_at(ranges, page)?;
    let kind = f.page_type(page);
    if is_misfit(memory, kind) {
        Some(Misfit { memory, kind })
    } else {
        None
    }
}

/// The next page at which that may change, or the number of pages.
pub(crate) fn misfit_edge(f: &RegFile, ranges: &[MemoryRange], page: u64) -> u64
    requires checked { register_fault f.now ≡ None }
    requires order { AreInOrder ranges.now }
    requires page { page < page_count f.now }
    ensures above { page < result }
    ensures bound { result ≤ page_count f.now }
    ensures same { (other : ℕ) → page ≤ other → other < result → misfit_at f.now ranges.now other ≡ misfit_at f.now ranges.now page }
{
    memory_edge(ranges, page, f.pages()).min(f.next_edge(page))
}

// A map and a file: a page of memory whose type doesn't fit has both as its mark.
#[derive(Drop)]
struct Mapped<'a> {
    file: &'a RegFile,
    ranges: &'a [MemoryRange],
}

impl<'a> Marked for Mapped<'a> {
    type Mark = Misfit;

    ghost size = { λ c. page_count c.file.now };

    ghost marks = { λ c page. misfit_at c.file.now c.ranges.now page };

    ghost is_checked = { λ c. (register_fault c.file.now ≡ None) × AreInOrder c.ranges.now };

    fn pages(&self) -> u64 {
        self.file.pages()
    }

    fn mark_at(&self, page: u64) -> Option<Misfit> {
        misfit_at(self.file, self.ranges, page)
    }

    fn has(&self, page: u64, mark: &Misfit) -> bool {
        match self.mark_at(page) {
            Some(misfit) => same_misfit(misfit, *mark),
            None => false,
        }
    }

    fn next_edge(&self, page: u64) -> u64 {
        misfit_edge(self.file, self.ranges, page)
    }
}

/// The longest runs of pages whose type doesn't fit their memory, each with the kind of memory and the type, in ascending order: RAM
/// that isn't WB, devices that aren't UC, and reserved pages that are WC. No register of the file is at fault by itself. The ranges
/// are in ascending order and share no page. Pages beyond the file's address width aren't looked at. Fails only if an allocation fails.
pub fn misfits(
    alloc: Global,
    f: &RegFile,
    ranges: &[MemoryRange],
) -> Result<Vec<Span<Misfit>>, AllocError>
    requires checked { register_fault f.now ≡ None }
    requires order { AreInOrder ranges.now }
    ensures { IfOk result (λ misfits. AreMisfits f.now ranges.now misfits.items) }
{
    spans(alloc, &Mapped { file: f, ranges })
}
