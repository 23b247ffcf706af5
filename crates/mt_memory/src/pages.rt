ghost use Rattle.std.specs.Prelude.{◌≡◌, ◌≤◌, length, IfSome, MatchOption, None, Some};
ghost use Rattle.mt_memory_kinds.specs.Ranges.{AreAscending};
ghost use Rattle.mt_memory.specs.Pages.{claim_of, claims_of, counted, pages_between, pages_of, settled_kinds};
ghost use Rattle.mt_memory.specs.Log.{settled_from};

use crate::format::{Claim, Shown};
use crate::laying::joined;
use crate::settled::Settled;
use crate::{MemoryKind, MemoryRange, Ranges};
use mt_text::Place;

/// Bytes of a page.
const PAGE: u64 = 4096;

/// The kinds in the order in which they count for a page: the last that it has does.
const LATER_COUNT: [MemoryKind; 6] = [
    MemoryKind::Ram,
    MemoryKind::Device,
    MemoryKind::Acpi,
    MemoryKind::Nvs,
    MemoryKind::Reserved,
    MemoryKind::Unusable,
];

// Pages up to one that isn't among them.
fn pages_between(first: u64, end: u64, kind: MemoryKind) -> Option<MemoryRange>
    ensures { result ≡ pages_between first end kind }
{
    if first < end {
        Some(MemoryRange {
            first,
            last: end - 1,
            kind,
        })
    } else {
        None
    }
}

// The pages whose kind a range may decide: of RAM those that lie in it as a whole, of another kind those with some byte of it.
fn counted(range: &MemoryRange) -> Option<MemoryRange>
    ensures { result ≡ counted range.now }
{
    let (first, last) = (range.first / PAGE, range.last / PAGE);
    match range.kind {
        MemoryKind::Ram => {
            let cut = if range.first % PAGE == 0 { 0 } else { 1 };
            let filled = if range.last % PAGE == PAGE - 1 { 1 } else { 0 };
            pages_between(first + cut, last + filled, range.kind)
        }
        _ => pages_between(first, last + 1, range.kind),
    }
}

// What a range of a kind shows of pages.
fn claim_of(kind: MemoryKind, range: &MemoryRange) -> Shown
    ensures { result ≡ claim_of kind range.now }
{
    if !range.kind.is(kind) {
        return Shown::Nothing;
    }
    match counted(range) {
        Some(range) => Shown::Range(Claim {
            range,
            place: Place { line: 0, column: 0 },
        }),
        None => Shown::Nothing,
    }
}

fn lay_kind(settled: &mut Settled, kind: MemoryKind, ranges: &[MemoryRange])
    ensures { settled.new ≡ settled_from settled.old (claims_of kind ranges.now) }
{
    'each: for range in ranges {
        settled.take(&claim_of(kind, range));
    }
}

fn settled_kinds(kinds: &[MemoryKind], ranges: &[MemoryRange]) -> Settled
    ensures { result ≡ settled_kinds kinds.now ranges.now }
{
    let mut settled = Settled::new();
    'each: for kind in kinds {
        lay_kind(&mut settled, *kind, ranges);
    }
    settled
}

/// The pages of 4 KB of a map's ranges, which ascend: longest runs, each of one kind, from the first page to the last. A page is
/// RAM only if all its bytes are. Else it has the first of these kinds that some byte of it has: unusable, reserved, NVS, ACPI,
/// device. A page that is RAM in part and has none of them is in no run. None: there are more than 512 runs.
pub fn pages_of(ranges: &[MemoryRange]) -> Option<Ranges>
    requires { length ranges.now ≤ 512 }
    ensures pages { MatchOption result (pages_of ranges.now ≡ None) (λ pages. pages_of ranges.now ≡ Some pages.items) }
    ensures order { IfSome result (λ pages. AreAscending 0 pages.items) }
{
    let settled = settled_kinds(&LATER_COUNT, joined(ranges).as_slice());
    match settled.fault() {
        None => Some(settled.ranges()),
        Some(_) => None,
    }
}
