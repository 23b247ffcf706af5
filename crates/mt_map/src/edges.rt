ghost use Rattle.std.specs.Prelude.{◌≡◌, ◌≤◌, ◌<◌, IsTrue, IfOk, None};
ghost use Rattle.std.specs.List.{All};
ghost use Rattle.mt_regs.specs.Faults.{register_fault};
ghost use Rattle.mt_regs.specs.PageTypes.{page_type};
ghost use Rattle.mt_regs.specs.RegisterFile.{page_count};
ghost use Rattle.mt_map.specs.Bands.{AreEdges, HasOneType, HaveOneType, IsBandOf, other_type};

use crate::ranges::bars;
use mt_ports::NoMemory;
use mt_regs::RegFile;
use std::alloc::Global;

// The next page up to an end at which the type that a file gives may change.
fn next_in(f: &RegFile, page: u64, end: u64) -> u64
    requires checked { register_fault f.now ≡ None }
    requires page { page < end }
    ensures above { page < result }
    ensures bound { result ≤ end }
    ensures same { HasOneType f.now page result }
{
    if page < f.pages() {
        f.next_edge(page).min(end)
    } else {
        end
    }
}

// The same for a second file, if there is one.
fn next_in_other(others: &[RegFile], page: u64, end: u64) -> u64
    requires checked { All (λ g. register_fault g ≡ None) others.now }
    requires page { page < end }
    ensures above { page < result }
    ensures bound { result ≤ end }
    ensures same { HaveOneType others.now page result }
{
    match others {
        [] => end,
        [other, ..] => next_in(other, page, end),
    }
}

// The next page at which a type may change in one of the files.
fn next_edge(f: &RegFile, others: &[RegFile], page: u64) -> u64
    requires checked { register_fault f.now ≡ None }
    requires others_checked { All (λ g. register_fault g ≡ None) others.now }
    requires page { page < page_count f.now }
    ensures { IsBandOf f.now others.now page result }
{
    next_in_other(others, page, next_in(f, page, f.pages()))
}

// Whether a bar of a file begins or ends at a page.
fn has_edge(f: &RegFile, page: u64) -> bool {
    bars(f)
        .as_slice()
        .iter()
        .any(|bar| bar.first == page || bar.end == page)
}

// Whether a file gives a page the type of an earlier one, and no bar begins or ends there.
fn keeps_type(f: &RegFile, first: u64, page: u64) -> bool
    ensures { IsTrue result → page_type f.now page ≡ page_type f.now first }
{
    f.page_type(page).is(f.page_type(first)) && !has_edge(f, page)
}

// The same for a second file, if there is one.
fn other_keeps_type(others: &[RegFile], first: u64, page: u64) -> bool
    ensures { IsTrue result → other_type others.now page ≡ other_type others.now first }
{
    match others {
        [] => true,
        [other, ..] => keeps_type(other, first, page),
    }
}

// Whether a band goes on at a page behind its first.
fn goes_on(f: &RegFile, others: &[RegFile], first: u64, page: u64) -> bool
    ensures same { IsTrue result → page_type f.now page ≡ page_type f.now first }
    ensures other_same { IsTrue result → other_type others.now page ≡ other_type others.now first }
{
    keeps_type(f, first, page) && other_keeps_type(others, first, page)
}

// The end of the band that begins at a page.
fn band_end(f: &RegFile, others: &[RegFile], first: u64) -> u64
    requires checked { register_fault f.now ≡ None }
    requires others_checked { All (λ g. register_fault g ≡ None) others.now }
    requires page { first < page_count f.now }
    ensures { IsBandOf f.now others.now first result }
{
    let pages = f.pages();
    let mut end = next_edge(f, others, first);
    while end < pages {
        if !goes_on(f, others, first, end) {
            break;
        }
        end = next_edge(f, others, end);
    }
    end
}

/// The ends of the bands: the pages at which a type changes or a bar begins or ends, in a file and in the second one, and
/// the end of the address space, in ascending order. Fails only if an allocation fails.
pub fn cuts(alloc: Global, f: &RegFile, others: &[RegFile]) -> Result<Vec<u64>, NoMemory>
    requires checked { register_fault f.now ≡ None }
    requires others_checked { All (λ g. register_fault g ≡ None) others.now }
    ensures edges { IfOk result (λ cuts. AreEdges f.now others.now 0 cuts.items) }
{
    let pages = f.pages();
    let mut cuts = Vec::new(alloc);
    let mut page = 0;
    while page < pages {
        page = band_end(f, others, page);
        let Ok(()) = cuts.push(page) else {
            return Err(NoMemory);
        };
    }
    Ok(cuts)
}
