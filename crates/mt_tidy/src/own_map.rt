ghost use Rattle.std.specs.Prelude.{◌≡◌, ◌≤◌, ◌<◌, ◌-◌, ◌↔◌, IsTrue, None, length, take};
ghost use Rattle.std.specs.List.{All};
ghost use Rattle.mt_regs.specs.Faults.{IsAccepted, register_fault};
ghost use Rattle.mt_regs.specs.RegisterFile.{page_count};
ghost use Rattle.mt_tidy.specs.Mapped.{IsMapFrom, first_ranged};
ghost use Rattle.mt_tidy.specs.Packed.{run_of, runs_of};
ghost use Rattle.mt_tidy.specs.Wanted.{IsWanted};
ghost use Rattle.mt_trie.specs.Wishes.{IsDefined};
ghost use Rattle.mt_types.specs.Runs.{IsRunsOf};

use crate::packed::{PackedRun, PackedRuns};
use mt_regs::{PageType, RegFile};
use mt_types::Run;

// The run of the pages from one up to another.
fn run_between(first: u64, end: u64, kind: PageType) -> PackedRun
    requires { first < end }
    ensures { run_of result ≡ record { first = first; count = end - first; kind = kind } }
{
    PackedRun::of(Run {
        first,
        count: end - first,
        kind,
    })
}

/// The first page whose type no fixed-range register gives.
pub fn first_ranged(f: &RegFile) -> u64
    ensures { result ≡ first_ranged f.now }
{
    if f.is_fixed_enabled() { 0x100 } else { 0 }
}

/// Writes the type map to the first places of an array, with the type of page `from` in place of those of the pages below
/// it, and returns how many runs it has.
pub fn map_from(f: &RegFile, from: u64, runs: &mut [PackedRun]) -> usize
    requires checked { register_fault f.now ≡ None }
    requires from { from < page_count f.now }
    requires room { 153 ≤ length runs.old }
    ensures few { result ≤ length runs.new }
    ensures map { IsMapFrom f.now from (runs_of (take result runs.new)) }
{
    f.is_register_file(); // a fact for the proof
    let pages = f.pages();
    let mut count = 0;
    let mut first = 0;
    let mut kind = f.page_type(from);
    let mut end = f.next_edge(from);
    while end < pages {
        let next = f.page_type(end);
        if !next.is(kind) {
            runs[count] = run_between(first, end, kind);
            count += 1;
            first = end;
            kind = next;
        }
        end = f.next_edge(end);
    }
    runs[count] = run_between(first, end, kind);
    count + 1
}

/// Whether each run has a type.
pub fn are_defined(runs: &PackedRuns) -> bool
    ensures { IsTrue result ↔ All IsDefined runs.now }
{
    for i in 0..runs.count() {
        if runs.run_at(i).kind.is_undefined() {
            return false;
        }
    }
    true
}

/// Writes the type map of an accepted file, which ranges can give it, to the first places of an array, and returns how
/// many runs it has. It takes no memory.
pub fn own_runs_in(f: &RegFile, runs: &mut [PackedRun]) -> usize
    requires accepted { IsAccepted f.now }
    requires room { 153 ≤ length runs.old }
    ensures few { result ≤ length runs.new }
    ensures runs { IsRunsOf f.now (runs_of (take result runs.new)) }
    ensures wanted { IsWanted f.now (runs_of (take result runs.new)) }
{
    f.is_register_file(); // a fact for the proof
    map_from(f, 0, runs)
}
