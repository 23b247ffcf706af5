ghost use Rattle.std.specs.Prelude.{◌≡◌, ◌≤◌, ◌<◌, ◌-◌, None, IfNone, IfSome, length, take, true};
ghost use Rattle.std.specs.List.{All};
ghost use Rattle.mt_regs.specs.Faults.{register_fault};
ghost use Rattle.mt_tidy.specs.Packed.{run_of, runs_of};
ghost use Rattle.mt_mend.specs.Wishes.{AreWished, IsFirstUndefined, IsWish, can_give, has_page, wished_type};

use crate::Wish;
use crate::edges::next_edge;
use mt_regs::{PageType, RegFile, is_supported};
use mt_tidy::{PackedRun, PackedRuns};
use mt_types::Run;

fn has_page(wish: &Wish, page: u64) -> bool
    ensures { result ≡ has_page wish.now page }
{
    wish.first <= page && page <= wish.last
}

/// The type that a page is to have: that of the last wish that has the page, or else its own.
pub fn wished_type(f: &RegFile, wishes: &[Wish], page: u64) -> PageType
    ensures { result ≡ wished_type f.now wishes.now page }
{
    let mut kind = f.page_type(page);
    for wish in wishes {
        if has_page(wish, page) {
            kind = PageType::Kind(wish.kind);
        }
    }
    kind
}

// The run of the pages from one up to another.
fn run_between(first: u64, end: u64, kind: PageType) -> PackedRun
    requires { first < end }
    ensures { run_of result ≡ record { first = first; count = end - first; kind = kind } }
{
    PackedRun::of(Run {
        first,
        count: end - first,
        kind,
    })
}

/// Writes the map of the wished types to the first places of an array, and returns how many runs it has.
pub fn wished_runs(f: &RegFile, wishes: &[Wish], runs: &mut [PackedRun]) -> usize
    requires checked { register_fault f.now ≡ None }
    requires wishes { All (IsWish f.now) wishes.now }
    requires some { length wishes.now ≤ 64 }
    requires room { 281 ≤ length runs.old }
    ensures few { result ≤ length runs.new }
    ensures map { AreWished f.now wishes.now (runs_of (take result runs.new)) }
{
    f.is_register_file(); // a fact for the proof
    let pages = f.pages();
    let mut count = 0;
    let mut first = 0;
    let mut kind = wished_type(f, wishes, 0);
    let mut end = next_edge(f, wishes, 0);
    while end < pages {
        let next = wished_type(f, wishes, end);
        if !next.is(kind) {
            runs[count] = run_between(first, end, kind);
            count += 1;
            first = end;
            kind = next;
        }
        end = next_edge(f, wishes, end);
    }
    runs[count] = run_between(first, end, kind);
    count + 1
}

// Whether a type is one that the processor has.
fn can_give(f: &RegFile, kind: PageType) -> bool
    ensures { result ≡ can_give f.now kind }
{
    match kind {
        PageType::Kind(kind) => is_supported(f.has_write_combining(), kind.byte()),
        PageType::Undefined => false,
    }
}

/// The first page of the first run whose type the processor hasn't.
pub fn first_undefined(f: &RegFile, runs: &PackedRuns) -> Option<u64>
    ensures none { IfNone result (All (λ r. can_give f.now r.kind ≡ true) runs.now) }
    ensures some { IfSome result (IsFirstUndefined f.now runs.now) }
{
    for i in 0..runs.count() {
        let run = runs.run_at(i);
        if !can_give(f, run.kind) {
            return Some(run.first);
        }
    }
    None
}
