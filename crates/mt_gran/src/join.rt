ghost use Rattle.std.specs.Prelude.{◌≡◌, ◌≤◌, ◌<◌, ◌+◌, ◌-◌, ◌++◌, ◌∷◌, [], ◌↔◌, ℕ, Option, Some, IfNone, IfSome, IsTrue, length};
ghost use Rattle.std.specs.Option.{option_to_list};
ghost use Rattle.mt_types.specs.Runs.{run_end};
ghost use Rattle.mt_regs.specs.declared.page_type.PageType.{PageType};
ghost use Rattle.mt_gran.specs.Listed.{runs_in};
ghost use Rattle.mt_gran.specs.Marks.{AreRunsOf, HaveMark};

use mt_regs::PageType;
use mt_tidy::PackedRun;
use mt_types::Run;

// Whether pages of a type that begin at a page go on with a run.
fn goes_on(last: &Run, first: u64, kind: PageType) -> bool
    requires { run_end last.now ≤ first }
    ensures { IsTrue result ↔ ((run_end last.now ≡ first) × (last.now.kind ≡ kind)) }
{
    last.first + last.count == first && last.kind.is(kind)
}

// The last of so many runs, if there is one.
fn last_of(list: &[PackedRun], count: usize) -> Option<Run>
    requires { count ≤ length list.now }
    ensures list { runs_in count list.now ≡ runs_in (count - 1) list.now ++ option_to_list result }
    ensures none { IfNone result (count ≡ 0) }
    ensures some { IfSome result (λ _. 0 < count) }
{
    if count == 0 {
        None
    } else {
        Some(list[count - 1].unpacked())
    }
}

// Puts a run behind so many others, and returns how many there are then.
fn put(list: &mut [PackedRun], count: usize, run: Run) -> usize
    requires { count < length list.old }
    ensures runs { runs_in result list.new ≡ runs_in count list.old ++ run ∷ [] }
    ensures count { result ≡ count + 1 }
    ensures places { length list.new ≡ length list.old }
{
    list[count] = PackedRun::of(run);
    count + 1
}

/// Adds the pages from one up to another to so many runs, which end at or before the first of them, and returns how many
/// runs there are then. They join the last run where it ends there and has their type.
pub fn add(list: &mut [PackedRun], count: usize, first: u64, end: u64, kind: PageType) -> usize
    requires order { first ≤ end }
    requires room { count < length list.old }
    requires runs { (marks : ℕ → Option PageType) × AreRunsOf marks 0 first (runs_in count list.old) }
    ensures runs { (marks : ℕ → Option PageType) → AreRunsOf marks 0 first (runs_in count list.old)
        → HaveMark marks first end (Some kind) → AreRunsOf marks 0 end (runs_in result list.new) }
    ensures few { result ≤ count + 1 }
    ensures places { length list.new ≡ length list.old }
{
    if first == end {
        return count;
    }
    let added = Run {
        first,
        count: end - first,
        kind,
    };
    let Some(last) = last_of(list, count) else {
        return put(list, count, added);
    };
    if goes_on(&last, first, kind) {
        let longer = Run {
            first: last.first,
            count: last.count + added.count,
            kind,
        };
        return put(list, count - 1, longer);
    }
    put(list, count, added)
}
