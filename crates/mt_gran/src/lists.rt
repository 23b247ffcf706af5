ghost use Rattle.std.specs.Prelude.{◌≡◌, ◌≤◌, ◌<◌, ◌+◌, length};
ghost use Rattle.mt_regs.specs.RegisterFile.{page_count};
ghost use Rattle.mt_regs.specs.Faults.{IsAccepted};
ghost use Rattle.mt_types.specs.Runs.{IsRunsOf, run_end};
ghost use Rattle.mt_gran.specs.Granules.{AreRounded, pages_of, lost_pages};
ghost use Rattle.mt_gran.specs.Listed.{runs_in};
ghost use Rattle.mt_gran.specs.Marks.{AreRunsOf, IsWholeRun, lost_mark, part_loss, rounded_mark};

use crate::cut::cut_of;
use crate::join::add;
use mt_kinds::MemType;
use mt_regs::{PageType, RegFile};
use mt_tidy::{PackedRun, PackedRuns};
use mt_types::Run;

const UNCACHEABLE: PageType = PageType::Kind(MemType::UC);

// Adds the rounded types of a run's pages to so many runs, and returns how many there are then.
fn add_rounded(list: &mut [PackedRun], count: usize, f: &RegFile, run: &Run, g: u8) -> usize
    requires size { g ≤ 28 }
    requires run { IsWholeRun f.now run.now }
    requires room { count + 4 ≤ length list.old }
    requires runs { AreRunsOf (rounded_mark (pages_of f.now) g) 0 run.now.first (runs_in count list.old) }
    ensures runs { AreRunsOf (rounded_mark (pages_of f.now) g) 0 (run_end run.now) (runs_in result list.new) }
    ensures few { result ≤ count + 4 }
    ensures places { length list.new ≡ length list.old }
{
    let cut = cut_of(f, run, g);
    let count = add(list, count, run.first, cut.free_end, run.kind);
    let count = add(list, count, cut.free_end, cut.whole_from, UNCACHEABLE);
    let count = add(list, count, cut.whole_from, cut.whole_to, run.kind);
    add(list, count, cut.whole_to, cut.end, UNCACHEABLE)
}

// Adds the pages of a run that lose its type to so many runs, and returns how many there are then.
fn add_lost(list: &mut [PackedRun], count: usize, f: &RegFile, run: &Run, g: u8) -> usize
    requires size { g ≤ 28 }
    requires run { IsWholeRun f.now run.now }
    requires room { count + 2 ≤ length list.old }
    requires runs { AreRunsOf (lost_mark (pages_of f.now) g) 0 run.now.first (runs_in count list.old) }
    ensures runs { AreRunsOf (lost_mark (pages_of f.now) g) 0 (run_end run.now) (runs_in result list.new) }
    ensures few { result ≤ count + 2 }
    ensures places { length list.new ≡ length list.old }
{
    if run.kind.is(UNCACHEABLE) {
        return count;
    }
    let cut = cut_of(f, run, g);
    let count = add(list, count, cut.free_end, cut.whole_from, run.kind);
    add(list, count, cut.whole_to, cut.end, run.kind)
}

/// Writes the type map of the rounded types, from the type map of an accepted file, to the first places of an array, and
/// returns how many runs it has.
pub fn rounded_runs(f: &RegFile, own: &PackedRuns, g: u8, list: &mut [PackedRun]) -> usize
    requires size { g ≤ 28 }
    requires accepted { IsAccepted f.now }
    requires own { IsRunsOf f.now own.now }
    requires few { length own.now ≤ 153 }
    requires room { 612 ≤ length list.old }
    ensures runs { AreRounded (pages_of f.now) g (runs_in result list.new) }
    ensures few { result ≤ 612 }
    ensures places { length list.new ≡ length list.old }
{
    let mut count = 0;
    for i in 0..own.count() {
        count = add_rounded(list, count, f, &own.run_at(i), g);
    }
    count
}

/// Writes the longest runs of pages that lose one type, from the type map of an accepted file, to the first places of an
/// array, and returns how many there are.
pub fn lost_parts(f: &RegFile, own: &PackedRuns, g: u8, list: &mut [PackedRun]) -> usize
    requires size { g ≤ 28 }
    requires accepted { IsAccepted f.now }
    requires own { IsRunsOf f.now own.now }
    requires few { length own.now ≤ 153 }
    requires room { 306 ≤ length list.old }
    ensures runs { AreRunsOf (lost_mark (pages_of f.now) g) 0 (page_count f.now) (runs_in result list.new) }
    ensures few { result ≤ 306 }
    ensures places { length list.new ≡ length list.old }
{
    let mut count = 0;
    for i in 0..own.count() {
        count = add_lost(list, count, f, &own.run_at(i), g);
    }
    count
}

// How many pages of a part had WB.
fn part_loss(part: &Run) -> u64
    ensures { result ≡ part_loss part.now }
{
    match part.kind {
        PageType::Kind(MemType::WB) => part.count,
        _ => 0,
    }
}

/// How many pages of the parts had WB.
pub fn lost_of(f: &RegFile, parts: &PackedRuns, g: u8) -> u64
    requires { AreRunsOf (lost_mark (pages_of f.now) g) 0 (page_count f.now) parts.now }
    ensures { result ≡ lost_pages (pages_of f.now) g }
{
    f.is_register_file(); // a fact for the proof
    let mut lost = 0;
    for i in 0..parts.count() {
        lost += part_loss(&parts.run_at(i));
    }
    lost
}
