ghost use Rattle.std.specs.Prelude.{◌≡◌, ◌≤◌, ◌<◌, ◌+◌, ◌-◌, ◌%◌, ◌^◌, if◌then◌else◌};
ghost use Rattle.mt_regs.specs.RegisterFile.{is_fixed_enabled};
ghost use Rattle.mt_gran.specs.Granules.{pages_of};
ghost use Rattle.mt_gran.specs.Marks.{IsCut, IsWholeRun};

use mt_regs::RegFile;
use mt_types::Run;

/// Where the pages of a run stop being free, and those of them that lie in whole granules.
#[derive(Clone, Copy, Drop)]
pub struct Cut {
    /// The pages below are free.
    pub free_end: u64,
    /// From here up to `whole_to` the pages lie in whole granules.
    pub whole_from: u64,
    pub whole_to: u64,
    /// The page behind the run.
    pub end: u64,
}

// The pages of a granule.
fn granule_size(g: u8) -> u64
    requires { g ≤ 28 }
    ensures { result ≡ 2 ^ g }
{
    1 << g
}

// The first page that isn't free.
fn first_not_free(f: &RegFile) -> u64
    ensures { result ≡ (if is_fixed_enabled f.now then 256 else 0) }
{
    if f.is_fixed_enabled() { 256 } else { 0 }
}

// Where the whole granules of a run begin, if it has one: at a granule's first page, or where pages stop being free.
fn whole_from(first: u64, start: u64, free_end: u64, g: u8) -> u64
    requires size { g ≤ 28 }
    requires first { first ≤ 2 ^ 40 }
    ensures low { first ≤ start → result ≡ free_end }
    ensures aligned { start < first → first % 2 ^ g ≡ 0 → result ≡ first }
    ensures within { start < first → 0 < first % 2 ^ g → result ≡ first - first % 2 ^ g + 2 ^ g }
{
    if first <= start {
        return free_end;
    }
    let size = granule_size(g);
    let past = first % size;
    if past == 0 {
        first
    } else {
        first - past + size
    }
}

// Where they end: at a granule's end, or at that of all pages.
fn whole_to(end: u64, pages: u64, g: u8) -> u64
    requires { g ≤ 28 }
    ensures last { end ≡ pages → result ≡ end }
    ensures inner { end < pages → result ≡ end - end % 2 ^ g }
{
    if end == pages {
        end
    } else {
        end - end % granule_size(g)
    }
}

/// The cut of a run of a file's type map.
pub fn cut_of(f: &RegFile, run: &Run, g: u8) -> Cut
    requires size { g ≤ 28 }
    requires run { IsWholeRun f.now run.now }
    ensures { IsCut (pages_of f.now) g run.now result }
{
    let pages = f.pages();
    let start = first_not_free(f);
    let end = run.first + run.count;
    let free_end = run.first.max(start).min(end);
    let from = whole_from(run.first, start, free_end, g);
    let to = whole_to(end, pages, g);
    if from < to {
        Cut {
            free_end,
            whole_from: from,
            whole_to: to,
            end,
        }
    } else {
        Cut {
            free_end,
            whole_from: end,
            whole_to: end,
            end,
        }
    }
}
