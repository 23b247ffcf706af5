ghost use Rattle.std.specs.Prelude.{◌≡◌, ◌≤◌, IfErr, IfOk, length, true};
ghost use Rattle.mt_regs.specs.Faults.{IsAccepted};
ghost use Rattle.mt_regs.specs.RegisterFile.{is_enabled, page_count};
ghost use Rattle.mt_types.specs.Runs.{IsRunsOf};
ghost use Rattle.mt_gran.specs.Granules.{AreRounded, lost_pages, pages_of};
ghost use Rattle.mt_gran.specs.Grained.{IsGrained, IsWhy, NeedsMore};
ghost use Rattle.mt_gran.specs.Listed.{grained_in, runs_in};
ghost use Rattle.mt_gran.specs.Marks.{AreRunsOf, lost_mark};
ghost use Rattle.mt_tidy.specs.Tidied.{tidying};

use crate::lists::{lost_of, lost_parts, rounded_runs};
use crate::{GranFault, RunList};
use mt_regs::RegFile;
use mt_tidy::{NO_RUN, PackedRun, PackedRuns, Tidied, TooFew, WorkArea, fit, own_runs_in};

/// A file of the rounded types with as few valid pairs as may be, and what was lost.
#[derive(Drop)]
pub struct Grained {
    pub tidied: Tidied,
    /// How many pages had WB and get UC.
    pub lost: u64,
    /// The longest runs of pages of one type other than UC that get UC, in ascending order.
    pub parts: RunList<306>,
}

/// What a rounding loses, where the parts are left in a work area.
#[derive(Clone, Copy, Drop)]
pub struct Lost {
    /// How many pages had WB and get UC.
    pub pages: u64,
    /// How many parts there are, in the first places of the area's `wanted`.
    pub parts: usize,
}

const NONE_LOST: Lost = Lost { pages: 0, parts: 0 };

/// The type map of an accepted file, rounded to granules of `2^g` pages: a page keeps its type where it is free or all
/// pages of its granule that aren't free have one type, and gets UC otherwise.
pub fn rounded(f: &RegFile, g: u8) -> RunList<612>
    requires accepted { IsAccepted f.now }
    requires size { g ≤ 28 }
    ensures { AreRounded (pages_of f.now) g result }
{
    let mut own = [NO_RUN; 153];
    let count = own_runs_in(f, &mut own);
    let own = PackedRuns {
        packed: &own[..count],
    };
    let mut runs = [NO_RUN; 612];
    let count = rounded_runs(f, &own, g, &mut runs);
    RunList::of(&PackedRuns {
        packed: &runs[..count],
    })
}

// What a rounding loses. Its parts are written to the first places of an array.
fn lost_in(f: &RegFile, own: &PackedRuns, g: u8, list: &mut [PackedRun]) -> Lost
    requires size { g ≤ 28 }
    requires accepted { IsAccepted f.now }
    requires own { IsRunsOf f.now own.now }
    requires few { length own.now ≤ 153 }
    requires room { 306 ≤ length list.old }
    ensures pages { result.pages ≡ lost_pages (pages_of f.now) g }
    ensures runs { AreRunsOf (lost_mark (pages_of f.now) g) 0 (page_count f.now) (runs_in result.parts list.new) }
    ensures few { result.parts ≤ 306 }
    ensures places { length list.new ≡ length list.old }
{
    let parts = lost_parts(f, own, g, list);
    let runs = PackedRuns {
        packed: &list[..parts],
    };
    Lost {
        pages: lost_of(f, &runs, g),
        parts,
    }
}

// What `gran_in` does, for an accepted file whose range registers are on.
#[inline(always)] // so that its callers take little stack
fn rounded_fit(
    f: &RegFile,
    g: u8,
    spare: u8,
    chunk: u64,
    area: &mut WorkArea,
    lost: &mut Lost,
) -> Result<Tidied, TooFew>
    requires accepted { IsAccepted f.now }
    requires enabled { is_enabled f.now ≡ true }
    requires size { g ≤ 28 }
    ensures ok { IfOk result (λ tidied. IsGrained (tidying f.now chunk spare) g (grained_in tidied lost.new area.new.wanted)) }
    ensures few { (lost.new.parts ≤ 306) × (lost.new.parts ≤ length area.new.wanted) }
    ensures err { IfErr result (λ few. NeedsMore (tidying f.now chunk spare) g few.needs few.has) }
{
    f.is_register_file(); // a fact for the proof
    let count = own_runs_in(f, &mut area.own);
    let own = PackedRuns {
        packed: &area.own[..count],
    };
    let count = rounded_runs(f, &own, g, &mut area.wanted);
    // moved once, when all else is done: a second copy would take a file's room on the stack
    let fitted = fit(f, &area.wanted[..count], spare, chunk, &mut area.costs);
    *lost = lost_in(f, &own, g, &mut area.wanted);
    fitted
}

/// The file that differs from `f` in its pairs alone and gives each page its type rounded to granules of `2^g` pages.
/// It has the fewest pairs, as by `fit`. What is lost comes with it. Fails if and only if `GranFault` says so.
/// Allocates nothing: what is large is in `area`, whose contents may be any. The parts that are lost are left there.
/// `lost` is written if the file is accepted and enabled.
pub fn gran_in(
    f: &RegFile,
    g: u8,
    spare: u8,
    chunk: u64,
    area: &mut WorkArea,
    lost: &mut Lost,
) -> Result<Tidied, GranFault>
    requires { g ≤ 28 }
    ensures ok { IfOk result (λ tidied. IsGrained (tidying f.now chunk spare) g (grained_in tidied lost.new area.new.wanted)) }
    ensures few { IfOk result (λ _. (lost.new.parts ≤ 306) × (lost.new.parts ≤ length area.new.wanted)) }
    ensures err { IfErr result (IsWhy (tidying f.now chunk spare) g) }
{
    if let Some(fault) = f.first_fault() {
        return Err(GranFault::Refused(fault));
    }
    if !f.is_enabled() {
        return Err(GranFault::Disabled);
    }
    match rounded_fit(f, g, spare, chunk, area, lost) {
        Ok(tidied) => Ok(tidied),
        Err(TooFew { needs, has }) => Err(GranFault::TooFew { needs, has }),
    }
}

// With the parts in a list of their own.
fn listed(tidied: Tidied, lost: Lost, area: &WorkArea) -> Grained
    requires few { lost.parts ≤ 306 }
    requires places { lost.parts ≤ length area.now.wanted }
    ensures { result ≡ grained_in tidied lost area.now.wanted }
{
    Grained {
        tidied,
        lost: lost.pages,
        parts: RunList::of(&PackedRuns {
            packed: &area.wanted[..lost.parts],
        }),
    }
}

/// As `gran_in`, with the parts in a list of their own.
pub fn gran(
    f: &RegFile,
    g: u8,
    spare: u8,
    chunk: u64,
    area: &mut WorkArea,
) -> Result<Grained, GranFault>
    requires { g ≤ 28 }
    ensures ok { IfOk result (IsGrained (tidying f.now chunk spare) g) }
    ensures err { IfErr result (IsWhy (tidying f.now chunk spare) g) }
{
    let mut lost = NONE_LOST;
    let tidied = gran_in(f, g, spare, chunk, area, &mut lost)?;
    Ok(listed(tidied, lost, area))
}

/// Does what `gran` does, for a file that is known to be accepted and whose range registers are on.
pub fn gran_enabled(
    f: &RegFile,
    g: u8,
    spare: u8,
    chunk: u64,
    area: &mut WorkArea,
) -> Result<Grained, TooFew>
    requires accepted { IsAccepted f.now }
    requires enabled { is_enabled f.now ≡ true }
    requires size { g ≤ 28 }
    ensures ok { IfOk result (IsGrained (tidying f.now chunk spare) g) }
    ensures err { IfErr result (λ few. NeedsMore (tidying f.now chunk spare) g few.needs few.has) }
{
    let mut lost = NONE_LOST;
    let tidied = rounded_fit(f, g, spare, chunk, area, &mut lost)?;
    Ok(listed(tidied, lost, area))
}
