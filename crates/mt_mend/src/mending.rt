ghost use Rattle.std.specs.Prelude.{◌≡◌, ◌≤◌, ℕ, IfErr, IfOk, List, None, length, replicate, true};
ghost use Rattle.std.specs.List.{All};
ghost use Rattle.mt_regs.specs.Faults.{register_fault};
ghost use Rattle.mt_regs.specs.RegisterFile.{is_enabled, pair_count};
ghost use Rattle.mt_tidy.specs.Tidied.{tidying};
ghost use Rattle.mt_mend.specs.Mended.{AreWishes, IsMended, IsReady, IsWhy, bare_file};
ghost use Rattle.mt_mend.specs.Wishes.{AreMetBelow, AreWished, can_give};
ghost use Rattle.mt_mend.specs.declared.wish.Wish.{Wish};

use crate::faults::first_wish_fault;
use crate::fixed::first_unmet;
use crate::wished::{first_undefined, wished_runs};
use crate::{MAX_WISHES, MendFault, Wish};
use arrayvec::ArrayVec;
use mt_regs::RegFile;
use mt_tidy::{PackedRuns, Tidied, TooFew, WorkArea, fit};

/// Refuses wishes of which one is at fault.
pub fn check_wishes(f: &RegFile, wishes: &[Wish]) -> Result<(), MendFault>
    ensures ok { IfOk result (λ _. AreWishes f.now wishes.now) }
    ensures err { IfErr result (λ fault. (chunk spare : ℕ) → IsWhy (tidying f.now chunk spare) wishes.now fault) }
{
    if wishes.len() > MAX_WISHES {
        return Err(MendFault::TooManyWishes);
    }
    match first_wish_fault(f, wishes) {
        Some((number, fault)) => Err(MendFault::Wish { number, fault }),
        None => Ok(()),
    }
}

/// Refuses a file with a register at fault by itself, and one whose range registers are off.
pub fn check_registers(f: &RegFile) -> Result<(), MendFault>
    ensures ok { IfOk result (λ _. (register_fault f.now ≡ None) × (is_enabled f.now ≡ true)) }
    ensures err { IfErr result (λ fault. (wishes : List Wish) (chunk spare : ℕ) → AreWishes f.now wishes → IsWhy (tidying f.now chunk spare) wishes fault) }
{
    if let Some(fault) = f.register_fault() {
        return Err(MendFault::Refused(fault));
    }
    if f.is_enabled() {
        Ok(())
    } else {
        Err(MendFault::Disabled)
    }
}

// Refuses wishes that fixed-range registers don't meet.
fn check_fixed(f: &RegFile, wishes: &[Wish]) -> Result<(), MendFault>
    ensures ok { IfOk result (λ _. AreMetBelow f.now wishes.now f.now) }
    ensures err { IfErr result (λ fault. (chunk spare : ℕ) → IsReady f.now wishes.now → IsWhy (tidying f.now chunk spare) wishes.now fault) }
{
    match first_unmet(f, wishes, f) {
        Some(page) => Err(MendFault::FixedRange { page }),
        None => Ok(()),
    }
}

// Refuses a map with a run without a type of the processor.
fn check_runs(f: &RegFile, runs: &PackedRuns) -> Result<(), MendFault>
    ensures ok { IfOk result (λ _. All (λ r. can_give f.now r.kind ≡ true) runs.now) }
    ensures err { IfErr result (λ fault. (wishes : List Wish) (chunk spare : ℕ) → IsReady f.now wishes → AreWished f.now wishes runs.now
        → IsWhy (tidying f.now chunk spare) wishes fault) }
{
    match first_undefined(f, runs) {
        Some(page) => Err(MendFault::Undefined { page }),
        None => Ok(()),
    }
}

// Pairs of zeros.
fn zero_pairs(count: usize) -> ArrayVec<(u64, u64), 32>
    requires { count ≤ 32 }
    ensures { result.items ≡ replicate count (0, 0) }
{
    let mut pairs = ArrayVec::new();
    for _ in 0..count {
        pairs.push((0, 0));
    }
    pairs
}

/// The file with other pairs.
pub fn with_pairs(f: &RegFile, pairs: ArrayVec<(u64, u64), 32>) -> RegFile
    requires { length pairs.items ≡ pair_count f.now }
    ensures { result ≡ record f.now { pairs = pairs.items } }
{
    RegFile {
        maxphy: f.maxphy,
        cap: f.cap,
        pairs,
        fixed: f.fixed,
        pat: f.pat,
        deftype: f.deftype,
    }
}

// The file with zeros in its pairs.
fn bare_file(f: &RegFile) -> RegFile
    ensures { result ≡ bare_file f.now }
{
    f.is_register_file(); // a fact for the proof
    with_pairs(f, zero_pairs(f.pairs.len()))
}

/// The file that differs from `f` in its pairs alone and gives each page its wished type with the fewest of them: the type of
/// the last wish that has the page, or else its own. Fixed-range registers that are on give theirs already. `f` may have undefined pages, if wishes have each of them. Of two valid
/// pairs that share a page the larger has at most `chunk` bytes. `spare` pairs stay unused. The valid pairs stand first: by
/// ascending first page, then the larger first, then by type byte. The others are zeros. Fails if and only if `MendFault`
/// says so. Allocates nothing: what is large is in `area`, whose contents may be any.
pub fn mend(
    f: &RegFile,
    wishes: &[Wish],
    spare: u8,
    chunk: u64,
    area: &mut WorkArea,
) -> Result<Tidied, MendFault>
    ensures ok { IfOk result (IsMended (tidying f.now chunk spare) wishes.now) }
    ensures err { IfErr result (IsWhy (tidying f.now chunk spare) wishes.now) }
{
    check_wishes(f, wishes)?;
    check_registers(f)?;
    check_fixed(f, wishes)?;
    let count = wished_runs(f, wishes, &mut area.wanted);
    let runs = PackedRuns {
        packed: &area.wanted[..count],
    };
    check_runs(f, &runs)?;
    let bare = bare_file(f);
    match fit(&bare, &area.wanted[..count], spare, chunk, &mut area.costs) {
        Ok(tidied) => Ok(tidied),
        Err(TooFew { needs, has }) => Err(MendFault::TooFew { needs, has }),
    }
}
