ghost use Rattle.std.specs.Prelude.{◌≡◌, ◌<◌, ◌^◌, ◌↔◌, IsFalse, IsTrue, MatchOption, Some, false, length, nat_lt, slice_get, true};
ghost use Rattle.std.specs.List.{list_all};
ghost use Rattle.mt_machine.specs.System.{Processor};
ghost use Rattle.mt_machine.specs.Access.{is_running};
ghost use Rattle.mt_procedure.specs.Dues.{AreListsFinished, AreStepsDue, HasUndueStep, HasUnfinished, IsDue, IsDueAt, IsInOrder, IsStepDue, is_astray, is_first_flush, is_invd, is_unfinished};
ghost use Rattle.mt_procedure.specs.Runs.{due_in, event_in, phase_in, place_of};

use crate::due::due;
use crate::moves::{Case, Move, State, event_in, phase_in, place_at};
use crate::step::ProcedureStep;
use mt_machine::{Event, Phase};

/// Whether a processor in a phase runs: it is in no update.
pub fn is_running(phase: Phase) -> bool
    ensures { result ≡ is_running phase }
{
    matches!(phase, Phase::Running)
}

// Whether a step is the first flush of the caches.
fn is_first_flush(phase: Phase, step: ProcedureStep) -> bool
    ensures { result ≡ is_first_flush phase step }
{
    matches!((phase, step), (Phase::NoFill, ProcedureStep::Wbinvd))
}

// Whether a step is a flush of the TLB or a change of CD, in an update.
fn is_astray(phase: Phase, step: ProcedureStep) -> bool
    ensures { result ≡ is_astray phase step }
{
    match step {
        ProcedureStep::ClearPge | ProcedureStep::ReloadCr3 | ProcedureStep::Cd(_) => !is_running(
            phase,
        ),
        _ => false,
    }
}

// Whether an event is the one that is due. A step that is no event is due unless it is astray.
fn is_event_due(event: Option<Event>, due: Option<Event>, astray: bool) -> bool
    ensures { IsTrue result ↔ MatchOption event (astray ≡ false) (λ e. due ≡ Some e) }
{
    match event {
        Some(e) => due == Some(e),
        None => !astray,
    }
}

fn is_invd(step: ProcedureStep) -> bool
    ensures { result ≡ is_invd step }
{
    matches!(step, ProcedureStep::Invd)
}

// Whether a step is due, by the event that it is and the one that is due.
fn is_in_order(phase: Phase, step: ProcedureStep, event: Option<Event>, due: Option<Event>) -> bool
    ensures { IsTrue result ↔ IsInOrder phase step event due }
{
    is_first_flush(phase, step)
        || !is_invd(step) && is_event_due(event, due, is_astray(phase, step))
}

impl Move {
    /// Whether the manual's procedure has the step due. The first flush of the caches is always due, INVD never. A step that is no event
    /// of the machine is due at any time, except in an update a change of CD, and a flush of the TLB by the other way than the due one.
    pub fn is_due(&self) -> bool
        ensures { IsTrue result ↔ IsDue self.now }
    {
        is_in_order(self.phase, self.step, self.event, self.due)
    }
}

impl State {
    // Whether a step, which is the next one of a processor, is due.
    fn is_step_due(&self, k: usize, step: ProcedureStep) -> bool
        requires processor { k < length self.now.processors }
        requires numbers { (p : Processor) → slice_get self.now.processors k ≡ Some p → list_all (λ l. nat_lt l.number (2 ^ 46)) p.lines ≡ true }
        ensures { IsTrue result ↔ IsStepDue self.now k step }
    {
        let cpus = self.cpus.as_slice();
        let part = place_at(self.places.as_slice(), k).part;
        is_in_order(
            phase_in(cpus, k),
            step,
            event_in(cpus, k, step, part),
            due(cpus, k),
        )
    }

    /// Whether the next step of a processor is due. True if it can't go on.
    pub fn is_due(&self, case: &Case, k: usize) -> bool
        ensures { IsTrue result ↔ IsDueAt case.now self.now k }
    {
        if !self.may_go(case, k) {
            return true;
        }
        match case.step_at(self, k) {
            Some(step) => self.is_step_due(k, step),
            None => true,
        }
    }

    // 1 if the next step of a processor isn't due, else 0.
    fn undue_at(&self, case: &Case, k: usize) -> u64
        ensures due { result ≡ 0 → IsDueAt case.now self.now k }
        ensures undue { 0 < result → IsDueAt case.now self.now k → ⊥ }
    {
        if self.is_due(case, k) { 0 } else { 1 }
    }

    /// The number of processors whose next step isn't due.
    pub fn undue_count(&self, case: &Case) -> u64
        ensures due { result ≡ 0 → AreStepsDue case.now self.now }
        ensures undue { 0 < result → HasUndueStep case.now self.now }
    {
        let mut count = 0u64;
        for k in 0..self.cpus.len() {
            count = sum(count, self.undue_at(case, k));
        }
        count
    }

    /// Whether the list of a processor has ended, and the processor is in an update.
    pub fn is_unfinished(&self, case: &Case, k: usize) -> bool
        ensures { result ≡ is_unfinished case.now self.now k }
    {
        case.step_at(self, k).is_none() && !is_running(phase_in(self.cpus.as_slice(), k))
    }

    /// Whether the list of a processor has ended in the midst of an update.
    pub fn has_unfinished(&self, case: &Case) -> bool
        ensures finished { IsFalse result → AreListsFinished case.now self.now }
        ensures unfinished { IsTrue result → HasUnfinished case.now self.now }
    {
        for k in 0..self.cpus.len() {
            if self.is_unfinished(case, k) {
                return true;
            }
        }
        false
    }
}

/// The sum of two numbers, or 2^64 - 1 if it is greater.
pub fn sum(a: u64, b: u64) -> u64
    ensures { (result ≡ 0) ↔ ((a ≡ 0) × (b ≡ 0)) }
{
    a.saturating_add(b)
}
