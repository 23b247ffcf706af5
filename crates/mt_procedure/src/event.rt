ghost use Rattle.std.specs.Prelude.{◌≡◌, ◌<◌, ◌+◌, ◌^◌, IfSome, nat_lt, true};
ghost use Rattle.std.specs.List.{list_all};
ghost use Rattle.mt_list_machine.specs.Calls.{HasPlace};
ghost use Rattle.mt_procedure.specs.Steps.{arrival, clearing, event_of, passage, reloading};

use crate::step::ProcedureStep;
use mt_list_machine::{Cpu, write_back_or_drop};
use mt_machine::{Event, Phase};

// The event of an arrival at a barrier.
fn arrival(phase: Phase) -> Option<Event>
    ensures event { result ≡ arrival phase }
    ensures place { IfSome result HasPlace }
{
    match phase {
        Phase::Taken => Some(Event::Arrive),
        Phase::Restored => Some(Event::ArriveAgain),
        _ => None,
    }
}

// The event of a passage of a barrier.
fn passage(phase: Phase) -> Option<Event>
    ensures event { result ≡ passage phase }
    ensures place { IfSome result HasPlace }
{
    match phase {
        Phase::Arrived => Some(Event::Pass),
        _ => None,
    }
}

// PGE is cleared in the first flush of the TLB, and isn't set in the second.
fn clearing(phase: Phase) -> Option<Event>
    ensures event { result ≡ clearing phase }
    ensures place { IfSome result HasPlace }
{
    match phase {
        Phase::Flushed2 => None,
        _ => Some(Event::FlushTlb),
    }
}

// A reload of CR3 is the second flush of the TLB, and with PGE clear the first.
fn reloading(cpu: &Cpu) -> Option<Event>
    ensures event { result ≡ reloading cpu.now.phase cpu.now.page_global }
    ensures place { IfSome result HasPlace }
{
    match cpu.phase {
        Phase::Flushed2 => Some(Event::FlushTlb),
        Phase::NoFill | Phase::Flushed if !cpu.pge => Some(Event::FlushTlb),
        _ => None,
    }
}

/// The event of the machine that a step of a processor is, if it is one. `part` is the number of registers that are written.
pub(crate) fn event_of(step: ProcedureStep, part: u32, cpu: &Cpu) -> Option<Event>
    requires numbers { list_all (λ l. nat_lt l.number (2 ^ 46)) cpu.now.lines ≡ true }
    requires place { part + 1 < 2 ^ 32 }
    ensures event { result ≡ event_of step part cpu.now }
    ensures place { IfSome result HasPlace }
{
    match step {
        ProcedureStep::Take => Some(Event::Take),
        ProcedureStep::Arrive(_) => arrival(cpu.phase),
        ProcedureStep::Wait { .. } => passage(cpu.phase),
        ProcedureStep::SetCd => Some(Event::SetNoFill),
        ProcedureStep::Wbinvd => Some(write_back_or_drop(cpu)),
        ProcedureStep::Invd => Some(Event::DropLines),
        ProcedureStep::ClearPge => clearing(cpu.phase),
        ProcedureStep::ReloadCr3 => reloading(cpu),
        ProcedureStep::ClearE => Some(Event::Disable),
        ProcedureStep::Write => Some(Event::Write(part)),
        ProcedureStep::Enable => Some(Event::Enable),
        ProcedureStep::ClearCd => Some(Event::SetNormal),
        ProcedureStep::RestorePge => Some(Event::RestorePge),
        ProcedureStep::Release => Some(Event::Release),
        ProcedureStep::Access(_)
        | ProcedureStep::Invlpg(_)
        | ProcedureStep::Pge(_)
        | ProcedureStep::Cd(_) => None,
    }
}
