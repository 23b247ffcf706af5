ghost use Rattle.std.specs.Prelude.{◌≡◌, ◌+◌, ◌<◌, ◌^◌, ℕ, nat_lt, List, Some, if◌then◌else◌};
ghost use Rattle.std.specs.Option.{option_map};
ghost use Rattle.mt_machine.specs.Machine.{Order, due, own_step};
ghost use Rattle.mt_machine.specs.System.{Processor};
ghost use Rattle.mt_plain.specs.Due.{IsTold, due_event, due_status, due_step, event_number, event_place, event_words, go_of, has_flags, phase_after, phase_number, phase_of, phase_place, whole_flush};
ghost use Rattle.mt_regs.specs.RegisterFile.{RegisterFile};

use crate::status::{DONE, NO_PHASE, WAITS};
use crate::{PlainProcessor, PlainStep, PlainUpdate};
use mt_machine::{Event, Go, Phase};

fn has_flags(p: &PlainProcessor) -> bool
    ensures { result ≡ has_flags p.now }
{
    p.self_snoop < 2 && p.finished < 2
}

pub(crate) fn phase_of(p: &PlainProcessor) -> Option<Phase>
    ensures { result ≡ phase_of p.now }
{
    if !has_flags(p) {
        return None;
    }
    let phases = [
        Phase::Running,
        Phase::Taken,
        Phase::Arrived,
        Phase::Passed,
        Phase::NoFill,
        Phase::Flushed,
        Phase::TlbFlushed,
        Phase::Writing(p.place),
        Phase::Enabled,
        Phase::Flushed2,
        Phase::TlbFlushed2,
        Phase::Normal,
        Phase::Restored,
        Phase::Arrived2,
    ];
    phases.get(p.phase as usize).copied()
}

pub(crate) fn go_of(word: u32) -> Option<Go>
    ensures { result ≡ go_of word }
{
    let words = [Go::Pending, Go::Given, Go::Cancelled];
    words.get(word as usize).copied()
}

pub(crate) fn phase_number(phase: Phase) -> u32
    ensures { result ≡ phase_number phase }
{
    match phase {
        Phase::Running => 0,
        Phase::Taken => 1,
        Phase::Arrived => 2,
        Phase::Passed => 3,
        Phase::NoFill => 4,
        Phase::Flushed => 5,
        Phase::TlbFlushed => 6,
        Phase::Writing(_) => 7,
        Phase::Enabled => 8,
        Phase::Flushed2 => 9,
        Phase::TlbFlushed2 => 10,
        Phase::Normal => 11,
        Phase::Restored => 12,
        Phase::Arrived2 => 13,
    }
}

pub(crate) fn phase_place(phase: Phase) -> u32
    ensures { result ≡ phase_place phase }
{
    match phase {
        Phase::Writing(place) => place,
        _ => 0,
    }
}

pub(crate) fn event_number(event: Event) -> u32
    ensures { result ≡ event_number event }
{
    match event {
        Event::Take => 1,
        Event::Arrive => 2,
        Event::Leave => 3,
        Event::Pass => 4,
        Event::SetNoFill => 5,
        Event::WriteBack { .. } => 6,
        Event::DropLines => 6,
        Event::FlushTlb => 7,
        Event::Disable => 8,
        Event::Write(_) => 9,
        Event::Enable => 10,
        Event::SetNormal => 11,
        Event::RestorePge => 12,
        Event::ArriveAgain => 13,
        Event::Release => 14,
    }
}

pub(crate) fn event_place(event: Event) -> u32
    ensures { result ≡ event_place event }
{
    match event {
        Event::Write(place) => place,
        _ => 0,
    }
}

fn write_or_enable(place: u32, registers: u32) -> Event
    ensures event { result ≡ (if nat_lt (place + 1) registers then Event.Write place else Event.Enable) }
    ensures few { (i : ℕ) → result ≡ Event.Write i → i + 1 < 2 ^ 32 }
{
    if place < registers && place + 1 < registers {
        Event::Write(place)
    } else {
        Event::Enable
    }
}

// The event that is due. All write-backs of a cache and the invalidation that ends them count as one.
pub(crate) fn due_event(u: &PlainUpdate, p: &PlainProcessor, go: Go, phase: Phase) -> Option<Event>
    ensures event { result ≡ due_event u.now p.now go phase }
    ensures few { (i : ℕ) → result ≡ Some (Event.Write i) → i + 1 < 2 ^ 32 }
{
    let cancelled = matches!(go, Go::Cancelled);
    let given = matches!(go, Go::Given);
    match phase {
        Phase::Running if p.finished == 0 && !cancelled => Some(Event::Take),
        Phase::Taken if cancelled => Some(Event::Leave),
        Phase::Taken => Some(Event::Arrive),
        Phase::Arrived if cancelled => Some(Event::Leave),
        Phase::Arrived if u.arrived == u.processors && given => Some(Event::Pass),
        Phase::Passed => Some(Event::SetNoFill),
        Phase::NoFill if p.self_snoop == 1 => Some(Event::FlushTlb),
        Phase::NoFill => Some(Event::DropLines),
        Phase::Flushed => Some(Event::FlushTlb),
        Phase::TlbFlushed => Some(Event::Disable),
        Phase::Writing(place) => Some(write_or_enable(place, p.registers)),
        Phase::Enabled => Some(Event::DropLines),
        Phase::Flushed2 => Some(Event::FlushTlb),
        Phase::TlbFlushed2 => Some(Event::SetNormal),
        Phase::Normal => Some(Event::RestorePge),
        Phase::Restored => Some(Event::ArriveAgain),
        Phase::Arrived2 if u.arrived_again == u.processors => Some(Event::Release),
        _ => None,
    }
}

pub(crate) fn phase_after(event: Event, phase: Phase) -> Phase
    requires { (i : ℕ) → event ≡ Event.Write i → i + 1 < 2 ^ 32 }
    ensures { result ≡ phase_after event phase }
{
    match event {
        Event::Take => Phase::Taken,
        Event::Arrive => Phase::Arrived,
        Event::Leave => Phase::Running,
        Event::Pass => Phase::Passed,
        Event::SetNoFill => Phase::NoFill,
        Event::WriteBack { .. } => phase,
        Event::DropLines => match phase {
            Phase::Enabled => Phase::Flushed2,
            _ => Phase::Flushed,
        },
        Event::FlushTlb => match phase {
            Phase::Flushed2 => Phase::TlbFlushed2,
            _ => Phase::TlbFlushed,
        },
        Event::Disable => Phase::Writing(0),
        Event::Write(place) => Phase::Writing(place + 1),
        Event::Enable => Phase::Enabled,
        Event::SetNormal => Phase::Normal,
        Event::RestorePge => Phase::Restored,
        Event::ArriveAgain => Phase::Arrived2,
        Event::Release => Phase::Running,
    }
}

/// Writes what a processor does next in an update. Returns 0 if the step was written, and 7 if nothing is due, since the
/// processor waits at a barrier or takes no part. Returns 8 if there is no such phase or word of the coordinator's, or a
/// flag is above 1. `step` is written at 0 alone.
pub fn due(u: &PlainUpdate, p: &PlainProcessor, step: &mut PlainStep) -> u32
    ensures status { result ≡ due_status u.now p.now }
    ensures step { step.new ≡ due_step u.now p.now step.old }
{
    let Some(go) = go_of(u.word) else {
        return NO_PHASE;
    };
    let Some(phase) = phase_of(p) else {
        return NO_PHASE;
    };
    let Some(event) = due_event(u, p, go, phase) else {
        return WAITS;
    };
    let next = phase_after(event, phase);
    *step = PlainStep {
        number: event_number(event),
        place: event_place(event),
        next_phase: phase_number(next),
        next_place: phase_place(next),
    };
    DONE
}

/// If the words are an update's of the machine, the step is the machine's due event, and the next phase the one after
/// it. Write-backs up to the invalidation are one step.
pub fn a_due_step_is_the_machines()
    ensures event { (u : PlainUpdate) (d : PlainProcessor) (o : Order) (ps : List Processor) (p : Processor) → IsTold u d o ps p
        → due_event u d o.go p.phase ≡ option_map whole_flush (due o ps p p.phase) }
    ensures words { (u : PlainUpdate) (d : PlainProcessor) (o : Order) (ps : List Processor) (p : Processor) (old : PlainStep) → IsTold u d o ps p
        → due_step u d old ≡ event_words (option_map whole_flush (due o ps p p.phase)) p.phase old }
    ensures next { (goal : RegisterFile) (e : Event) (p : Processor) → (own_step goal e p).phase ≡ phase_after e p.phase }
{}
