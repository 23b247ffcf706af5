ghost use Rattle.std.specs.Prelude.{◌≡◌, true};
ghost use Rattle.mt_plain.specs.Did.{can_count, counted, finished_after, is_event, kept, moved};

use crate::next_step::{
    due_event, event_number, event_place, go_of, phase_after, phase_number, phase_of, phase_place,
};
use crate::status::{DONE, NO_PHASE, NOT_DUE};
use crate::{PlainProcessor, PlainStep, PlainUpdate};
use mt_machine::{Event, Phase};

fn is_event(step: &PlainStep, event: Event) -> bool
    ensures { result ≡ is_event step.now event }
{
    step.number == event_number(event) && step.place == event_place(event)
}

// Whether the counts are such that the event can come.
fn can_count(u: &PlainUpdate, phase: Phase, event: Event) -> bool
    ensures { result ≡ can_count u.now phase event }
{
    match event {
        Event::Arrive => u.arrived < u.processors,
        Event::Leave => match phase {
            Phase::Arrived => u.arrived > 0,
            _ => true,
        },
        Event::ArriveAgain => u.arrived_again < u.processors,
        _ => true,
    }
}

fn count(u: &mut PlainUpdate, phase: Phase, event: Event)
    requires { can_count u.now phase event ≡ true }
    ensures { u.new ≡ counted u.old phase event }
{
    match event {
        Event::Arrive => u.arrived += 1,
        Event::Leave => match phase {
            Phase::Arrived => u.arrived -= 1,
            _ => {}
        },
        Event::ArriveAgain => u.arrived_again += 1,
        _ => {}
    }
}

fn finished_after(event: Event, before: u8) -> u8
    ensures { result ≡ finished_after event before }
{
    match event {
        Event::Release => 1,
        _ => before,
    }
}

/// Books a step that was carried out: what the barriers count, where the processor stands, and whether it is through.
/// Returns 0 if the step is the one that is due and the counts have room: update and processor are then changed. Else
/// both are as before: returns 12, or 8 if there is no such phase or word of the coordinator's, or a flag is above 1.
pub fn did(u: &mut PlainUpdate, p: &mut PlainProcessor, step: &PlainStep) -> u32
    ensures update { u.new ≡ (kept u.old p.old step.now).update }
    ensures processor { p.new ≡ (kept u.old p.old step.now).processor }
    ensures status { result ≡ (kept u.old p.old step.now).status }
{
    let Some(go) = go_of(u.word) else {
        return NO_PHASE;
    };
    let Some(phase) = phase_of(p) else {
        return NO_PHASE;
    };
    let Some(event) = due_event(u, p, go, phase) else {
        return NOT_DUE;
    };
    if !is_event(step, event) || !can_count(u, phase, event) {
        return NOT_DUE;
    }
    let next = phase_after(event, phase);
    count(u, phase, event);
    p.phase = phase_number(next);
    p.place = phase_place(next);
    p.finished = finished_after(event, p.finished);
    DONE
}
