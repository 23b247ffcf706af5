ghost use Rattle.std.specs.Prelude.{◌≡◌, ◌<◌, ◌≤◌, false, length, slice_get, IfSome, IsTrue, List, Some};
ghost use Rattle.std.specs.Option.{option_map_or};
ghost use Rattle.mt_cpu.specs.Steps.{is_local, is_shift};
ghost use Rattle.mt_machine.specs.System.{Processor};
ghost use Rattle.mt_machine.specs.Machine.{Order, due, due_at, step};
ghost use Rattle.mt_core.specs.Arises.{IsCore};
ghost use Rattle.mt_core.specs.Steps.{pause, under_way};

use crate::barriers::{first_count, is_cancelled, is_first_open, is_second_open, second_count};
use crate::order::Order as CalledOrder;
use crate::stepped::Stepped;
use mt_bus::System;
use mt_cpu::{Cpu, is_local};
use mt_machine::{Event, Phase};

// A processor has at most one event that is due, and it is of one of two kinds. A local event
// (`Cpu::local`) comes between the barriers: it is always due in its phase, and looks at nothing but the
// processor and the goal. A barrier event (`Cpu::shift`) moves the phase, and whether it is due depends
// on the other processors and on the coordinator.

fn phase_of(cpus: &[Cpu], k: usize) -> Phase
    requires { k < length cpus.now }
    ensures { (p : Processor) → slice_get cpus.now k ≡ Some p → result ≡ p.phase }
{
    cpus[k].phase()
}

// The barrier event that is due in a phase without a local event.
fn due_barrier_event(cpus: &[Cpu], order: &CalledOrder, k: usize) -> Option<Event>
    requires processor { k < length cpus.now }
    ensures due { (p : Processor) → slice_get cpus.now k ≡ Some p → is_local p.phase ≡ false → result ≡ due order.now cpus.now p p.phase }
    ensures shift { (p : Processor) → slice_get cpus.now k ≡ Some p → IfSome result (λ e. IsTrue (is_shift e p.phase)) }
{
    let cancelled = is_cancelled(order.go);
    match cpus[k].phase() {
        Phase::Running if cpus[k].era() == order.from_era && !cancelled => Some(Event::Take),
        Phase::Taken if cancelled => Some(Event::Leave),
        Phase::Taken => Some(Event::Arrive),
        Phase::Arrived if cancelled => Some(Event::Leave),
        Phase::Arrived if is_first_open(cpus, order) => Some(Event::Pass),
        Phase::Restored => Some(Event::ArriveAgain),
        Phase::Arrived2 if is_second_open(cpus, order) => Some(Event::Release),
        _ => None,
    }
}

/// Why a processor has no event that is due.
pub(crate) fn pause(cpus: &[Cpu], order: &CalledOrder, k: usize) -> Stepped
    requires processor { k < length cpus.now }
    requires few { length cpus.now ≤ 16 }
    ensures { (p : Processor) → slice_get cpus.now k ≡ Some p → result ≡ pause order.now cpus.now p.phase }
{
    match cpus[k].phase() {
        Phase::Arrived if !is_cancelled(order.go) => {
            let (arrived, of) = first_count(cpus, order);
            Stepped::Waits { arrived, of }
        }
        Phase::Arrived2 => {
            let (arrived, of) = second_count(cpus, order);
            Stepped::Waits { arrived, of }
        }
        _ => Stepped::NoUpdate,
    }
}

// Does the local event of a processor between the barriers.
fn do_local_event(system: &mut System, order: &CalledOrder, k: u32) -> Event
    requires processor { k < length system.old.processors }
    requires core { IsCore (under_way order.now system.old) }
    requires phase { (p : Processor) → slice_get system.old.processors k ≡ Some p → IsTrue (is_local p.phase) }
    ensures event { due_at (under_way order.now system.old) k ≡ Some result }
    ensures step { system.new ≡ step order.now.goal result k system.old }
{
    system.do_local(k, &order.goal, &order.kinds)
}

// Does a barrier event that is due.
fn do_barrier_event(system: &mut System, order: &CalledOrder, k: u32, e: Event)
    requires processor { k < length system.old.processors }
    requires core { IsCore (under_way order.now system.old) }
    requires due { due_at (under_way order.now system.old) k ≡ Some e }
    requires shift { (p : Processor) → slice_get system.old.processors k ≡ Some p → IsTrue (is_shift e p.phase) }
    ensures { system.new ≡ step order.now.goal e k system.old }
{
    system.do_shift(k, e);
}

/// Does the event of a processor that is due, and says which one it was.
pub(crate) fn do_due_event(system: &mut System, order: &CalledOrder, k: u32) -> Option<Event>
    requires processor { k < length system.old.processors }
    requires core { IsCore (under_way order.now system.old) }
    ensures event { result ≡ due_at (under_way order.now system.old) k }
    ensures after { system.new ≡ option_map_or (λ e. step order.now.goal e k system.old) result system.old }
{
    if is_local(phase_of(system.cpus(), k as usize)) {
        return Some(do_local_event(system, order, k));
    }
    let e = due_barrier_event(system.cpus(), order, k as usize)?;
    do_barrier_event(system, order, k, e);
    Some(e)
}
