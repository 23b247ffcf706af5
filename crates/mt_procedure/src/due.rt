ghost use Rattle.std.specs.Prelude.{◌≡◌, ◌<◌, ◌^◌, length, nat_lt, true, if◌then◌else◌, None, Some, slice_get};
ghost use Rattle.std.specs.List.{list_all};
ghost use Rattle.mt_machine.specs.System.{Processor};
ghost use Rattle.mt_machine.specs.Machine.{first_flush, has_arrived, has_arrived_again, has_released, write_or_enable};
ghost use Rattle.mt_procedure.specs.Runs.{due_in, due_of, procedure_order};
ghost use Rattle.mt_procedure.specs.Runs.{told_due};

use mt_list_machine::{Cpu, are_physical, write_back_or_drop};
use mt_machine::{Event, Phase};

// Whether a processor has finished an update. Eras begin at 0.
fn has_released(cpu: &Cpu) -> bool
    ensures { result ≡ has_released (procedure_order cpu.now.file) cpu.now }
{
    0 < cpu.era
}

/// Whether a processor counts at the first barrier.
pub fn has_arrived(cpu: &Cpu) -> bool
    ensures { result ≡ has_arrived (procedure_order cpu.now.file) cpu.now }
{
    !matches!(cpu.phase, Phase::Running | Phase::Taken) || has_released(cpu)
}

/// Whether a processor counts at the second barrier.
pub fn has_arrived_again(cpu: &Cpu) -> bool
    ensures { result ≡ has_arrived_again (procedure_order cpu.now.file) cpu.now }
{
    matches!(cpu.phase, Phase::Arrived2) || has_released(cpu)
}

fn have_arrived(cpus: &[Cpu]) -> bool
    ensures { result ≡ list_all (λ p. has_arrived (procedure_order p.file) p) cpus.now }
{
    for cpu in cpus {
        if !has_arrived(cpu) {
            return false;
        }
    }
    true
}

fn have_arrived_again(cpus: &[Cpu]) -> bool
    ensures { result ≡ list_all (λ p. has_arrived_again (procedure_order p.file) p) cpus.now }
{
    for cpu in cpus {
        if !has_arrived_again(cpu) {
            return false;
        }
    }
    true
}

fn first_flush(cpu: &Cpu) -> Event
    requires { list_all (λ l. nat_lt l.number (2 ^ 46)) cpu.now.lines ≡ true }
    ensures { result ≡ first_flush cpu.now }
{
    if cpu.self_snoop {
        Event::FlushTlb
    } else {
        write_back_or_drop(cpu)
    }
}

fn write_or_enable(cpu: &Cpu, i: u32) -> Event
    ensures { result ≡ write_or_enable cpu.now i }
{
    if i as u64 + 1 < cpu.regs.count() as u64 {
        Event::Write(i)
    } else {
        Event::Enable
    }
}

fn when(test: bool, e: Event) -> Option<Event>
    ensures { result ≡ (if test then Some e else None) }
{
    if test { Some(e) } else { None }
}

/// The event of a processor that the manual's procedure has due.
pub(crate) fn due(cpus: &[Cpu], k: usize) -> Option<Event>
    requires processor { k < length cpus.now }
    requires numbers { (p : Processor) → slice_get cpus.now k ≡ Some p → list_all (λ l. nat_lt l.number (2 ^ 46)) p.lines ≡ true }
    ensures { result ≡ due_in cpus.now k }
{
    due_of(cpus, &cpus[k])
}

/// The event that is due, if the processor's lines are within the physical addresses.
pub fn due_at(cpus: &[Cpu], k: usize) -> Option<Event>
    requires { k < length cpus.now }
    ensures { result ≡ told_due cpus.now k }
{
    let cpu = &cpus[k];
    if are_physical(cpu.lines()) {
        due_of(cpus, cpu)
    } else {
        None
    }
}

fn due_of(cpus: &[Cpu], cpu: &Cpu) -> Option<Event>
    requires { list_all (λ l. nat_lt l.number (2 ^ 46)) cpu.now.lines ≡ true }
    ensures { result ≡ due_of cpus.now cpu.now }
{
    match cpu.phase {
        Phase::Running => when(cpu.era == 0, Event::Take),
        Phase::Taken => Some(Event::Arrive),
        Phase::Arrived => when(have_arrived(cpus), Event::Pass),
        Phase::Passed => Some(Event::SetNoFill),
        Phase::NoFill => Some(first_flush(cpu)),
        Phase::Flushed | Phase::Flushed2 => Some(Event::FlushTlb),
        Phase::TlbFlushed => Some(Event::Disable),
        Phase::Writing(i) => Some(write_or_enable(cpu, i)),
        Phase::Enabled => Some(write_back_or_drop(cpu)),
        Phase::TlbFlushed2 => Some(Event::SetNormal),
        Phase::Normal => Some(Event::RestorePge),
        Phase::Restored => Some(Event::ArriveAgain),
        Phase::Arrived2 => when(have_arrived_again(cpus), Event::Release),
    }
}
