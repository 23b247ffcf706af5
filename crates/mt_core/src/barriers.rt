ghost use Rattle.std.specs.Prelude.{◌≡◌, ◌<◌, ◌^◌, ◌↔◌, IsTrue, length};
ghost use Rattle.std.specs.List.{list_all, list_any};
ghost use Rattle.mt_machine.specs.Machine.{BarrierCount, first_barrier_count, first_barrier_open, has_arrived, has_arrived_again, has_passed, has_released, is_cancelled, is_changing, is_given, is_over, is_waiting_to_pass, second_barrier_count, second_barrier_open};
ghost use Rattle.mt_core.specs.Barriers.{barrier_count};

use crate::order::Order;
use mt_cpu::Cpu;
use mt_machine::{Go, Phase};

/// Whether the coordinator has said nothing yet.
pub(crate) fn is_pending(go: Go) -> bool
    ensures { IsTrue result ↔ (go ≡ Go.Pending) }
{
    matches!(go, Go::Pending)
}

/// Whether the go is given.
pub(crate) fn is_given(go: Go) -> bool
    ensures { result ≡ is_given go }
{
    matches!(go, Go::Given)
}

/// Whether the update is given up.
pub(crate) fn is_cancelled(go: Go) -> bool
    ensures { result ≡ is_cancelled go }
{
    matches!(go, Go::Cancelled)
}

fn has_released(cpu: &Cpu, order: &Order) -> bool
    ensures { result ≡ has_released order.now cpu.now }
{
    order.from_era < cpu.era()
}

fn is_changing(phase: Phase) -> bool
    ensures { result ≡ is_changing phase }
{
    !matches!(
        phase,
        Phase::Running | Phase::Taken | Phase::Arrived | Phase::Arrived2
    )
}

fn is_waiting_to_pass(cpu: &Cpu) -> bool
    ensures { result ≡ is_waiting_to_pass cpu.now.phase }
{
    matches!(cpu.phase(), Phase::Taken | Phase::Arrived)
}

fn has_arrived_again(cpu: &Cpu, order: &Order) -> bool
    ensures { result ≡ has_arrived_again order.now cpu.now }
{
    matches!(cpu.phase(), Phase::Arrived2) || has_released(cpu, order)
}

fn has_arrived(cpu: &Cpu, order: &Order) -> bool
    ensures { result ≡ has_arrived order.now cpu.now }
{
    let phase = cpu.phase();
    matches!(phase, Phase::Arrived) || is_changing(phase) || has_arrived_again(cpu, order)
}

/// How many have arrived at the first barrier, and how many are awaited; the coordinator counts too.
pub(crate) fn first_count(cpus: &[Cpu], order: &Order) -> (u32, u32)
    requires { length cpus.now < 2 ^ 31 }
    ensures { barrier_count result ≡ first_barrier_count order.now cpus.now }
{
    let arrived = cpus.iter().filter(|cpu| has_arrived(cpu, order)).count() as u32;
    let given = is_given(order.go) as u32;
    (arrived + given, cpus.len() as u32 + 1)
}

/// How many have arrived at the second barrier, and how many are awaited.
pub(crate) fn second_count(cpus: &[Cpu], order: &Order) -> (u32, u32)
    requires { length cpus.now < 2 ^ 31 }
    ensures { barrier_count result ≡ second_barrier_count order.now cpus.now }
{
    let arrived = cpus
        .iter()
        .filter(|cpu| has_arrived_again(cpu, order))
        .count();
    (arrived as u32, cpus.len() as u32)
}

fn all_arrived(cpus: &[Cpu], order: &Order) -> bool
    ensures { result ≡ list_all (has_arrived order.now) cpus.now }
{
    cpus.iter().all(|cpu| has_arrived(cpu, order))
}

/// Whether the processors may pass the first barrier.
pub(crate) fn is_first_open(cpus: &[Cpu], order: &Order) -> bool
    ensures { result ≡ first_barrier_open order.now cpus.now }
{
    all_arrived(cpus, order) && is_given(order.go)
}

/// Whether the processors may leave the second barrier.
pub(crate) fn is_second_open(cpus: &[Cpu], order: &Order) -> bool
    ensures { result ≡ second_barrier_open order.now cpus.now }
{
    cpus.iter().all(|cpu| has_arrived_again(cpu, order))
}

fn all_released(cpus: &[Cpu], order: &Order) -> bool
    ensures { result ≡ list_all (has_released order.now) cpus.now }
{
    cpus.iter().all(|cpu| has_released(cpu, order))
}

fn any_waits(cpus: &[Cpu]) -> bool
    ensures { result ≡ list_any (λ p. is_waiting_to_pass p.phase) cpus.now }
{
    cpus.iter().any(|cpu| is_waiting_to_pass(cpu))
}

/// Whether an update is over: each processor has released, or it is cancelled and none waits for the
/// first barrier.
pub(crate) fn is_over(cpus: &[Cpu], order: &Order) -> bool
    ensures { result ≡ is_over order.now cpus.now }
{
    all_released(cpus, order) || is_cancelled(order.go) && !any_waits(cpus)
}
