ghost use Rattle.std.specs.Prelude.{◌≡◌, ◌<◌, ◌≤◌, ◌↔◌, Err, IfOk, IsSome, IsTrue, None, OnErr, OnOk, length};
ghost use Rattle.std.specs.List.{All};
ghost use Rattle.mt_regs.specs.Faults.{IsAccepted};
ghost use Rattle.mt_machine.specs.Machine.{Calls, FitsGoal, next};
ghost use Rattle.mt_machine.specs.Start.{HasEraRoom};
ghost use Rattle.mt_machine.specs.ComingAndGoing.{last_number, without_last};
ghost use Rattle.mt_core.specs.Arises.{IsCore};
ghost use Rattle.mt_admit.specs.Admission.{admitted, brought_up, first_file};

use crate::fault::{RetireFault, UpFault};
use mt_core::{CallFault, Core, a_core_arises};
use mt_regs::RegFile;

// No core has more processors.
const MOST: usize = 16;

fn is_under_way(core: &Core) -> bool
    ensures { IsTrue result ↔ IsSome core.now.order }
{
    core.order().is_some()
}

fn count(core: &Core) -> usize
    ensures number { result ≡ length core.now.system.processors }
    ensures core { IsCore core.now }
{
    a_core_arises(core); // a fact for the proof
    core.system().cpus().len()
}

// Processor 0's registers.
fn first_file(core: &Core) -> RegFile
    requires { 0 < length core.now.system.processors }
    ensures { result ≡ first_file core.now.system }
{
    core.system().cpus()[0].regs().same()
}

// Begins an update to registers without a fault, where none is under way.
fn call_accepted(core: &mut Core, goal: &RegFile)
    requires idle { core.old.order ≡ None }
    requires accepted { IsAccepted goal.now }
    requires some { 0 < length core.old.system.processors }
    requires fits { All (FitsGoal goal.now) core.old.system.processors }
    requires room { HasEraRoom core.old }
    ensures { core.new ≡ next core.old (Calls goal.now) }
{
    match core.call(goal) {
        Ok(()) => {}
        Err(CallFault::UnderWay) => unreachable!(),
        Err(CallFault::Refused(_)) => unreachable!(),
    }
}

/// Brings one processor up, and calls an update to processor 0's registers, whose go is pending. Returns the newcomer's
/// number.
///
/// # Errors
///
/// An update is under way; or else sixteen processors stand; or else there is no memory for another. Nothing then changes.
pub fn up(core: &mut Core) -> Result<u32, UpFault>
    requires some { 0 < length core.old.system.processors }
    requires room { HasEraRoom core.old }
    ensures under_way { (result ≡ Err UpFault.UnderWay) ↔ IsSome core.old.order }
    ensures full { (result ≡ Err UpFault.Full) ↔ ((core.old.order ≡ None) × (length core.old.system.processors ≡ 16)) }
    ensures number { IfOk result (λ k. k ≡ length core.old.system.processors) }
    ensures up { OnOk result (core.new ≡ brought_up core.old) }
    ensures kept { OnErr result (core.new ≡ core.old) }
{
    if is_under_way(core) {
        return Err(UpFault::UnderWay);
    }
    if count(core) >= MOST {
        return Err(UpFault::Full);
    }
    let goal = first_file(core);
    let Ok(k) = core.come_up() else {
        return Err(UpFault::NoMemory);
    };
    call_accepted(core, &goal);
    Ok(k)
}

/// Brings one processor up and leads all through an update to processor 0's registers. Returns the newcomer's number.
///
/// # Errors
///
/// Those of `up`; nothing then changes.
pub fn admit(core: &mut Core) -> Result<u32, UpFault>
    requires some { 0 < length core.old.system.processors }
    requires room { HasEraRoom core.old }
    ensures under_way { (result ≡ Err UpFault.UnderWay) ↔ IsSome core.old.order }
    ensures full { (result ≡ Err UpFault.Full) ↔ ((core.old.order ≡ None) × (length core.old.system.processors ≡ 16)) }
    ensures number { IfOk result (λ k. k ≡ length core.old.system.processors) }
    ensures admitted { OnOk result (core.new ≡ admitted core.old) }
    ensures kept { OnErr result (core.new ≡ core.old) }
{
    a_core_arises(core); // a fact for the proof
    match up(core) {
        Ok(k) => {
            core.round();
            Ok(k)
        }
        Err(fault) => Err(fault),
    }
}

/// Retires the last processor: its buffers are emptied, the oldest first, its dirty words are written to memory, and it
/// is taken away. Returns its number.
///
/// # Errors
///
/// An update is under way, or else only one processor stands. Nothing then changes.
pub fn retire(core: &mut Core) -> Result<u32, RetireFault>
    requires { 0 < length core.old.system.processors }
    ensures under_way { (result ≡ Err RetireFault.UnderWay) ↔ IsSome core.old.order }
    ensures last { (result ≡ Err RetireFault.Last) ↔ ((core.old.order ≡ None) × (length core.old.system.processors ≡ 1)) }
    ensures number { IfOk result (λ k. k ≡ last_number core.old.system) }
    ensures gone { OnOk result (core.new ≡ without_last core.old) }
    ensures kept { OnErr result (core.new ≡ core.old) }
{
    if is_under_way(core) {
        return Err(RetireFault::UnderWay);
    }
    if count(core) <= 1 {
        return Err(RetireFault::Last);
    }
    Ok(core.go_down())
}
