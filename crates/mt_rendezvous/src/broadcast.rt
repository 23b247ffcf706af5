// From a call to the state in which all have taken.
ghost use Rattle.std.specs.Prelude.{◌≡◌, ◌↔◌, IsSome, Err, None, Some, length, OnOk, OnErr};
ghost use Rattle.mt_regs.specs.declared.fault.Fault.{Fault};
ghost use Rattle.mt_regs.specs.Faults.{IsFirstFault};
ghost use Rattle.mt_core.specs.Rounds.{each_steps};
ghost use Rattle.mt_rendezvous.specs.Update.{FitsUpdate, HasTaken};

use mt_core::{CallFault, Core, a_core_arises};
use mt_regs::RegFile;

/// Calls, and lets each processor take, in ascending order.
///
/// # Errors
///
/// Those of `Core::call`; nothing then changes.
pub fn call_and_take(core: &mut Core, goal: &RegFile) -> Result<(), CallFault>
    requires { FitsUpdate core.old goal.now }
    ensures under_way { (result ≡ Err CallFault.UnderWay) ↔ IsSome core.old.order }
    ensures refused { (fault : Fault) → result ≡ Err (CallFault.Refused fault) → (core.old.order ≡ None) × IsFirstFault goal.now (Some fault) }
    ensures taken { OnOk result (HasTaken core.old goal.now core.new) }
    ensures kept { OnErr result (core.new ≡ core.old) }
{
    goal.is_register_file(); // a fact for the proof
    a_core_arises(core); // a fact for the proof
    core.call(goal)?;
    take_all(core);
    Ok(())
}

// Each processor in ascending order does its event that is due.
fn take_all(core: &mut Core)
    ensures steps { core.new ≡ each_steps core.old }
    ensures count { length core.new.system.processors ≡ length core.old.system.processors }
{
    a_core_arises(core); // a fact for the proof
    let count = core.system().cpus().len() as u32;
    for k in 0..count {
        core.step(k);
    }
}
