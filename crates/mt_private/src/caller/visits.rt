// The whole visit of a guest: its accesses, and the update between them. Its calls wait, and only `caller.rt` and the
// files below it can call the two waits.
ghost use Rattle.std.specs.Prelude.{◌≡◌, ◌≤◌, ◌++◌, [], ◌∷◌, length, vec_capacity};
ghost use Rattle.std.specs.List.{All};
ghost use Rattle.mt_machine.specs.Access.{access};
ghost use Rattle.mt_machine.specs.Machine.{FitsOp};
ghost use Rattle.mt_machine.specs.declared.phase.Phase.TheVariants.{Running};
ghost use Rattle.mt_machine.specs.Update.{updated};
ghost use Rattle.mt_rendezvous.specs.declared.view.Added.TheVariants.{Never};
ghost use Rattle.mt_private.specs.declared.job.Part.{Part as JobPart};
ghost use Rattle.mt_private.specs.declared.job.Part.TheVariants.{After};
ghost use Rattle.mt_private.specs.InYard.{HasLeft, HasNotTaken, IsReleased, LodgesIn, VisitEndsIn, done_of, goal_at};
ghost use Rattle.mt_private.specs.Jobs.{FitsJob, IsOpen};
ghost use Rattle.mt_private.specs.OneByOne.{at_rest, ran};
ghost use Rattle.mt_private.specs.YardCalls.{AreIn};

use crate::caller::Caller;
use crate::host::Yard;
use crate::job::{Job, JobAnswers, op_at};
use crate::view::YardTurn;
use crate::visiting::{Guest, Visited, YardPass};
use mt_bus::System;
use mt_core::Core;
use mt_machine::{Done, Op};
use mt_ports::Gate;
use mt_regs::RegFile;
use std::sync::Wait;

impl YardPass {
    ghost use Rattle.mt_private.specs.InYard.{IsOutside};

    // Exchanges the own event word, which holds what was stored last. That announces the access and is that event. Does
    // the access.
    fn access(&mut self, yard: &Yard, core: &mut Core, op: Op) -> Done
        requires outside { IsOutside yard.now self.old core.old }
        requires fits { FitsOp op }
        ensures not_taken { HasNotTaken yard.now self.old core.old → HasNotTaken yard.now self.new core.new }
        ensures released { IsReleased yard.now self.old core.old → IsReleased yard.now self.new core.new }
        ensures done { done_of self.new ≡ done_of self.old ++ op ∷ [] }
        ensures number { self.new.number ≡ self.old.number }
        ensures answer { result ≡ (access core.old.system 0 op).answer }
        ensures after { core.new ≡ record core.old { system = (access core.old.system 0 op).after } }
    {
        let word = self.number as usize + 2;
        let next = self.stored.wrapping_add(1);
        yard.table
            .shared
            .compare_exchange_with::<YardTurn>(&mut self.seat, word, self.stored, next, &op);
        self.stored = next;
        core.access(0, op)
    }

    // Does these accesses, in order. Only this file can call it, so a processor of a yard accesses memory in a whole visit alone.
    fn access_all(&mut self, yard: &Yard, core: &mut Core, ops: &[Op], told: &mut Vec<Done>)
        requires outside { IsOutside yard.now self.old core.old }
        requires fits { All FitsOp ops.now }
        requires empty { told.old.items ≡ [] }
        requires room { length ops.now ≤ vec_capacity told.old }
        ensures not_taken { HasNotTaken yard.now self.old core.old → HasNotTaken yard.now self.new core.new }
        ensures released { IsReleased yard.now self.old core.old → IsReleased yard.now self.new core.new }
        ensures done { done_of self.new ≡ done_of self.old ++ ops.now }
        ensures number { self.new.number ≡ self.old.number }
        ensures after { core.new ≡ record core.old { system = (ran 0 ops.now core.old.system).after } }
        ensures answers { told.new.items ≡ (ran 0 ops.now core.old.system).answers }
    {
        for i in 0..ops.len() {
            told.push_reserved(self.access(yard, core, op_at(ops, i)));
        }
    }

    // Takes the processor through the update, once its accesses before it are done.
    fn go_through<R: Wait, G: Gate>(
        &mut self,
        caller: &Caller<R, G>,
        yard: &Yard,
        core: &mut Core,
        goal: &RegFile,
    ) -> Visited
        requires ready { HasNotTaken yard.now self.old core.old }
        requires goal { goal.now ≡ goal_at yard.now }
        ensures number { self.new.number ≡ self.old.number }
        ensures done { done_of self.new ≡ done_of self.old }
        ensures released { result ≡ Visited.Complete → IsReleased yard.now self.new core.new }
        ensures whole { result ≡ Visited.Complete → core.new ≡ updated core.old.system (0 ∷ []) goal.now }
        ensures left { result ≡ Visited.Cancelled → HasLeft yard.now self.new core.new core.old.system }
    {
        if !self.take(yard, core, goal) {
            return Visited::Cancelled;
        }
        let heard = self.arrive(yard, core).tell(caller);
        if !self.wait_first(caller, heard, yard, core) {
            return Visited::Cancelled;
        }
        self.change(yard, core);
        self.wait_second(caller, yard, core);
        Visited::Complete
    }
}

// A core over the one processor, which runs.
pub(crate) fn core_of(own: System) -> Core
    requires { AreIn Running own }
    ensures { result ≡ at_rest own }
{
    Core::new(own)
}

// The accesses, the update, and where it is done the accesses after it.
pub(super) fn visit_with<R: Wait, G: Gate>(
    caller: &Caller<R, G>,
    yard: &Yard,
    pass: &mut YardPass,
    core: &mut Core,
    goal: &RegFile,
    job: &Job,
    told: &mut JobAnswers,
) -> Visited
    requires ready { HasNotTaken yard.now pass.old core.old }
    requires new { done_of pass.old ≡ [] }
    requires goal { goal.now ≡ goal_at yard.now }
    requires addresses { FitsJob job.now }
    requires open { (part : JobPart) → IsOpen part job.now told.old }
    ensures ends { VisitEndsIn result yard.now pass.new (record { job = job.now; first = core.old.system; last = core.new.system; told = told.new }) }
    ensures runs { AreIn Running core.new.system }
    ensures has_room { result ≡ Visited.Cancelled → IsOpen After job.now told.new }
    ensures number { pass.new.number ≡ pass.old.number }
{
    pass.access_all(yard, core, job.before.as_slice(), &mut told.before);
    match pass.go_through(caller, yard, core, goal) {
        Visited::Complete => {
            pass.access_all(yard, core, job.after.as_slice(), &mut told.after);
            Visited::Complete
        }
        Visited::Cancelled => Visited::Cancelled,
    }
}

/// Does the job's accesses before the update, the processor's events of one update, and, if that completes, the
/// accesses after it. Others may wait meanwhile, or access pages of their own. It tells the gate once that its
/// processor has arrived, if it has taken. It waits for the others, and for the host.
///
/// Complete comes only after a load of the second count that showed all processors, and Cancelled only after a load of
/// the first count that showed the host's cancel; the pass's view then says so.
pub fn visit<R: Wait, G: Gate>(
    rt: &R,
    yard: &Yard,
    guest: Guest,
    goal: &RegFile,
    job: &Job,
    told: &mut JobAnswers,
    gate: &G,
) -> (Guest, Visited)
    requires lodges { LodgesIn yard.now guest.pass guest.own Never }
    requires runs { AreIn Running guest.own }
    requires new { done_of guest.pass ≡ [] }
    requires goal { goal.now ≡ goal_at yard.now }
    requires addresses { FitsJob job.now }
    requires open { (part : JobPart) → IsOpen part job.now told.old }
    ensures ends { VisitEndsIn result.1 yard.now result.0.pass (record { job = job.now; first = guest.own; last = result.0.own; told = told.new }) }
    ensures number { result.0.pass.number ≡ guest.pass.number }
{
    let Guest { own, mut pass } = guest;
    let mut core = core_of(own);
    let visited = visit_with(
        &Caller::of(rt, gate),
        yard,
        &mut pass,
        &mut core,
        goal,
        job,
        told,
    );
    let own = core.into_system();
    (Guest { own, pass }, visited)
}
