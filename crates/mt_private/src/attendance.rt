// The threads of a run: one for each guest, in a scope.
ghost use Rattle.std.specs.Prelude.{◌≡◌, ◌+◌, ◌<◌, ◌≤◌, [], length, IfSome, IfNone, is_ok, vec_len, vec_capacity};
ghost use Rattle.mt_machine.specs.declared.go.Go.TheVariants.{Cancelled, Pending};
ghost use Rattle.mt_rendezvous.specs.Update.{decided};
ghost use Rattle.mt_private.specs.InYard.{AreWaitingIn, HasComeIn, HostsIn, IsFreshHost, IsNewIn, ReturnedIn, said_by};

use crate::caller::{Caller, come_here, core_of, start};
use crate::host::Host;
use crate::job::JobAnswers;
use crate::shared::Shared;
use crate::visiting::{Guest, Visited};
use crate::visitor::Visitor;
use mt_ports::Gate;
use mt_rendezvous::Refusal;
use std::sync::Wait;
use std::thread::{Scope, Threads};

// Who takes part in a run: the host, the guests whose visits haven't begun, and places for answers. At first these are the empty
// places of the guests. Once no guest is left, they are the answers of the visitors that are back. Both lists are in the order of
// the processors' numbers.
#[derive(Drop)]
pub(crate) struct Attendance {
    pub(crate) host: Host,
    pub(crate) waiting: Vec<Guest>,
    pub(crate) told: Vec<JobAnswers>,
}

impl Attendance {
    // The visitor's guest comes back, and its answers go behind those of the ones before it.
    fn take_back(&mut self, shared: &Shared, visitor: Visitor)
        requires returned { ReturnedIn shared.now self.old.host (said_by self.old.host) (length self.old.told.items) self.old.told.items }
        requires came { HasComeIn shared.now (length self.old.told.items) visitor }
        requires room { vec_len self.old.told < vec_capacity self.old.told }
        ensures returned { ReturnedIn shared.now self.new.host (said_by self.old.host) (length self.old.told.items + 1) self.new.told.items }
        ensures rest { self.new.host.rest ≡ self.old.host.rest }
        ensures capacity { vec_capacity self.new.told ≡ vec_capacity self.old.told }
    {
        let Visitor {
            core,
            pass,
            told: answers,
            visited: _,
        } = visitor;
        let own = core.into_system();
        self.host.take_back(&shared.yard, Guest { own, pass });
        self.told.push_reserved(answers);
    }
}

// The last guest, with its place for answers.
fn last(shared: &Shared, waiting: &mut Vec<Guest>, told: &mut Vec<JobAnswers>) -> Option<Visitor>
    requires { AreWaitingIn shared.now waiting.old.items told.old.items }
    ensures none { IfNone result ((length waiting.old.items ≡ 0) × (told.new.items ≡ [])) }
    ensures number { IfSome result (λ v. v.pass.number ≡ length waiting.new.items) }
    ensures some { IfSome result (λ v. IsNewIn shared.now v.pass.number v) }
    ensures fewer { IfSome result (λ v. length waiting.old.items ≡ length waiting.new.items + 1) }
    ensures rest { IfSome result (λ v. AreWaitingIn shared.now waiting.new.items told.new.items) }
    ensures capacity { vec_capacity told.new ≡ vec_capacity told.old }
{
    let _ = shared.jobs.len(); // a fact for the proof
    let Guest { own, pass } = waiting.pop()?;
    let Some(answers) = told.pop() else {
        unreachable!()
    };
    Some(Visitor {
        core: core_of(own),
        pass,
        told: answers,
        visited: Visited::Cancelled,
    })
}

// With the cancel given, all that wait do their accesses before the update on this thread, and leave. A refusal alone allows
// it.
fn leave_all<R: Wait, G: Gate>(
    caller: &Caller<R, G>,
    shared: &Shared,
    attendance: &mut Attendance,
    refusal: &Refusal,
)
    requires cancelled { HostsIn shared.now.yard attendance.old.host Cancelled }
    requires fresh { IsFreshHost shared.now.yard attendance.old.host }
    requires waiting { AreWaitingIn shared.now attendance.old.waiting.items attendance.old.told.items }
    requires room { length attendance.old.waiting.items ≤ vec_capacity attendance.old.told }
    ensures returned { ReturnedIn shared.now attendance.new.host Cancelled (length attendance.old.waiting.items) attendance.new.told.items }
    ensures rest { attendance.new.host.rest ≡ attendance.old.host.rest }
    ensures capacity { vec_capacity attendance.new.told ≡ vec_capacity attendance.old.told }
{
    let Some(mut visitor) = last(shared, &mut attendance.waiting, &mut attendance.told) else {
        return;
    };
    leave_all(caller, shared, attendance, refusal);
    come_here(refusal, caller, shared, &attendance.host, &mut visitor);
    attendance.take_back(shared, visitor);
}

// Starts a thread for each guest, gives the go, and takes all back. If one isn't started, the host cancels.
fn run_all<'s, E, R: Threads + Wait + Sync, G: Gate>(
    caller: &'s Caller<R, G>,
    scope: &Scope<'s, E>,
    shared: &'s Shared,
    attendance: &mut Attendance,
) -> Result<(), Refusal>
    requires pending { HostsIn shared.now.yard attendance.old.host Pending }
    requires fresh { IsFreshHost shared.now.yard attendance.old.host }
    requires waiting { AreWaitingIn shared.now attendance.old.waiting.items attendance.old.told.items }
    requires room { length attendance.old.waiting.items ≤ vec_capacity attendance.old.told }
    ensures returned { ReturnedIn shared.now attendance.new.host (decided (is_ok result)) (length attendance.old.waiting.items) attendance.new.told.items }
    ensures rest { attendance.new.host.rest ≡ attendance.old.host.rest }
    ensures capacity { vec_capacity attendance.new.told ≡ vec_capacity attendance.old.told }
{
    let Some(visitor) = last(shared, &mut attendance.waiting, &mut attendance.told) else {
        attendance.host.go(&shared.yard);
        return Ok(());
    };
    match start(caller, scope, shared, &mut attendance.host, visitor) {
        Ok(child) => {
            let outcome = run_all(caller, scope, shared, attendance);
            let visitor = caller.join(&attendance.host, child);
            attendance.take_back(shared, visitor);
            outcome
        }
        Err((visitor, refusal)) => {
            leave_all(caller, shared, attendance, &refusal);
            attendance.take_back(shared, visitor);
            Err(refusal)
        }
    }
}

// The state when the threads have ended: whether the go was given or what was refused, the host, and the answers.
pub(crate) struct Ended {
    pub(crate) outcome: Result<(), Refusal>,
    pub(crate) host: Host,
    pub(crate) told: Vec<JobAnswers>,
}

// The scope of the threads.
pub(crate) fn meet<R: Threads + Wait + Sync, G: Gate>(
    caller: &Caller<R, G>,
    shared: &Shared,
    mut attendance: Attendance,
) -> Ended
    requires pending { HostsIn shared.now.yard attendance.host Pending }
    requires fresh { IsFreshHost shared.now.yard attendance.host }
    requires waiting { AreWaitingIn shared.now attendance.waiting.items attendance.told.items }
    requires room { length attendance.waiting.items ≤ vec_capacity attendance.told }
    ensures returned { ReturnedIn shared.now result.host (decided (is_ok result.outcome)) (length attendance.waiting.items) result.told.items }
    ensures rest { result.host.rest ≡ attendance.host.rest }
{
    caller.scope(
        move |scope| -> Ended
            requires pending { HostsIn shared.now.yard attendance.host Pending }
            requires fresh { IsFreshHost shared.now.yard attendance.host }
            requires waiting { AreWaitingIn shared.now attendance.waiting.items attendance.told.items }
            requires room { length attendance.waiting.items ≤ vec_capacity attendance.told }
            ensures returned { ReturnedIn shared.entry.now result.host (decided (is_ok result.outcome)) (length attendance.waiting.items) result.told.items }
            ensures rest { result.host.rest ≡ attendance.host.rest }
        {
            let outcome = run_all(caller, scope, shared, &mut attendance);
            let Attendance {
                host,
                waiting: _,
                told,
            } = attendance;
            Ended {
                outcome,
                host,
                told,
            }
        },
    )
}
