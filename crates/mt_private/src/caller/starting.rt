// The thread of a visitor, or its place on this thread.
ghost use Rattle.std.specs.Prelude.{◌≡◌, IfErr, IfOk};
ghost use Rattle.std.specs.Thread.{IsSync};
ghost use Rattle.mt_machine.specs.declared.go.Go.TheVariants.{Cancelled, Pending};
ghost use Rattle.mt_private.specs.InYard.{HasCancelledIn, HasComeIn, HoldsAsBefore, HostsIn, IsNewIn};

use super::visits::visit_with;
use crate::caller::Caller;
use crate::host::Host;
use crate::shared::{Shared, job_of};
use crate::visitor::Visitor;
use mt_ports::Gate;
use mt_rendezvous::{OfProcessor, Refusal, Started};
use std::snapshot::Snapshot;
use std::sync::Wait;
use std::thread::{Promise, Scope};

// What the thread of a visitor promises: it comes back, and its visit has ended. Only this file can make one.
#[derive(Drop)]
pub(crate) struct ComesBack {
    shared: Snapshot<Shared>,
    number: u64,
}

impl Promise<Visitor> for ComesBack {
    ghost use Rattle.mt_private.specs.InYard.{HasComeIn};

    ghost kept_by = { λ p v. HasComeIn p.shared.value p.number v };
}

impl OfProcessor for ComesBack {
    ghost number = { λ p. p.number };
}

// Once the host has cancelled, the visitor does its accesses before the update on this thread, and leaves. A refusal alone
// allows it.
pub(crate) fn come_here<R: Wait, G: Gate>(
    _refusal: &Refusal,
    caller: &Caller<R, G>,
    shared: &Shared,
    _host: &Host,
    visitor: &mut Visitor,
)
    requires cancelled { HasCancelledIn shared.now.yard _host.now }
    requires new { IsNewIn shared.now visitor.old.pass.number visitor.old }
    ensures { HasComeIn shared.now visitor.old.pass.number visitor.new }
{
    come(caller, shared, visitor);
}

// The whole visit, on the thread that calls it.
fn come<R: Wait, G: Gate>(caller: &Caller<R, G>, shared: &Shared, visitor: &mut Visitor)
    requires new { IsNewIn shared.now visitor.old.pass.number visitor.old }
    ensures { HasComeIn shared.now visitor.old.pass.number visitor.new }
{
    let job = job_of(shared, visitor.pass.number as usize);
    visitor.visited = visit_with(
        caller,
        &shared.yard,
        &mut visitor.pass,
        &mut visitor.core,
        &shared.goal,
        job,
        &mut visitor.told,
    );
}

// Starts the visitor's thread, if the caller's gate lets it. If none is started the host cancels. The visitor then leaves, and
// comes back with the refusal.
pub(crate) fn start<'s, E, R: Wait + Sync, G: Gate>(
    caller: &'s Caller<R, G>,
    scope: &Scope<'s, E>,
    shared: &'s Shared,
    host: &mut Host,
    visitor: Visitor,
) -> Result<Started<Visitor, ComesBack, G>, (Visitor, Refusal)>
    requires hosts { HostsIn shared.now.yard host.old Pending }
    requires new { IsNewIn shared.now visitor.pass.number visitor }
    ensures same { HoldsAsBefore host.old host.new }
    ensures pending { IfOk result (λ s. HostsIn shared.now.yard host.new Pending) }
    ensures child { IfOk result (λ s. (s.promise.value.shared.value ≡ shared.now) × (s.promise.value.number ≡ visitor.pass.number)) }
    ensures cancelled { IfErr result (λ e. HostsIn shared.now.yard host.new Cancelled) }
    ensures come { IfErr result (λ e. HasComeIn shared.now visitor.pass.number e.0) }
{
    let promise = ComesBack {
        shared: Snapshot::of(shared),
        number: visitor.pass.number,
    };
    match caller.crew.start(
        scope,
        visitor.pass.number as u32,
        promise,
        move || -> Visitor
            requires sync { IsSync R.row }
            requires new { IsNewIn shared.now visitor.pass.number visitor }
            ensures { HasComeIn shared.entry.now visitor.pass.number result }
        {
            let mut visitor = visitor;
            come(caller, shared, &mut visitor);
            visitor
        },
    ) {
        Ok(child) => Ok(child),
        Err(unstarted) => {
            host.cancel(&shared.yard);
            Err(unstarted.done_here(&shared.yard, host))
        }
    }
}
