// The thread of a processor, or its place on this thread.
ghost use Rattle.std.specs.Prelude.{◌≡◌, IfErr, IfOk};
ghost use Rattle.std.specs.Thread.{IsSync};
ghost use Rattle.mt_machine.specs.declared.go.Go.TheVariants.{Cancelled, Pending};
ghost use Rattle.mt_rendezvous.specs.InStation.{CameAs, HasCancelledIn, IsTaken, LeadsIn, held_by};

use crate::caller::Caller;
use crate::crew::{OfProcessor, Refusal, Started};
use crate::shared::Shared;
use crate::station::{Attendee, Root, Station};
use mt_ports::Gate;
use std::snapshot::Snapshot;
use std::sync::Wait;
use std::thread::{Promise, Scope};

// What the thread of a processor promises: the processor comes back, and runs. Only this file makes one.
#[derive(Drop)]
pub(crate) struct ComesBack {
    station: Snapshot<Station>,
    number: u64,
}

impl Promise<Attendee> for ComesBack {
    ghost use Rattle.mt_rendezvous.specs.InStation.{CameAs};

    ghost kept_by = { λ p a. CameAs p.station.value p.number a };
}

impl OfProcessor for ComesBack {
    ghost number = { λ p. p.number };
}

impl Refusal {
    // Takes the attendee out of the update on this thread, where the root has cancelled.
    pub(crate) fn leave<R: Wait, G: Gate>(
        &self,
        caller: &Caller<R, G>,
        shared: &Shared,
        _root: &Root,
        a: &mut Attendee,
    )
        requires cancelled { HasCancelledIn shared.now.station _root.now }
        requires taken { IsTaken shared.now.station a.old.pass a.old.cpu }
        ensures { CameAs shared.now.station a.old.pass.number a.new }
    {
        attend_whole(caller, shared, a);
    }
}

// Takes the attendee through the update, or out of it.
fn attend_whole<R: Wait, G: Gate>(caller: &Caller<R, G>, shared: &Shared, a: &mut Attendee)
    requires { IsTaken shared.now.station a.old.pass a.old.cpu }
    ensures { CameAs shared.now.station a.old.pass.number a.new }
{
    a.pass.go_through(
        caller,
        &shared.station,
        &shared.ram,
        &shared.goal,
        &mut a.cpu,
    );
}

// Starts the attendee's thread, if the caller's gate lets it. If none is started, the root cancels. The attendee then
// leaves, and comes back with the refusal.
pub(crate) fn start<'s, E, R: Wait + Sync, G: Gate>(
    caller: &'s Caller<R, G>,
    scope: &Scope<'s, E>,
    shared: &'s Shared,
    root: &mut Root,
    a: Attendee,
) -> Result<Started<Attendee, ComesBack, G>, (Attendee, Refusal)>
    requires root { LeadsIn shared.now.station root.old Pending }
    requires taken { IsTaken shared.now.station a.pass a.cpu }
    ensures held { held_by root.new ≡ held_by root.old }
    ensures pending { IfOk result (λ s. LeadsIn shared.now.station root.new Pending) }
    ensures station { IfOk result (λ s. s.promise.value.station.value ≡ shared.now.station) }
    ensures number { IfOk result (λ s. s.promise.value.number ≡ a.pass.number) }
    ensures cancelled { IfErr result (λ e. LeadsIn shared.now.station root.new Cancelled) }
    ensures came { IfErr result (λ e. CameAs shared.now.station a.pass.number e.0) }
{
    let promise = ComesBack {
        station: Snapshot::of(&shared.station),
        number: a.pass.number,
    };
    match caller.crew.start(
        scope,
        a.pass.processor(),
        promise,
        move || -> Attendee
            requires sync { IsSync R.row }
            requires taken { IsTaken shared.now.station a.pass a.cpu }
            ensures { CameAs shared.entry.now.station a.pass.number result }
        {
            let mut a = a;
            attend_whole(caller, shared, &mut a);
            a
        },
    ) {
        Ok(child) => Ok(child),
        Err(unstarted) => {
            root.cancel(&shared.station);
            Err(unstarted.done_here(&shared.station, root))
        }
    }
}
