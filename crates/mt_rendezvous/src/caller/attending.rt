// The whole way of a pass through an update. Its calls wait. Only `caller.rt` and the files below it see them, except for `attend`.
ghost use Rattle.std.specs.Prelude.{◌≡◌, length, Some};
ghost use Rattle.mt_rendezvous.specs.InStation.{AttendedIn, IsTaken, goal_at, start_at, windows_at};

use crate::caller::Caller;
use crate::station::{Attendee, Outcome, Pass, Station};
use mt_cpu::Cpu;
use mt_ports::Gate;
use mt_ram::Ram;
use mt_regs::RegFile;
use std::sync::Wait;

impl Pass {
    // Takes the processor through the update, or out of it if the root cancels.
    pub(super) fn go_through<R: Wait, G: Gate>(
        &mut self,
        caller: &Caller<R, G>,
        station: &Station,
        ram: &Ram,
        goal: &RegFile,
        cpu: &mut Cpu,
    ) -> Outcome
        requires taken { IsTaken station.now self.old cpu.old }
        requires goal { goal.now ≡ goal_at station.now }
        requires windows { ram.now.windows ≡ windows_at station.now }
        ensures attended { AttendedIn result station.now self.new cpu.old cpu.new }
        ensures number { self.new.number ≡ self.old.number }
        ensures unshown { result ≡ Outcome.Cancelled → self.new.shown ≡ self.old.shown }
        ensures shown { result ≡ Outcome.Complete → self.new.shown ≡ Some (length (start_at station.now).cpus) }
    {
        let heard = self.arrive(station, cpu).tell(caller);
        if !self.wait_first(caller, heard, station, cpu) {
            return Outcome::Cancelled;
        }
        self.change(station, ram, goal, cpu);
        self.wait_second(caller, station, cpu);
        Outcome::Complete
    }
}

/// Takes the processor through the update, and tells the gate once that it has arrived. It waits for the others,
/// and for the root.
pub fn attend<R: Wait, G: Gate>(
    rt: &R,
    station: &Station,
    ram: &Ram,
    a: Attendee,
    goal: &RegFile,
    gate: &G,
) -> (Attendee, Outcome)
    requires taken { IsTaken station.now a.pass a.cpu }
    requires goal { goal.now ≡ goal_at station.now }
    requires windows { ram.now.windows ≡ windows_at station.now }
    ensures attended { AttendedIn result.1 station.now result.0.pass a.cpu result.0.cpu }
    ensures number { result.0.pass.number ≡ a.pass.number }
    ensures unshown { result.1 ≡ Outcome.Cancelled → result.0.pass.shown ≡ a.pass.shown }
    ensures shown { result.1 ≡ Outcome.Complete → result.0.pass.shown ≡ Some (length (start_at station.now).cpus) }
{
    let Attendee { mut cpu, mut pass } = a;
    let outcome = pass.go_through(&Caller::of(rt, gate), station, ram, goal, &mut cpu);
    (Attendee { cpu, pass }, outcome)
}
