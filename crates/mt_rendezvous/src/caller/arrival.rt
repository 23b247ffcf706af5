// The arrival of a pass at the first barrier, and that the gate was told of it.
ghost use Rattle.std.specs.Prelude.{◌≡◌};
ghost use Rattle.mt_rendezvous.specs.InStation.{HasAddedIn};

use crate::caller::Caller;
use crate::crew::Heard;
use crate::station::{CANCEL, Pass, Station};
use crate::view::Turn;
use mt_cpu::Cpu;
use mt_machine::Event;
use mt_ports::Gate;

// That a gate is to be told of an arrival. Only this file can make one or take one apart: `of` makes it, for a pass that has
// added to the first count, and `tell` takes it apart. It is neither `Clone` nor `Drop`.
pub(super) struct Arrival {
    number: u32,
}

impl Arrival {
    // The arrival of this pass's processor.
    fn of(pass: &Pass) -> Arrival
        requires added { HasAddedIn pass.now }
        ensures { result.number ≡ pass.now.number }
    {
        Arrival {
            number: pass.processor(),
        }
    }

    // Has the caller's crew tell its gate.
    pub(super) fn tell<R, G: Gate>(self, caller: &Caller<R, G>) -> Heard<G>
        ensures { result.number ≡ self.number }
    {
        let Arrival { number } = self;
        caller.crew.tell(number)
    }
}

impl Pass {
    ghost use Rattle.mt_rendezvous.specs.InStation.{HasArrived, IsAsGathered, IsTaken};

    // Adds to word 0: the event Arrive, or none where the word held the cancel before.
    pub(super) fn arrive(&mut self, station: &Station, cpu: &mut Cpu) -> Arrival
        requires { IsTaken station.now self.old cpu.old }
        ensures arrived { HasArrived station.now self.new cpu.new }
        ensures first { IsAsGathered station.now self.old.number cpu.old }
        ensures same { cpu.new ≡ record cpu.old { phase = cpu.new.phase } }
        ensures shown { self.new.shown ≡ self.old.shown }
        ensures number { self.new.number ≡ self.old.number }
        ensures token { result.number ≡ self.old.number }
    {
        let found = station.table.shared.fetch_add::<Turn>(&mut self.seat, 0, 1);
        if found < CANCEL {
            cpu.shift(Event::Arrive);
            return Arrival::of(self);
        }
        Arrival::of(self)
    }
}
