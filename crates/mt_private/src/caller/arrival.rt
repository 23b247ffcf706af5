// The arrival of a pass at the first barrier, and that the gate was told of it.
ghost use Rattle.std.specs.Prelude.{◌≡◌};
ghost use Rattle.mt_machine.specs.System.{System};

use crate::caller::Caller;
use crate::host::{CANCEL, Yard};
use crate::view::YardTurn;
use crate::visiting::YardPass;
use mt_core::Core;
use mt_ports::Gate;
use mt_rendezvous::Heard;

// That a gate is to be told of an arrival. Only this file can make one or take one apart: `of` makes it, for a pass that has
// added to the first count, and `tell` takes it apart. It is neither `Clone` nor `Drop`.
pub(super) struct Arrival {
    number: u32,
}

impl Arrival {
    ghost use Rattle.mt_private.specs.InYard.{HasAdded};

    // The arrival of this pass's processor.
    fn of(pass: &YardPass) -> Arrival
        requires added { HasAdded pass.now }
        ensures { result.number ≡ pass.now.number }
    {
        Arrival {
            number: pass.number as u32,
        }
    }

    // Has the caller's crew tell its gate.
    pub(super) fn tell<R, G: Gate>(self, caller: &Caller<R, G>) -> Heard<G>
        ensures { result.number ≡ self.number }
    {
        let Arrival { number } = self;
        caller.crew.tell(number)
    }
}

impl YardPass {
    ghost use Rattle.mt_private.specs.InYard.{HasArrived, IsTaken, done_of};

    // Adds to the first count: the event Arrive, or none where it held the cancel before.
    pub(super) fn arrive(&mut self, yard: &Yard, core: &mut Core) -> Arrival
        requires taken { (first : System) × IsTaken yard.now self.old core.old first }
        ensures number { self.new.number ≡ self.old.number }
        ensures done { done_of self.new ≡ done_of self.old }
        ensures arrived { (first : System) → IsTaken yard.now self.old core.old first → HasArrived yard.now self.new core.new first }
        ensures token { result.number ≡ self.old.number }
    {
        let found = yard
            .table
            .shared
            .fetch_add::<YardTurn>(&mut self.seat, 0, 1);
        let token = Arrival::of(self);
        if found < CANCEL {
            core.step(0);
            return token;
        }
        token
    }
}
