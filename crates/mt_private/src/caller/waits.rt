// The calls that wait: for the others at the two barriers, and for threads. Only this file reads the runtime of a caller. So every
// other function that has a caller, and no runtime of its own, waits by these calls alone, and its own loops terminate.
ghost use Rattle.std.specs.Prelude.{◌≡◌, [], ◌∷◌, false, IsTrue};
ghost use Rattle.mt_machine.specs.System.{System};
ghost use Rattle.mt_machine.specs.Update.{updated};

use crate::caller::Caller;
use crate::host::{CANCEL, Host, Yard};
use crate::view::YardTurn;
use crate::visiting::YardPass;
use mt_core::Core;
use mt_ports::Gate;
use mt_rendezvous::{Heard, Pauses, Started};
use std::sync::Wait;
use std::thread;
use std::thread::{Promise, Scope, Threads};

// The runtime of a call. A loop without a measure needs one.
#[derive(Drop)]
pub(super) struct Waiter<R> {
    rt: R,
}

impl<R> Waiter<R> {
    // The one with this runtime.
    pub(super) fn of(rt: R) -> Waiter<R> {
        Waiter { rt }
    }
}

impl<R: Threads + Wait, G: Gate> Caller<R, G> {
    ghost use Rattle.mt_private.specs.InYard.{HasDecided};

    // Calls f with a scope, and waits for the threads that f starts there.
    pub(crate) fn scope<'e, F: for<'s> FnOnce(&'s Scope<'s, &'e ()>) -> T, T>(&self, f: F) -> T
        requires { F.IsAlwaysCallable f }
        ensures { (s : _) × F.post f s result }
    {
        thread::scope(thread::scope_env(), &self.waiter.rt, f)
    }

    // Waits for the end of a thread that a crew with a gate of this caller's type has started, once the host has given the go or
    // cancelled.
    pub(crate) fn join<T, P: Promise<T>>(&self, _host: &Host, child: Started<T, P, G>) -> T
        requires { HasDecided _host.now }
        ensures { P.kept_by child.promise.value result }
    {
        self.crew.join(&self.waiter.rt, child)
    }
}

impl YardPass {
    ghost use Rattle.mt_private.specs.InYard.{HasArrived, HasArrivedAgain, HasLeft, HasPassed, IsReleased, done_of, goal_at};

    // Waits for the others. It spends what says that a gate of the caller's type was told of this pass. The load of the first
    // count that ends it is the event Pass, and the result is true, or Leave. Each load before it is none.
    pub(super) fn wait_first<R: Wait, G>(
        &mut self,
        caller: &Caller<R, G>,
        heard: Heard<G>,
        yard: &Yard,
        core: &mut Core,
    ) -> bool
        requires arrived { (first : System) × HasArrived yard.now self.old core.old first }
        requires heard { heard.number ≡ self.old.number }
        ensures number { self.new.number ≡ self.old.number }
        ensures done { done_of self.new ≡ done_of self.old }
        ensures passed { IsTrue result → (first : System) → HasArrived yard.now self.old core.old first → HasPassed yard.now self.new core.new first }
        ensures left { result ≡ false → (first : System) → HasArrived yard.now self.old core.old first → HasLeft yard.now self.new core.new first }
    {
        heard.spend();
        let mut pauses = Pauses::new();
        for _ in caller.waiter.rt.forever() {
            let found = yard.table.shared.load::<YardTurn>(&mut self.seat, 0);
            if found >= CANCEL {
                core.cancel();
                core.step(0);
                return false;
            }
            if found == yard.count + 1 {
                core.go();
                core.step(0);
                return true;
            }
            pauses.pause();
        }
        unreachable!()
    }

    // Waits for the others again. The load of the second count that ends it is the event Release. Each load before it
    // is none.
    pub(super) fn wait_second<R: Wait, G>(
        &mut self,
        caller: &Caller<R, G>,
        yard: &Yard,
        core: &mut Core,
    )
        requires arrived { (first : System) × HasArrivedAgain yard.now self.old core.old first }
        ensures number { self.new.number ≡ self.old.number }
        ensures done { done_of self.new ≡ done_of self.old }
        ensures released { IsReleased yard.now self.new core.new }
        ensures whole { (first : System) → HasArrivedAgain yard.now self.old core.old first → core.new ≡ updated first (0 ∷ []) (goal_at yard.now) }
    {
        let mut pauses = Pauses::new();
        for _ in caller.waiter.rt.forever() {
            let found = yard.table.shared.load::<YardTurn>(&mut self.seat, 1);
            if found == yard.count {
                core.step(0);
                return;
            }
            pauses.pause();
        }
        unreachable!()
    }
}
