// The calls that wait: for the others at the two barriers, and for threads. Only this file reads the runtime of a caller. So every
// other function that has a caller, and no runtime of its own, waits by these calls alone, and its own loops terminate.
ghost use Rattle.std.specs.Prelude.{◌≡◌};
ghost use Rattle.mt_machine.specs.declared.event.Event.TheVariants.{Release};
ghost use Rattle.mt_rendezvous.specs.Plays.{Took};

use crate::caller::Caller;
use crate::crew::{Heard, Started};
use crate::pauses::Pauses;
use crate::station::{CANCEL, Pass, Root, Station};
use crate::view::Turn;
use mt_cpu::Cpu;
use mt_machine::Event;
use mt_ports::Gate;
use std::sync::Wait;
use std::thread;
use std::thread::{Promise, Scope, Threads};

// The runtime of a call. A loop without a measure needs one.
#[derive(Drop)]
pub(super) struct Waiter<R> {
    rt: R,
}

impl<R> Waiter<R> {
    // The one with this runtime.
    pub(super) fn of(rt: R) -> Waiter<R> {
        Waiter { rt }
    }
}

impl<R: Threads + Wait, G: Gate> Caller<R, G> {
    ghost use Rattle.mt_rendezvous.specs.InStation.{HasDecided};

    // Calls f with a scope, and waits for the threads that f starts there.
    pub(crate) fn scope<'e, F: for<'s> FnOnce(&'s Scope<'s, &'e ()>) -> T, T>(&self, f: F) -> T
        requires { F.IsAlwaysCallable f }
        ensures { (s : _) × F.post f s result }
    {
        thread::scope(thread::scope_env(), &self.waiter.rt, f)
    }

    // Waits for the end of a thread that a crew with a gate of this caller's type has started, once the root has given the go or
    // cancelled.
    pub(crate) fn join<T, P: Promise<T>>(&self, _root: &Root, child: Started<T, P, G>) -> T
        requires { HasDecided _root.now }
        ensures { P.kept_by child.promise.value result }
    {
        self.crew.join(&self.waiter.rt, child)
    }
}

impl Pass {
    ghost use Rattle.mt_rendezvous.specs.InStation.{HasArrived, HasArrivedAgain, IsReleased, Waited, start_at};

    // Waits for the others. It spends what says that a gate of the caller's type was told of this pass. The load of word 0 that ends it is the event Pass, and
    // the answer is true, or Leave. Each load before it is none.
    pub(super) fn wait_first<R: Wait, G>(
        &mut self,
        caller: &Caller<R, G>,
        heard: Heard<G>,
        station: &Station,
        cpu: &mut Cpu,
    ) -> bool
        requires arrived { HasArrived station.now self.old cpu.old }
        requires heard { heard.number ≡ self.old.number }
        ensures waited { Waited result station.now self.new cpu.old cpu.new }
        ensures shown { self.new.shown ≡ self.old.shown }
        ensures number { self.new.number ≡ self.old.number }
    {
        heard.spend();
        let mut pauses = Pauses::new();
        for _ in caller.waiter.rt.forever() {
            let found = station.table.shared.load::<Turn>(&mut self.seat, 0);
            if found >= CANCEL {
                cpu.shift(Event::Leave);
                return false;
            }
            if found == station.count + 1 {
                cpu.shift(Event::Pass);
                return true;
            }
            pauses.pause();
        }
        unreachable!()
    }

    // Waits for the others again. The load of word 1 that ends it is the event Release. Each load before it is none.
    pub(super) fn wait_second<R: Wait, G>(
        &mut self,
        caller: &Caller<R, G>,
        station: &Station,
        cpu: &mut Cpu,
    )
        requires { HasArrivedAgain station.now self.old cpu.old }
        ensures released { IsReleased station.now self.new cpu.new }
        ensures took { Took (start_at station.now) self.new.number Release cpu.old cpu.new }
        ensures number { self.new.number ≡ self.old.number }
    {
        let mut pauses = Pauses::new();
        for _ in caller.waiter.rt.forever() {
            let found = station.table.shared.load::<Turn>(&mut self.seat, 1);
            self.shown = Some(found as u32);
            if found == station.count {
                cpu.shift(Event::Release);
                return;
            }
            pauses.pause();
        }
        unreachable!()
    }
}
