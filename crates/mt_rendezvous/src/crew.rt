// Threads that a gate lets start, and what stands in their place if one isn't started.
ghost use Rattle.std.specs.Prelude.{◌≡◌, ◌<◌, ℕ, IfErr, IfOk, length};
ghost use Rattle.mt_machine.specs.Machine.{Calls, IsEnabled};
ghost use Rattle.mt_machine.specs.Start.{HasEraRoom, IsQuiet};
ghost use Rattle.mt_machine.specs.Update.{updated};
ghost use Rattle.mt_core.specs.Rounds.{in_order};

use mt_core::Core;
use mt_ports::Gate;
use mt_regs::RegFile;
use std::marker::PhantomData;
use std::snapshot::Snapshot;
use std::thread::{Promise, PromisedHandle, Scope, Threads};

mod memory;

pub(crate) use memory::{open, room};

/// A gate behind a reference.
#[derive(Drop)]
pub struct Lent<'a, G> {
    gate: &'a G,
}

impl<'a, G: Gate> Lent<'a, G> {
    /// Lends the gate.
    pub fn of(gate: &'a G) -> Lent<'a, G> {
        Lent { gate }
    }
}

impl<'a, G: Gate> Gate for Lent<'a, G> {
    fn may_start(&self, k: u32) -> bool {
        self.gate.may_start(k)
    }

    fn arrived(&self, k: u32) {
        self.gate.arrived(k)
    }
}

/// That a gate, the system or the allocator has refused a start or memory. Only this module and `crew/memory.rt` can make one
/// or take one apart. It has no bytes, and is neither `Clone` nor `Drop`: another crate gets rid of one by `update_alone`
/// only. No clause says that they make one only then.
pub struct Refusal {
    made: (),
}

impl Refusal {
    // Spends the refusal of memory for a station that stands outside an update.
    pub(crate) fn spend(self) {
        let Refusal { made: _ } = self;
    }

    /// Spends the refusal by the whole update on this thread, by the calls of a core.
    pub fn update_alone(self, core: &mut Core, goal: &RegFile)
        requires quiet { IsQuiet core.old }
        requires callable { IsEnabled core.old (Calls goal.now) }
        requires some { 0 < length core.old.system.processors }
        requires room { HasEraRoom core.old }
        ensures { core.new ≡ updated core.old.system (in_order core.old) goal.now }
    {
        let Refusal { made: _ } = self;
        let Ok(()) = core.call(goal) else {
            unreachable!()
        };
        core.round();
    }
}

/// Who gives the go of an update, or cancels it.
pub trait Coordinator<S> {
    /// Whether it has cancelled the update at this station.
    ghost has_cancelled: { S → Self → Type 0 };
}

/// A promise of what one processor's thread returns.
pub trait OfProcessor {
    ghost number: { Self → ℕ };
}

/// The work of a thread that wasn't started. Only this module and `crew/memory.rt` can make one or take one apart. It
/// isn't `Drop`.
pub struct Unstarted<F> {
    work: F,
    /// The work, as `Crew::start` got it.
    pub was: Snapshot<F>,
    pub ghost same: { work ≡ was.value },
}

impl<F> Unstarted<F> {
    /// Does the work on this thread, once the coordinator has cancelled.
    pub fn done_here<S, C: Coordinator<S>, T>(self, _station: &S, _coordinator: &C) -> (T, Refusal)
    where
        F: FnOnce() -> T,
        requires runs { F.pre self.was.value }
        requires cancelled { C.has_cancelled _station.now _coordinator.now }
        ensures { F.post self.was.value result.0 }
    {
        let Unstarted { work, was: _ } = self;
        (work(), Refusal { made: () })
    }
}

/// A thread that a crew with a gate of type G has started. Only this module and `crew/memory.rt` can make one or take
/// one apart. It isn't `Drop`: whoever has one joins the thread or hands it on.
pub struct Started<T, P: Promise<T>, G> {
    handle: PromisedHandle<T, P>,
    gate: PhantomData<G>,
    /// What the thread's result keeps.
    pub promise: Snapshot<P>,
    pub ghost same: { handle.promise ≡ promise.value },
}

/// That `Crew::tell` was called, of a crew with a gate of type G. Only this module and `crew/memory.rt` can make one or take one
/// apart. It is neither `Clone` nor `Drop`.
pub struct Heard<G> {
    /// The processor's number.
    pub number: u32,
    gate: PhantomData<G>,
}

impl<G> Heard<G> {
    /// Spends it, before the wait that it allows.
    pub fn spend(self) {
        let Heard { number: _, gate: _ } = self;
    }
}

/// A gate, with the calls that start and join threads and tell of arrivals. Any function can make one with a gate of its own:
/// only the type G says which gate that is.
#[derive(Drop)]
pub struct Crew<G> {
    gate: G,
}

impl<G: Gate> Crew<G> {
    /// The one with this gate.
    pub fn of(gate: G) -> Crew<G> {
        Crew { gate }
    }

    /// Tells its gate that processor k has arrived. No clause says it.
    pub fn tell(&self, k: u32) -> Heard<G>
        ensures { result.number ≡ k }
    {
        self.gate.arrived(k);
        Heard {
            number: k,
            gate: PhantomData,
        }
    }

    /// Asks its gate about processor k, and starts the thread that is promised if the gate lets it. No clause says that the gate is
    /// asked.
    ///
    /// # Errors
    ///
    /// The gate says no, or the system starts no thread. The work comes back.
    pub fn start<
        's,
        E,
        P: Promise<T> + OfProcessor + Drop,
        F: FnOnce() -> T + Send + 's,
        T: Send + Drop + 's,
    >(
        &self,
        scope: &Scope<'s, E>,
        k: u32,
        promise: P,
        work: F,
    ) -> Result<Started<T, P, G>, Unstarted<F>>
        requires runs { F.pre work }
        requires keeps { (r : T) → F.post work r → P.kept_by promise r }
        requires number { k ≡ P.number promise }
        ensures promised { IfOk result (λ s. s.promise.value ≡ promise) }
        ensures refused { IfErr result (λ e. e.was.value ≡ work) }
    {
        let was = Snapshot::of(&work);
        let work = if self.gate.may_start(k) {
            let promised = Snapshot::of(&promise);
            match scope.spawn_with(promise, work) {
                Ok(handle) => {
                    return Ok(Started {
                        handle,
                        gate: PhantomData,
                        promise: promised,
                    });
                }
                Err(failed) => failed.value,
            }
        } else {
            work
        };
        Err(Unstarted { work, was })
    }

    /// Waits for the end of a thread that a crew with such a gate has started.
    pub fn join<R: Threads, T, P: Promise<T>>(&self, rt: &R, child: Started<T, P, G>) -> T
        ensures { P.kept_by child.promise.value result }
    {
        let Started {
            handle,
            gate: _,
            promise: _,
        } = child;
        handle.join(rt)
    }
}
