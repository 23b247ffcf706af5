// A processor on its own thread, with its pass: its accesses, and its events of one update.
ghost use Rattle.std.specs.Prelude.{◌≡◌, ◌<◌, false, IsTrue, length};
ghost use Rattle.mt_machine.specs.declared.phase.Phase.{Phase as MachinePhase};
ghost use Rattle.mt_machine.specs.declared.phase.Phase.TheVariants.{Restored};
ghost use Rattle.mt_machine.specs.System.{System as MachineSystem};
ghost use Rattle.mt_cpu.specs.Steps.{is_local};
ghost use Rattle.mt_core.specs.Steps.{step_after};
ghost use Rattle.mt_private.specs.YardCalls.{AreIn, stored_in};

use crate::host::{CANCEL, Yard};
use crate::view::{YardTurn, YardView};
use atomic_table::Seat;
use mt_bus::System;
use mt_core::{Core, a_core_arises};
use mt_cpu::is_local;
use mt_machine::{Op, Phase};
use mt_regs::RegFile;

/// What a thread carries its processor in.
#[derive(Drop)]
pub struct YardPass {
    pub seat: Seat<Op, YardView>,
    pub number: u64,
    /// The own event word, as this pass last stored it.
    pub stored: u64,
    pub ghost few: { number < 65536 },
    pub ghost known: { stored ≡ stored_in seat.me },
    pub ghost no_root: { seat.me.0.root ≡ false },
}

/// A processor alone, with the words of its own pages, and its pass.
#[derive(Drop)]
pub struct Guest {
    pub own: System,
    pub pass: YardPass,
}

/// How an update ended for one processor.
#[derive(Clone, Copy, Debug, PartialEq, Eq)]
pub enum Visited {
    Complete,
    Cancelled,
}

// The phase of the one processor.
fn phase_of(core: &Core) -> Phase
    requires { length core.now.system.processors ≡ 1 }
    ensures { AreIn result core.now.system }
{
    core.system().cpus()[0].phase()
}

impl YardPass {
    ghost use Rattle.mt_private.specs.InYard.{HasArrivedAgain, HasLeft, HasNotTaken, HasPassed, IsTaken, IsBetween, done_of, goal_at};

    // Loads the first count. If it shows no cancel that is Take, and the result is true; else it is no event.
    pub(crate) fn take(&mut self, yard: &Yard, core: &mut Core, goal: &RegFile) -> bool
        requires ready { HasNotTaken yard.now self.old core.old }
        requires goal { goal.now ≡ goal_at yard.now }
        ensures number { self.new.number ≡ self.old.number }
        ensures done { done_of self.new ≡ done_of self.old }
        ensures taken { IsTrue result → IsTaken yard.now self.new core.new core.old.system }
        ensures left { result ≡ false → HasLeft yard.now self.new core.new core.old.system }
        ensures unchanged { result ≡ false → core.new ≡ core.old }
    {
        a_core_arises(core); // a fact for the proof
        let found = yard.table.shared.load::<YardTurn>(&mut self.seat, 0);
        if found >= CANCEL {
            return false;
        }
        let Ok(()) = core.call(goal) else {
            unreachable!()
        };
        core.step(0);
        true
    }

    // Does the processor's next event between the barriers. Its store of the own event word is that event.
    fn work(&mut self, yard: &Yard, core: &mut Core)
        requires between { (first : MachineSystem) × IsBetween yard.now self.old core.old first }
        requires local { (phase : MachinePhase) × AreIn phase core.old.system × IsTrue (is_local phase) }
        ensures number { self.new.number ≡ self.old.number }
        ensures done { done_of self.new ≡ done_of self.old }
        ensures between { (first : MachineSystem) → IsBetween yard.now self.old core.old first → IsBetween yard.now self.new core.new first }
        ensures after { core.new ≡ step_after core.old 0 }
    {
        let word = self.number as usize + 2;
        let next = self.stored.wrapping_add(1);
        yard.table
            .shared
            .store::<YardTurn>(&mut self.seat, word, next);
        self.stored = next;
        core.step(0);
    }

    // Does all events that are left to do between the barriers.
    fn work_all(&mut self, yard: &Yard, core: &mut Core)
        requires between { (first : MachineSystem) × IsBetween yard.now self.old core.old first }
        ensures number { self.new.number ≡ self.old.number }
        ensures done { done_of self.new ≡ done_of self.old }
        ensures between { (first : MachineSystem) → IsBetween yard.now self.old core.old first → IsBetween yard.now self.new core.new first }
        ensures restored { AreIn Restored core.new.system }
    {
        while is_local(phase_of(core)) {
            a_core_arises(core); // a fact for the proof
            self.work(yard, core);
        }
    }

    // Adds to the second count: the event ArriveAgain.
    fn arrive_again(&mut self, yard: &Yard, core: &mut Core)
        requires between { (first : MachineSystem) × IsBetween yard.now self.old core.old first }
        requires restored { AreIn Restored core.old.system }
        ensures number { self.new.number ≡ self.old.number }
        ensures done { done_of self.new ≡ done_of self.old }
        ensures arrived { (first : MachineSystem) → IsBetween yard.now self.old core.old first → HasArrivedAgain yard.now self.new core.new first }
    {
        yard.table
            .shared
            .fetch_add::<YardTurn>(&mut self.seat, 1, 1);
        core.step(0);
    }

    // Does all that lies between the two waits: the events between the barriers, and then ArriveAgain.
    pub(crate) fn change(&mut self, yard: &Yard, core: &mut Core)
        requires passed { (first : MachineSystem) × HasPassed yard.now self.old core.old first }
        ensures number { self.new.number ≡ self.old.number }
        ensures done { done_of self.new ≡ done_of self.old }
        ensures arrived { (first : MachineSystem) → HasPassed yard.now self.old core.old first → HasArrivedAgain yard.now self.new core.new first }
    {
        self.work_all(yard, core);
        self.arrive_again(yard, core);
    }
}
