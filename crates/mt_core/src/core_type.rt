ghost use Rattle.std.specs.Prelude.{◌≡◌, ◌≢◌, ◌<◌, ◌≤◌, ◌+◌, ◌*◌, ◌^◌, ◌↔◌, [], true, false, IfOk, IsTrue, IsSome, Err, length, slice_get, MatchOption, OnOk, OnErr, None, Some};
ghost use Rattle.std.specs.List.{All};
ghost use Rattle.mt_kinds.specs.Sizes.{most_lines};
ghost use Rattle.mt_ram.specs.Windows.{refusal, refusal_in, window};
ghost use Rattle.mt_machine.specs.Access.{access, is_running};
ghost use Rattle.mt_machine.specs.Control.{control};
ghost use Rattle.mt_machine.specs.System.{Processor};
ghost use Rattle.mt_regs.specs.declared.fault.Fault.{Fault};
ghost use Rattle.mt_regs.specs.Faults.{IsAccepted, IsFirstFault};
ghost use Rattle.mt_regs.specs.StartFiles.{AreStartFiles};
ghost use Rattle.mt_machine.specs.Start.{HasEraRoom, start_machine};
ghost use Rattle.mt_machine.specs.Machine.{BarrierCount, Calls, Cancels, FitsControl, FitsGoal, FitsOp, Goes, Order as MachineOrder, common_era, go_of, is_over, next, with_go};
ghost use Rattle.mt_machine.specs.Update.{IsSettled};
ghost use Rattle.mt_machine.specs.declared.event.Event.TheVariants.{Release};
ghost use Rattle.mt_core.specs.declared.stepped.Stepped.TheVariants.{Did, NoUpdate, Waits};
ghost use Rattle.mt_laws.specs.Parts.{system};
ghost use Rattle.mt_core.specs.Arises.{IsCore, grown, snooped};
ghost use Rattle.mt_core.specs.Headline.{WaitsIn};
ghost use Rattle.mt_core.specs.Rounds.{IsWholeUpdate, Rounds, each_steps, with_go_given};
ghost use Rattle.mt_core.specs.Steps.{pause_at, step_after, step_answer, under_way};
ghost use Rattle.mt_core.specs.Stops.{is_outside};

use crate::barriers::{is_over, is_pending};
use crate::fault::CallFault;
use crate::order::Order;
use crate::stepped::Stepped;
use crate::steps::{do_due_event, pause};
use mt_bus::{System, a_system_is_sound};
use mt_machine::{Control, Done, Go, Op, Ruled};
use mt_ports::NoMemory;
use mt_ram::RamFault;
use mt_regs::RegFile;
use mt_types::KindTable;
use std::alloc::Global;
use std::marker::Model;
use std::mem;

/// Processors over one memory with the update that is under way, if there is one.
#[derive(Drop)]
pub struct Core {
    pub(crate) system: System,
    pub(crate) order: Option<Order>,
}

impl Model for Core {
    ghost use Rattle.mt_machine.specs.Machine.{Machine};
    ghost use Rattle.mt_core.specs.Arises.{IsCore};

    ghost Value = { Machine };

    ghost view = { λ c. record { system = c.system; order = c.order } };

    ghost invariant = { λ c. IsCore (record { system = c.system; order = c.order }) };
}

// The era of the first processor.
fn common_era(system: &System) -> u64
    requires { 0 < length system.now.processors }
    ensures { result ≡ common_era system.now.processors }
{
    system.cpus()[0].era()
}

fn is_over_in(system: &System, order: &Order) -> bool
    ensures { result ≡ is_over order.now system.now.processors }
{
    is_over(system.cpus(), order)
}

fn pause_in(system: &System, order: &Order, k: u32) -> Stepped
    requires processor { k < length system.now.processors }
    requires few { length system.now.processors ≤ 16 }
    ensures { result ≡ pause_at (under_way order.now system.now) k }
{
    pause(system.cpus(), order, k as usize)
}

impl Core {
    /// A core over processors that all run, with one era, one width and one value of the
    /// capabilities. No update is under way.
    pub fn new(system: System) -> Core
        requires few { length system.processors ≤ 16 }
        requires running { All (λ p. is_running p.phase ≡ true) system.processors }
        requires one_era { All (λ p. p.era ≡ common_era system.processors) system.processors }
        requires one_kind { All (λ p. All (FitsGoal p.file) system.processors) system.processors }
        ensures { result ≡ record { system = system; order = None } }
    {
        a_system_is_sound(&system); // a fact for the proof
        Core {
            system,
            order: None,
        }
    }

    /// A processor for each file, which runs with it, over memory without windows. Fails only if an allocation fails.
    pub fn start(alloc: Global, files: &[RegFile]) -> Result<Core, NoMemory>
        requires some { 0 < length files.now }
        requires few { length files.now ≤ 16 }
        requires start { AreStartFiles files.now }
        ensures { IfOk result (λ core. core ≡ start_machine files.now []) }
    {
        let system = System::new(alloc, files)?;
        Ok(Core::new(system))
    }

    /// The processors and the memory.
    pub fn system(&self) -> &System
        ensures { result.now ≡ self.now.system }
    {
        &self.system
    }

    /// The update under way, if there is one.
    pub fn order(&self) -> Option<&Order>
        ensures { MatchOption result (self.now.order ≡ None) (λ order. self.now.order ≡ Some order.now) }
    {
        self.order.as_ref()
    }

    /// Returns the processors and the memory, and drops the update under way, if there is one.
    pub fn into_system(self) -> System
        ensures { result ≡ self.system }
    {
        self.system
    }

    /// Takes the processors and the memory out of a borrowed core, which then has no processors and no windows.
    pub fn take_system(&mut self, alloc: Global) -> System
        ensures taken { result ≡ self.old.system }
        ensures left { self.new ≡ record { system = system [] (record { windows = []; words = [] }); order = None } }
    {
        mem::replace(self, Core::new(System::empty(alloc))).into_system()
    }

    /// One access of a processor, an address being in bytes. The order stays.
    pub fn access(&mut self, k: u32, op: Op) -> Done
        requires processor { k < length self.old.system.processors }
        requires fits { FitsOp op }
        ensures answer { result ≡ (access self.old.system k op).answer }
        ensures after { self.new ≡ record self.old { system = (access self.old.system k op).after } }
    {
        self.system.access(k, op)
    }

    /// One control instruction of a processor. A mapping that is set has an index below 8, a
    /// physical page of the processor and a virtual page below 2^36. The order stays.
    pub fn control(&mut self, k: u32, c: Control) -> Ruled
        requires processor { k < length self.old.system.processors }
        requires fits { (p : Processor) → slice_get self.old.system.processors k ≡ Some p → FitsControl p c }
        ensures answer { result ≡ (control self.old.system k c).answer }
        ensures after { self.new ≡ record self.old { system = (control self.old.system k c).after } }
    {
        self.system.control(k, c)
    }

    /// Makes a processor a self-snooping one, which leaves out the first flush of the caches in an update. All else
    /// stays. No event takes it back.
    pub fn self_snoop(&mut self, k: u32)
        requires processor { k < length self.old.system.processors }
        requires idle { self.old.order ≡ None }
        ensures { self.new ≡ snooped k self.old }
    {
        self.system.self_snoop(k);
    }

    /// Gives the go. Returns false, and changes nothing, if no update is under way or its go isn't pending.
    pub fn go(&mut self) -> bool
        ensures given { IsTrue result ↔ (go_of self.old ≡ Some Go.Pending) }
        ensures after { IsTrue result → self.new ≡ next self.old Goes }
        ensures kept { result ≡ false → self.new ≡ self.old }
    {
        self.decide(Go::Given)
    }

    /// Gives the update up. Returns false, and changes nothing, if no update is under way or its go isn't pending.
    pub fn cancel(&mut self) -> bool
        ensures given { IsTrue result ↔ (go_of self.old ≡ Some Go.Pending) }
        ensures after { IsTrue result → self.new ≡ next self.old Cancels }
        ensures kept { result ≡ false → self.new ≡ self.old }
    {
        self.decide(Go::Cancelled)
    }

    // The coordinator's word, which an update awaits whose go is pending.
    fn decide(&mut self, go: Go) -> bool
        requires { go ≢ Go.Pending }
        ensures given { IsTrue result ↔ (go_of self.old ≡ Some Go.Pending) }
        ensures after { IsTrue result → self.new ≡ with_go go self.old }
        ensures kept { result ≡ false → self.new ≡ self.old }
    {
        let Some(order) = &mut self.order else {
            return false;
        };
        if !is_pending(order.go) {
            return false;
        }
        order.go = go;
        if is_over_in(&self.system, order) {
            self.order = None;
        }
        true
    }

    /// Begins an update to these registers, which have the processors' width and capabilities.
    ///
    /// # Errors
    ///
    /// An update is under way, or else the goal has a fault. Nothing then changes.
    pub fn call(&mut self, goal: &RegFile) -> Result<(), CallFault>
        requires some { 0 < length self.old.system.processors }
        requires fits { All (FitsGoal goal.now) self.old.system.processors }
        requires room { HasEraRoom self.old }
        ensures under_way { (result ≡ Err CallFault.UnderWay) ↔ IsSome self.old.order }
        ensures refused { (fault : Fault) → result ≡ Err (CallFault.Refused fault) → (self.old.order ≡ None) × IsFirstFault goal.now (Some fault) }
        ensures called { OnOk result ((self.old.order ≡ None) × IsAccepted goal.now × (self.new ≡ next self.old (Calls goal.now))) }
        ensures kept { OnErr result (self.new ≡ self.old) }
    {
        if self.order.is_some() {
            return Err(CallFault::UnderWay);
        }
        if let Some(fault) = goal.first_fault() {
            return Err(CallFault::Refused(fault));
        }
        goal.is_register_file(); // a fact for the proof
        let kinds = KindTable::of(goal);
        let from_era = common_era(&self.system);
        self.order = Some(Order {
            goal: goal.same(),
            from_era,
            go: Go::Pending,
            kinds,
        });
        Ok(())
    }

    /// Does the event of a processor that is due. Nothing changes where none is due: the processor
    /// waits at a barrier that isn't full, or runs outside an update.
    pub fn step(&mut self, k: u32) -> Stepped
        requires { k < length self.old.system.processors }
        ensures answer { result ≡ step_answer self.old k }
        ensures after { self.new ≡ step_after self.old k }
        ensures settled { (o : MachineOrder) → result ≡ Did Release → self.old.order ≡ Some o → IsSettled self.new.system (o.from_era + 1) o.goal }
        ensures waits { (p : Processor) (c : BarrierCount) → slice_get self.old.system.processors k ≡ Some p → (result ≡ Waits c.arrived c.awaited) ↔ WaitsIn self.old p c }
        ensures stops { (p : Processor) → slice_get self.old.system.processors k ≡ Some p → (result ≡ NoUpdate) ↔ ((is_running p.phase ≡ true) × (is_outside self.old p ≡ true)) }
    {
        self.do_due(k)
    }

    // The step, by its answer and the state that it leaves.
    fn do_due(&mut self, k: u32) -> Stepped
        requires { k < length self.old.system.processors }
        ensures core { IsCore self.old }
        ensures answer { result ≡ step_answer self.old k }
        ensures after { self.new ≡ step_after self.old k }
        ensures settled { (o : MachineOrder) → result ≡ Did Release → self.old.order ≡ Some o → IsSettled self.new.system (o.from_era + 1) o.goal }
    {
        let Some(order) = &self.order else {
            return Stepped::NoUpdate;
        };
        let Some(event) = do_due_event(&mut self.system, order, k) else {
            return pause_in(&self.system, order, k);
        };
        if is_over_in(&self.system, order) {
            self.order = None;
        }
        Stepped::Did(event)
    }

    // Whether an update is under way.
    fn is_under_way(&self) -> bool
        ensures core { IsCore self.now }
        ensures value { IsTrue result ↔ IsSome self.now.order }
    {
        self.order.is_some()
    }

    // The number of processors.
    fn count(&self) -> u32
        ensures { result ≡ length self.now.system.processors }
    {
        self.system.cpus().len() as u32
    }

    // One turn: each processor in ascending order does its event that is due.
    fn turn(&mut self)
        ensures { self.new ≡ each_steps self.old }
    {
        for k in 0..self.count() {
            self.step(k);
        }
    }

    /// Leads the update that is under way to its end: gives the go where it is pending, and then
    /// steps the processors in turn, in ascending order, until no update is under way.
    pub fn round(&mut self)
        requires under_way { IsSome self.old.order }
        ensures turns { Rounds (with_go_given self.old) self.new }
        ensures ends { self.new.order ≡ None }
        ensures updated { IsWholeUpdate self.old self.new }
    {
        self.go();
        while self.is_under_way() {
            self.turn();
        }
    }

    /// Adds a window of zero words to the memory, from an address in bytes on. The order stays.
    ///
    /// # Errors
    ///
    /// Those of `Ram::add`; nothing then changes.
    pub fn add_ram(&mut self, base: u64, lines: u32) -> Result<(), RamFault>
        requires some { 0 < lines }
        requires few { lines ≤ most_lines }
        requires end { base + 64 * lines ≤ 2 ^ 52 }
        ensures refused { refusal_in result ≡ refusal self.old.system.memory.windows (window base lines) }
        ensures added { OnOk result (self.new ≡ grown (window base lines) self.old) }
        ensures kept { OnErr result (self.new ≡ self.old) }
    {
        self.system.add_ram(base, lines)?;
        a_system_is_sound(&self.system); // a fact for the proof
        Ok(())
    }
}
