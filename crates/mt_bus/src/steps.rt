// What the events of an update do to a system.
ghost use Rattle.std.specs.Prelude.{◌≡◌, ◌<◌, ◌^◌, length, slice_get, IsTrue, Some};
ghost use Rattle.std.specs.List.{All};
ghost use Rattle.mt_regs.specs.RegisterFile.{RegisterFile};
ghost use Rattle.mt_regs.specs.Faults.{IsAccepted};
ghost use Rattle.mt_types.specs.Tables.{TypeTable};
ghost use Rattle.mt_cpu.specs.Steps.{is_shift};
ghost use Rattle.mt_machine.specs.System.{Processor, change};
ghost use Rattle.mt_machine.specs.Machine.{before_own, own_step, step};
ghost use Rattle.mt_bus.specs.Holders.{CoversOthers};
ghost use Rattle.mt_bus.specs.Steps.{IsBetween, IsDueAlone, IsReady, KeepsSystem, tables_after, with_word_of};

use crate::bus::Bus;
use crate::holders::Holders;
use crate::system::System;
use mt_machine::Event;
use mt_ram::Ram;
use mt_regs::RegFile;
use mt_types::KindTable;

// The word that a write-back writes to memory.
fn write_word_of(ram: &mut Ram, e: Event)
    ensures { ram.new ≡ with_word_of e ram.old }
{
    if let Event::WriteBack { address, value } = e {
        ram.write(address, value);
    }
}

// Puts the goal's types into a processor's place where its registers are the goal's.
fn renew_table(tables: &mut [KindTable], k: usize, e: Event, kinds: &KindTable)
    requires { k < length tables.old }
    ensures { tables.new ≡ tables_after e k kinds.now tables.old }
{
    if let Event::Enable = e {
        let table = &mut tables[k];
        table.put(kinds);
    }
}

// A cache that dropped its lines may have none.
fn forget_lines(holders: &mut Holders, k: usize, e: Event)
    ensures dropped { e ≡ Event.DropLines → CoversOthers k holders.new holders.old }
    ensures kept { (e ≡ Event.DropLines → ⊥) → holders.new ≡ holders.old }
{
    if let Event::DropLines = e {
        holders.remove_all(k);
    }
}

impl Bus {
    /// Does the event of a processor that is due between the barriers of an update to a goal, and returns which one it was.
    pub(crate) fn do_local(&mut self, k: usize, goal: &RegFile) -> Event
        requires processor { k < length self.old.processors }
        requires accepted { IsAccepted goal.now }
        requires between { (p : Processor) → slice_get self.old.processors k ≡ Some p → IsBetween goal.now p }
        requires numbers { (p : Processor) → slice_get self.old.processors k ≡ Some p → All (λ l. l.number < 2 ^ 46) p.lines }
        ensures event { IsDueAlone k self.old result }
        ensures step { self.new ≡ step goal.now result k self.old }
    {
        let cpu = &mut self.cpus[k];
        let e = cpu.local(goal);
        write_word_of(&mut self.ram, e);
        forget_lines(&mut self.holders, k, e);
        e
    }

    // Take is a fence: the buffers are emptied first. No other barrier event does anything before it.
    fn prepare(&mut self, k: usize, e: Event)
        requires processor { k < length self.old.processors }
        requires shift { (p : Processor) → slice_get self.old.processors k ≡ Some p → IsTrue (is_shift e p.phase) }
        ensures { self.new ≡ before_own e k self.old }
    {
        match e {
            Event::Take => self.drain(k),
            _ => {}
        }
    }

    // Moves the phase of a processor.
    fn move_phase(&mut self, k: usize, e: Event)
        requires processor { k < length self.old.processors }
        requires ready { (p : Processor) → slice_get self.old.processors k ≡ Some p → IsReady e p }
        ensures { (goal : RegisterFile) → self.new ≡ change (own_step goal e) k self.old }
    {
        let cpu = &mut self.cpus[k];
        cpu.shift(e);
    }

    /// Does an event of the barriers: it moves the processor's phase. Take empties the buffers first.
    pub(crate) fn do_shift(&mut self, k: usize, e: Event)
        requires processor { k < length self.old.processors }
        requires shift { (p : Processor) → slice_get self.old.processors k ≡ Some p → IsTrue (is_shift e p.phase) }
        requires ready { (p : Processor) → slice_get (before_own e k self.old).processors k ≡ Some p → IsReady e p }
        ensures { (goal : RegisterFile) → self.new ≡ step goal e k self.old }
    {
        self.prepare(k, e);
        self.move_phase(k, e);
    }
}

impl System {
    /// Does the event of a processor that is due between the barriers of an update to a goal, with the goal's types, and
    /// returns which one it was.
    pub fn do_local(&mut self, k: u32, goal: &RegFile, kinds: &KindTable) -> Event
        requires processor { k < length self.old.processors }
        requires accepted { IsAccepted goal.now }
        requires between { (p : Processor) → slice_get self.old.processors k ≡ Some p → IsBetween goal.now p }
        requires keeps { (e : Event) → IsDueAlone k self.old e → KeepsSystem goal.now e k self.old kinds.now }
        ensures event { IsDueAlone k self.old result }
        ensures step { self.new ≡ step goal.now result k self.old }
    {
        let e = self.bus.do_local(k as usize, goal);
        renew_table(self.tables.as_mut_slice(), k as usize, e, kinds);
        e
    }

    /// Does an event of the barriers: it moves the processor's phase. Take empties the buffers first.
    pub fn do_shift(&mut self, k: u32, e: Event)
        requires processor { k < length self.old.processors }
        requires shift { (p : Processor) → slice_get self.old.processors k ≡ Some p → IsTrue (is_shift e p.phase) }
        requires ready { (p : Processor) → slice_get (before_own e k self.old).processors k ≡ Some p → IsReady e p }
        requires keeps { (goal : RegisterFile) × ((t : TypeTable) × KeepsSystem goal e k self.old t) }
        ensures { (goal : RegisterFile) → self.new ≡ step goal e k self.old }
    {
        self.bus.do_shift(k as usize, e);
    }
}
