// Processors that come up and go.
ghost use Rattle.std.specs.Prelude.{◌≡◌, ◌<◌, ◌≤◌, ◌∷◌, ◌++◌, [], IfOk, OnErr, OnOk, Some, if◌then◌else◌, length, slice_get, true};
ghost use Rattle.std.specs.List.{All, fold};
ghost use Rattle.std.specs.Option.{option_map};
ghost use Rattle.mt_regs.specs.Faults.{IsAccepted};
ghost use Rattle.mt_machine.specs.Memory.{write_back};
ghost use Rattle.mt_machine.specs.Access.{is_running};
ghost use Rattle.mt_machine.specs.Bus.{drain};
ghost use Rattle.mt_machine.specs.Machine.{FitsGoal, common_era};
ghost use Rattle.mt_machine.specs.ComingAndGoing.{gone, last_number, newcomer_beside, reset, taken_away};
ghost use Rattle.mt_laws.specs.Parts.{system};

use crate::bus::Bus;
use crate::system::System;
use crate::words::write_back;
use mt_cache::Cache;
use mt_cpu::Cpu;
use mt_ports::NoMemory;
use mt_ram::Ram;
use mt_types::KindTable;
use std::alloc::Global;

// The dirty words of a cache's lines go to memory, the oldest line first.
fn write_lines(cache: &Cache, ram: &mut Ram)
    ensures { ram.new ≡ fold write_back ram.old cache.now }
{
    for i in 0..cache.len() {
        write_back(ram, cache.nth(i));
    }
}

// A processor as it comes up beside these.
fn newcomer(alloc: Global, cpus: &[Cpu]) -> Result<Cpu, NoMemory>
    requires { 0 < length cpus.now }
    ensures value { IfOk result (λ cpu. option_map newcomer_beside (slice_get cpus.now 0) ≡ Some cpu) }
    ensures accepted { IfOk result (λ cpu. IsAccepted cpu.file) }
{
    let first = &cpus[0];
    let regs = first.regs();
    regs.is_register_file(); // a fact for the proof
    Cpu::come_up(alloc, regs.maxphy, regs.cap, first.era())
}

impl Bus {
    // Adds a processor without lines. Returns whether there was memory for it.
    fn add(&mut self, cpu: Cpu) -> bool
        requires { cpu.lines ≡ [] }
        ensures { self.new ≡ (if result then system (self.old.processors ++ cpu ∷ []) self.old.memory else self.old) }
    {
        if self.cpus.push(cpu).is_err() {
            return false;
        }
        true
    }

    // Takes the last processor away, once memory has what it holds.
    fn take_away(&mut self, k: usize)
        requires { k < length self.old.processors }
        ensures { self.new ≡ taken_away k (drain k self.old) }
    {
        self.drain(k);
        write_lines(self.cpus[k].cache(), &mut self.ram);
        self.cpus.truncate(k);
    }
}

// Adds a processor and its table. Where there is no memory for one of them neither is added.
fn add(bus: &mut Bus, tables: &mut Vec<KindTable>, cpu: Cpu, table: KindTable) -> bool
    requires { cpu.lines ≡ [] }
    ensures bus { bus.new ≡ (if result then system (bus.old.processors ++ cpu ∷ []) bus.old.memory else bus.old) }
    ensures tables { tables.new.items ≡ (if result then tables.old.items ++ table ∷ [] else tables.old.items) }
{
    let count = tables.len();
    if tables.push(table).is_err() {
        return false;
    }
    if !bus.add(cpu) {
        tables.truncate(count);
        return false;
    }
    true
}

impl System {
    /// Brings one processor up, behind the others, with their width, capabilities and era. Its registers are blank, its
    /// cache is in no-fill mode, and it runs and holds nothing. Returns its number.
    ///
    /// # Errors
    ///
    /// Fails if an allocation fails; nothing then changes.
    pub fn come_up(&mut self) -> Result<u32, NoMemory>
        requires some { 0 < length self.old.processors }
        requires few { length self.old.processors ≤ 15 }
        requires one_era { All (λ p. p.era ≡ common_era self.old.processors) self.old.processors }
        requires one_kind { All (λ p. All (FitsGoal p.file) self.old.processors) self.old.processors }
        ensures number { IfOk result (λ k. k ≡ length self.old.processors) }
        ensures come { OnOk result (self.new ≡ reset self.old) }
        ensures kept { OnErr result (self.new ≡ self.old) }
    {
        let k = self.cpus().len() as u32;
        let alloc = *self.tables.allocator();
        let cpu = newcomer(alloc, self.cpus())?;
        let table = KindTable::of(cpu.regs());
        if add(&mut self.bus, &mut self.tables, cpu, table) {
            Ok(k)
        } else {
            Err(NoMemory)
        }
    }

    /// Takes the last processor away. Its buffers are emptied, the oldest first, and its dirty words are written to
    /// memory. Returns its number.
    pub fn go_down(&mut self) -> u32
        requires more { 1 < length self.old.processors }
        requires few { length self.old.processors ≤ 16 }
        requires running { All (λ p. is_running p.phase ≡ true) self.old.processors }
        ensures number { result ≡ last_number self.old }
        ensures gone { self.new ≡ gone self.old }
    {
        let k = self.cpus().len() - 1;
        self.bus.take_away(k);
        self.tables.truncate(k);
        k as u32
    }
}
