ghost use Rattle.std.specs.Prelude.{◌≡◌, ◌<◌, ◌≤◌, ◌+◌, ◌*◌, ◌^◌, [], length, map, replicate, slice_get, IfOk, OnOk, OnErr, Some};
ghost use Rattle.std.specs.List.{All};
ghost use Rattle.mt_kinds.specs.Sizes.{most_lines};
ghost use Rattle.mt_cache.specs.Counts.{modulus};
ghost use Rattle.mt_regs.specs.Faults.{IsAccepted};
ghost use Rattle.mt_regs.specs.StartFiles.{AreStartFiles};
ghost use Rattle.mt_ram.specs.Windows.{refusal, refusal_in, window, with_window};
ghost use Rattle.mt_machine.specs.System.{IsSound, Processor, start_processor, with_self_snoop};
ghost use Rattle.mt_machine.specs.Start.{start_machine};
ghost use Rattle.mt_machine.specs.Machine.{FitsControl};
ghost use Rattle.mt_machine.specs.Control.{control};
ghost use Rattle.mt_machine.specs.Bus.{drain};
ghost use Rattle.mt_machine.specs.Access.{access};
ghost use Rattle.mt_laws.specs.Parts.{system};
ghost use Rattle.mt_bus.specs.Tables.{AreTablesOf};
ghost use Rattle.mt_bus.specs.Whole.{IsWhole};

use crate::bus::Bus;
use crate::holders::Holders;
use crate::system_parts::SystemParts;
use mt_cpu::Cpu;
use mt_machine::{Control, Done, Op, Ruled};
use mt_ports::NoMemory;
use mt_ram::{Ram, RamFault};
use mt_regs::RegFile;
use mt_types::KindTable;
use std::alloc::Global;
use std::marker::Model;

/// Processors over one memory. Caches and memory agree, and each cached or buffered line lies in a window. Each
/// processor translates by its own table of types. The table has the types of the processor's registers, except while
/// these are written. The tables, as the holders of the bus, are no part of the system's value.
#[derive(Drop)]
pub struct System {
    pub(crate) bus: Bus,
    pub(crate) tables: Vec<KindTable>,
}

impl Model for System {
    ghost use Rattle.mt_machine.specs.System.{System as MachineSystem, IsSound};
    ghost use Rattle.mt_bus.specs.Tables.{AreTablesOf};

    ghost Value = { MachineSystem };

    ghost view = { λ s. s.bus };

    ghost invariant = { λ s. IsSound s.bus × AreTablesOf s.bus.processors s.tables.items };
}

// A processor at the start for each file.
fn start_cpus(alloc: Global, files: &[RegFile]) -> Result<Vec<Cpu>, NoMemory>
    requires { All IsAccepted files.now }
    ensures { IfOk result (λ cpus. cpus.items ≡ map start_processor files.now) }
{
    let mut cpus = Vec::new(alloc);
    for file in files {
        let cpu = Cpu::new(alloc, file.same())?;
        if cpus.push(cpu).is_err() {
            return Err(NoMemory);
        }
    }
    Ok(cpus)
}

// A table of each file's types.
fn start_tables(alloc: Global, files: &[RegFile]) -> Result<Vec<KindTable>, NoMemory>
    requires { All IsAccepted files.now }
    ensures { IfOk result (λ tables. AreTablesOf (map start_processor files.now) tables.items) }
{
    let mut tables = Vec::new(alloc);
    for file in files {
        if tables.push(KindTable::of(file)).is_err() {
            return Err(NoMemory);
        }
    }
    Ok(tables)
}

// One cache needs no masks.
fn start_holders(alloc: Global, count: usize) -> Result<Holders, NoMemory>
    ensures one { count ≡ 1 → IfOk result (λ holders. holders ≡ []) }
    ensures more { (count ≡ 1 → ⊥) → IfOk result (λ holders. holders ≡ replicate modulus 0) }
{
    if count == 1 {
        Ok(Holders::unknown(alloc))
    } else {
        Holders::new(alloc)
    }
}

// A bus with a processor for each file, over memory without windows.
fn start_bus(alloc: Global, files: &[RegFile]) -> Result<Bus, NoMemory>
    requires { All IsAccepted files.now }
    ensures { IfOk result (λ bus. bus ≡ (start_machine files.now []).system) }
{
    let cpus = start_cpus(alloc, files)?;
    let holders = start_holders(alloc, files.len())?;
    let ram = Ram::new(alloc);
    Ok(Bus { cpus, ram, holders })
}

impl System {
    /// A processor for each file, which runs with it, over memory without windows. Fails only if an allocation fails.
    pub fn new(alloc: Global, files: &[RegFile]) -> Result<System, NoMemory>
        requires some { 0 < length files.now }
        requires few { length files.now ≤ 16 }
        requires start { AreStartFiles files.now }
        ensures { IfOk result (λ s. s ≡ (start_machine files.now []).system) }
    {
        let tables = start_tables(alloc, files)?;
        let bus = start_bus(alloc, files)?;
        Ok(System { bus, tables })
    }

    /// A system without processors and windows.
    pub fn empty(alloc: Global) -> System
        ensures { result ≡ system [] (record { windows = []; words = [] }) }
    {
        let bus = Bus {
            cpus: Vec::new(alloc),
            ram: Ram::new(alloc),
            holders: Holders::unknown(alloc),
        };
        System {
            bus,
            tables: Vec::new(alloc),
        }
    }

    /// Puts a system together. Requires that caches and memory agree, that the tables are those of the processors' registers,
    /// and that the holders have each cached line.
    pub fn from_parts(parts: SystemParts) -> System
        requires { IsWhole parts }
        ensures { result ≡ system parts.cpus.items parts.ram }
    {
        let SystemParts {
            cpus,
            ram,
            tables,
            holders,
        } = parts;
        let bus = Bus { cpus, ram, holders };
        System { bus, tables }
    }

    /// Takes the system apart.
    pub fn into_parts(self) -> SystemParts
        ensures whole { IsWhole result }
        ensures value { system result.cpus.items result.ram ≡ self }
    {
        let System { bus, tables } = self;
        let Bus { cpus, ram, holders } = bus;
        SystemParts {
            cpus,
            ram,
            tables,
            holders,
        }
    }

    /// The processors, by their numbers.
    pub fn cpus(&self) -> &[Cpu]
        ensures { result.now ≡ self.now.processors }
    {
        let bus = &self.bus;
        bus.cpus.as_slice()
    }

    /// The memory.
    pub fn ram(&self) -> &Ram
        ensures { result.now ≡ self.now.memory }
    {
        let bus = &self.bus;
        &bus.ram
    }

    /// Adds a window of zero words to the memory, from an address in bytes on.
    ///
    /// # Errors
    ///
    /// Those of `Ram::add`; nothing then changes.
    pub fn add_ram(&mut self, base: u64, lines: u32) -> Result<(), RamFault>
        requires some { 0 < lines }
        requires few { lines ≤ most_lines }
        requires end { base + 64 * lines ≤ 2 ^ 52 }
        ensures refused { refusal_in result ≡ refusal self.old.memory.windows (window base lines) }
        ensures added { OnOk result (self.new ≡ record self.old { memory = with_window (window base lines) self.old.memory }) }
        ensures kept { OnErr result (self.new ≡ self.old) }
    {
        let bus = &mut self.bus;
        bus.ram.add(base, lines)?;
        let _ = bus.ram.words(); // a fact for the proof
        Ok(())
    }

    /// Makes a processor a self-snooping one. No access, control instruction or event does so.
    pub fn self_snoop(&mut self, k: u32)
        requires { k < length self.old.processors }
        ensures { self.new ≡ with_self_snoop k self.old }
    {
        self.bus.set_self_snoop(k as usize);
    }

    /// One control instruction of a processor. A mapping that is set has an index below 8, a
    /// physical page of the processor and a virtual page below 2^36.
    pub fn control(&mut self, k: u32, c: Control) -> Ruled
        requires processor { k < length self.old.processors }
        requires fits { (p : Processor) → slice_get self.old.processors k ≡ Some p → FitsControl p c }
        ensures answer { result ≡ (control self.old k c).answer }
        ensures after { self.new ≡ (control self.old k c).after }
    {
        self.bus.control(k as usize, c)
    }

    /// One access of a processor, an address being in bytes.
    pub fn access(&mut self, k: u32, op: Op) -> Done
        requires { k < length self.old.processors }
        ensures answer { result ≡ (access self.old k op).answer }
        ensures after { self.new ≡ (access self.old k op).after }
    {
        let table = &self.tables.as_slice()[k as usize];
        self.bus.access(table, k as usize, op)
    }

    /// Empties the buffers of a processor, the oldest first, in any phase.
    pub fn drain(&mut self, k: u32)
        requires { k < length self.old.processors }
        ensures { self.new ≡ drain k self.old }
    {
        self.bus.drain(k as usize);
    }
}
