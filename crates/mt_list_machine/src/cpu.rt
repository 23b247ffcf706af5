ghost use Rattle.std.specs.Prelude.{◌≡◌, ◌<◌, IfOk};
ghost use Rattle.std.specs.Option.{option_map};
ghost use Rattle.mt_tlb.specs.Entries.{find_mapping};
ghost use Rattle.mt_machine.specs.System.{start_processor};
ghost use Rattle.mt_machine.specs.Access.{entry_of, new_entry};

use crate::accesses::{find_entry, find_mapping};
use mt_cache::CacheLine;
use mt_kinds::{MemType, Pat, effective};
use mt_machine::Phase;
use mt_ports::NoMemory;
use mt_regs::RegFile;
use mt_tlb::{Entry, Mapping};
use std::alloc::Global;
use std::marker::Model;

/// A processor of the machine, as plain lists, so that it can be copied and compared.
#[derive(Drop)]
pub struct Cpu {
    pub regs: RegFile,
    pub cd: bool,
    pub pge: bool,
    pub had_pge: bool,
    pub maps: Vec<Mapping>,
    pub lines: Vec<CacheLine>,
    pub buffers: Vec<CacheLine>,
    pub entries: Vec<Entry>,
    pub phase: Phase,
    pub era: u64,
    pub self_snoop: bool,
}

impl Model for Cpu {
    ghost use Rattle.std.specs.Prelude.{◌≡◌, nat_lt, true};
    ghost use Rattle.std.specs.List.{list_all};
    ghost use Rattle.mt_machine.specs.System.{Processor};

    ghost Value = { Processor };

    ghost view = { λ c. record {
      file = c.regs;
      cache_disabled = c.cd;
      page_global = c.pge;
      remembered_global = c.had_pge;
      mappings = c.maps.items;
      lines = c.lines.items;
      buffers = c.buffers.items;
      entries = c.entries.items;
      phase = c.phase;
      era = c.era;
      self_snoop = c.self_snoop;
    } };

    ghost invariant = { λ c. list_all (λ m. nat_lt m.index 8) c.maps.items ≡ true };
}

impl Cpu {
    /// A processor that runs with these registers, and holds nothing.
    pub fn new(alloc: Global, regs: RegFile) -> Cpu
        ensures { result ≡ start_processor regs }
    {
        Cpu {
            regs,
            cd: false,
            pge: false,
            had_pge: false,
            maps: Vec::new(alloc),
            lines: Vec::new(alloc),
            buffers: Vec::new(alloc),
            entries: Vec::new(alloc),
            phase: Phase::Running,
            era: 0,
            self_snoop: false,
        }
    }

    /// An equal processor.
    pub fn copy(&self, alloc: Global) -> Result<Cpu, NoMemory>
        ensures { IfOk result (λ c. c ≡ self.now) }
    {
        let maps = copied(alloc, self.maps.as_slice())?;
        let lines = copied(alloc, self.lines.as_slice())?;
        let buffers = copied(alloc, self.buffers.as_slice())?;
        let entries = copied(alloc, self.entries.as_slice())?;
        Ok(Cpu {
            regs: self.regs.same(),
            cd: self.cd,
            pge: self.pge,
            had_pge: self.had_pge,
            maps,
            lines,
            buffers,
            entries,
            phase: self.phase,
            era: self.era,
            self_snoop: self.self_snoop,
        })
    }

    /// The lines of the cache, oldest first.
    pub fn lines(&self) -> &[CacheLine]
        ensures { result.now ≡ self.now.lines }
    {
        self.lines.as_slice()
    }

    /// The write-combining buffers, oldest first.
    pub fn buffers(&self) -> &[CacheLine]
        ensures { result.now ≡ self.now.buffers }
    {
        self.buffers.as_slice()
    }

    /// Whether CR0.CD is set.
    pub fn cd(&self) -> bool
        ensures { result ≡ self.now.cache_disabled }
    {
        self.cd
    }

    /// The entries of the TLB, oldest first.
    pub fn entries(&self) -> &[Entry]
        ensures { result.now ≡ self.now.entries }
    {
        self.entries.as_slice()
    }

    /// Where the processor stands in the manual's procedure.
    pub fn phase(&self) -> Phase
        ensures { result ≡ self.now.phase }
    {
        self.phase
    }

    /// The entry that the mapping of a page makes.
    pub fn made_entry(&self, vpage: u64) -> Option<Entry>
        ensures { result ≡ option_map (new_entry self.now) (find_mapping vpage self.now.mappings) }
    {
        match find_mapping(self.maps.as_slice(), vpage) {
            Some(mapping) => Some(self.new_entry(&mapping)),
            None => None,
        }
    }

    /// The entry of a page: the one that the TLB has, or else the one that the page's mapping makes.
    pub fn entry_of(&self, vpage: u64) -> Option<Entry>
        ensures { result ≡ entry_of self.now vpage }
    {
        match find_entry(self.entries(), vpage) {
            Some(entry) => Some(entry),
            None => self.made_entry(vpage),
        }
    }

    /// The mapping of a page.
    pub fn mapping_of(&self, vpage: u64) -> Option<Mapping>
        ensures { result ≡ find_mapping vpage self.now.mappings }
    {
        find_mapping(self.maps.as_slice(), vpage)
    }

    /// The entry that a mapping makes.
    pub fn new_entry(&self, m: &Mapping) -> Entry
        requires { m.now.index < 8 }
        ensures { result ≡ new_entry self.now m.now }
    {
        Entry {
            vpage: m.vpage,
            ppage: m.ppage,
            kind: effective(
                self.regs.page_type(m.ppage).defined(),
                Pat(self.regs.pat).entry(m.index),
            ),
            global: m.global && self.pge,
            era: self.era,
        }
    }
}

/// An equal list.
pub fn copied<T: Copy + Drop>(alloc: Global, items: &[T]) -> Result<Vec<T>, NoMemory>
    ensures { IfOk result (λ v. v.items ≡ items.now) }
{
    match Vec::from_slice(alloc, items) {
        Ok(copy) => Ok(copy),
        Err(_) => Err(NoMemory),
    }
}
