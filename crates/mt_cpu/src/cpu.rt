ghost use Rattle.std.specs.Prelude.{◌≡◌, ◌<◌, ◌^◌, is_err, IfOk, OnOk, OnErr, true};
ghost use Rattle.std.specs.Borrow.{Lends, sem};
ghost use Rattle.mt_regs.specs.RegisterFile.{page_count};
ghost use Rattle.mt_regs.specs.Faults.{IsAccepted};
ghost use Rattle.mt_cache.specs.contracts.buffers.Buffers.{the_row as buffers_row};
ghost use Rattle.mt_cache.specs.contracts.cache.Cache.{the_row as cache_row};
ghost use Rattle.mt_tlb.specs.Entries.{is_full_for, set_mapping};
ghost use Rattle.mt_machine.specs.System.{Processor, start_processor};
ghost use Rattle.mt_machine.specs.Control.{drop_page, reload_cr3, set_page_global};
ghost use Rattle.mt_cpu.specs.contracts.cpu.Cpu.{the_row};
ghost use Rattle.mt_cpu.specs.Facts.{KeepsFacts};

use crate::state::State;
use mt_cache::{Buffers, Cache};
use mt_machine::Phase;
use mt_ports::NoMemory;
use mt_regs::RegFile;
use mt_tlb::{Full, Mapping, Maps, Tlb};
use std::alloc::Global;
use std::marker::Model;

/// A processor. With PGE clear none of its TLB entries is global, and the page of each has a mapping.
///
/// Its state has a block of its own, so a processor moves as a pointer.
#[derive(Drop)]
pub struct Cpu {
    pub(crate) state: Box<State>,
}

impl Model for Cpu {
    ghost use Rattle.mt_machine.specs.System.{Processor};
    ghost use Rattle.mt_cpu.specs.Facts.{KeepsFacts};
    ghost use Rattle.mt_cpu.specs.State.{processor_of};

    ghost Value = { Processor };

    ghost view = { λ c. processor_of c.state.value };

    ghost invariant = { λ c. KeepsFacts (processor_of c.state.value) };
}

impl Cpu {
    /// A processor that runs with these registers, its caches on, and holds nothing.
    ///
    /// # Errors
    ///
    /// Fails if an allocation fails.
    pub fn new(alloc: Global, regs: RegFile) -> Result<Cpu, NoMemory>
        requires { IsAccepted regs }
        ensures { IfOk result (λ cpu. cpu ≡ start_processor regs) }
    {
        let state = State {
            regs,
            cd: false,
            pge: false,
            had_pge: false,
            maps: Maps::new(),
            cache: Cache::new(),
            buffers: Buffers::new(),
            tlb: Tlb::new(),
            phase: Phase::Running,
            era: 0,
            self_snoop: false,
        };
        match Box::new(alloc, state) {
            Ok(state) => Ok(Cpu { state }),
            Err(_) => Err(NoMemory),
        }
    }

    /// The range registers.
    pub fn regs(&self) -> &RegFile
        ensures { result.now ≡ self.now.file }
    {
        &self.state.regs
    }

    /// Whether the caches are in no-fill mode, which is CR0.CD.
    pub fn cd(&self) -> bool
        ensures { result ≡ self.now.cache_disabled }
    {
        self.state.cd
    }

    /// Whether global pages are on, which is CR4.PGE.
    pub fn pge(&self) -> bool
        ensures { result ≡ self.now.page_global }
    {
        self.state.pge
    }

    /// Whether global pages were on when an update flushed the TLB.
    pub fn had_pge(&self) -> bool
        ensures { result ≡ self.now.remembered_global }
    {
        self.state.had_pge
    }

    /// The cache.
    pub fn cache(&self) -> &Cache
        ensures { result.now ≡ self.now.lines }
    {
        &self.state.cache
    }

    /// The write-combining buffers.
    pub fn buffers(&self) -> &Buffers
        ensures { result.now ≡ self.now.buffers }
    {
        &self.state.buffers
    }

    /// The TLB.
    pub fn tlb(&self) -> &Tlb
        ensures { result.now ≡ self.now.entries }
    {
        &self.state.tlb
    }

    /// The mappings of virtual pages.
    pub fn maps(&self) -> &Maps
        ensures { result.now ≡ self.now.mappings }
    {
        &self.state.maps
    }

    /// Where the processor stands in an update.
    pub fn phase(&self) -> Phase
        ensures { result ≡ self.now.phase }
    {
        self.state.phase
    }

    /// The number of updates that the processor has finished.
    pub fn era(&self) -> u64
        ensures { result ≡ self.now.era }
    {
        self.state.era
    }

    /// Whether the processor snoops its own cache, which is CPUID.1:EDX bit 27. It leaves out the first of an update's
    /// two cache flushes (Intel SDM, volume 3A, section "MTRR Considerations in MP Systems", step 5).
    pub fn self_snoop(&self) -> bool
        ensures { result ≡ self.now.self_snoop }
    {
        self.state.self_snoop
    }

    /// Makes the processor a self-snooping one; all else stays.
    pub fn set_self_snoop(&mut self)
        ensures { self.new ≡ record self.old { self_snoop = true } }
    {
        self.state.self_snoop = true;
    }

    /// Lends the cache for writing; all else stays.
    pub fn cache_mut(&mut self) -> &mut Cache
        ensures* writes_back { sem 𝓛 (Lends the_row cache_row self.entry result (λ ls. record self.old { lines = ls })) }
        ensures value { result.now ≡ self.old.lines }
    {
        &mut self.state.cache
    }

    /// Lends the write-combining buffers for writing; all else stays.
    pub fn buffers_mut(&mut self) -> &mut Buffers
        ensures* writes_back { sem 𝓛 (Lends the_row buffers_row self.entry result (λ bs. record self.old { buffers = bs })) }
        ensures value { result.now ≡ self.old.buffers }
    {
        &mut self.state.buffers
    }

    /// Sets the mapping of a page, and leaves the TLB alone. Fails if the page has no mapping and 64
    /// others have one; nothing then changes.
    pub fn map(&mut self, x: Mapping) -> Result<(), Full>
        requires index { x.index < 8 }
        requires page { x.ppage < page_count self.old.file }
        requires address { x.vpage < 2 ^ 36 }
        ensures full { is_err result ≡ is_full_for x self.old.mappings }
        ensures done { OnOk result (self.new ≡ record self.old { mappings = set_mapping x self.old.mappings }) }
        ensures kept { OnErr result (self.new ≡ self.old) }
    {
        self.state.maps.set(x)
    }

    /// Drops the TLB entry of a page.
    pub fn invlpg(&mut self, vpage: u64)
        ensures { self.new ≡ drop_page vpage self.old }
    {
        self.state.tlb.drop_page(vpage);
    }

    /// Drops the TLB entries that are not global.
    pub fn reload_cr3(&mut self)
        ensures { self.new ≡ reload_cr3 self.old }
    {
        self.state.tlb.drop_local();
    }

    /// Sets PGE. A change drops all TLB entries; setting it to what it is changes nothing.
    pub fn set_pge(&mut self, on: bool)
        ensures { self.new ≡ set_page_global on self.old }
    {
        if on != self.state.pge {
            self.state.pge = on;
            self.state.tlb.drop_all();
        }
    }

    /// Sets CD.
    pub fn set_cd(&mut self, on: bool)
        ensures { self.new ≡ record self.old { cache_disabled = on } }
    {
        self.state.cd = on;
    }
}
