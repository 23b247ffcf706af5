ghost use Rattle.std.specs.Prelude.{◌≡◌, ◌<◌, ◌/◌, ◌*◌, ◌+◌, ◌%◌, [], ◌∷◌, ◌++◌, length, IfOk, OnOk, Some, None, slice_get, is_some, not, ◌&&◌, if◌then◌else◌};
ghost use Rattle.std.specs.Option.{option_map_or};
ghost use Rattle.mt_kinds.specs.Sizes.{page_bytes};
ghost use Rattle.mt_cache.specs.Calls.{write_word};
ghost use Rattle.mt_cache.specs.Lines.{change_line};
ghost use Rattle.mt_tlb.specs.declared.entry.Entry.{Entry};
ghost use Rattle.mt_tlb.specs.Entries.{add_entry, find_entry, find_mapping};
ghost use Rattle.mt_machine.specs.Memory.{place, word_of};
ghost use Rattle.mt_machine.specs.System.{Processor, change};
ghost use Rattle.mt_machine.specs.Bus.{store_in_memory, with_lines};
ghost use Rattle.mt_machine.specs.Access.{Answered, access_at, cache_disabled_of, entry_of, first_of_load, first_of_store, hit_of, is_cached, keep_entry, load, load_after, physical, store, store_filling, store_hit, store_past, store_uncached, store_after};
ghost use Rattle.mt_laws.specs.Parts.{answered, entry_in};
ghost use Rattle.mt_list_machine.specs.Parts.{with_entry_in};
ghost use Rattle.mt_list_machine.specs.Calls.{IsAccess};

use crate::bus::Bus;
use crate::cpu::Cpu;
use crate::lines;
use crate::ram::{read, write};
use mt_cache::CacheLine;
use mt_kinds::{LINE_BYTES, MemType, PAGE_BYTES, WORD_BYTES};
use mt_machine::{Done, Op};
use mt_ports::NoMemory;
use mt_tlb::{Entry, Mapping};

const MOST_ENTRIES: usize = 64;

/// The pages below the end of the physical addresses.
const PHYSICAL_PAGES: u64 = 1 << 40;

/// The TLB entry of a page.
pub fn find_entry(entries: &[Entry], vpage: u64) -> Option<Entry>
    ensures { result ≡ find_entry vpage entries.now }
{
    for entry in entries {
        if entry.vpage == vpage {
            return Some(*entry);
        }
    }
    None
}

/// The mapping of a page.
pub(crate) fn find_mapping(maps: &[Mapping], vpage: u64) -> Option<Mapping>
    ensures { result ≡ find_mapping vpage maps.now }
{
    for mapping in maps {
        if mapping.vpage == vpage {
            return Some(*mapping);
        }
    }
    None
}

// Adds an entry. Of 64 the oldest is dropped first.
fn add_entry(entries: &mut Vec<Entry>, entry: Entry) -> Result<(), NoMemory>
    ensures { OnOk result (entries.new.items ≡ add_entry entry entries.old.items) }
{
    if entries.len() == MOST_ENTRIES {
        entries.remove(0);
    }
    match entries.push(entry) {
        Ok(()) => Ok(()),
        Err(_) => Err(NoMemory),
    }
}

// Adds an entry to a processor's TLB.
fn add_to(cpu: &mut Cpu, entry: Entry) -> Result<(), NoMemory>
    ensures { OnOk result (cpu.new ≡ record cpu.old { entries = add_entry entry cpu.old.entries }) }
{
    add_entry(&mut cpu.entries, entry)
}

// Fills the entry that a page's mapping makes, if the page has a mapping.
#[tactic(auto, using(crate::proofs::Translations::fills, crate::proofs::Translations::lacks))]
fn fill(cpu: &mut Cpu, vpage: u64) -> Result<Option<Entry>, NoMemory>
    requires { find_entry vpage cpu.old.entries ≡ None }
    ensures { IfOk result (λ e. (e ≡ entry_of cpu.old vpage) × (cpu.new ≡ option_map_or (λ e. keep_entry e cpu.old) (entry_of cpu.old vpage) cpu.old)) }
{
    match cpu.made_entry(vpage) {
        Some(entry) => match add_to(cpu, entry) {
            Ok(()) => Ok(Some(entry)),
            Err(NoMemory) => Err(NoMemory),
        },
        None => Ok(None),
    }
}

// The entry of a page, which is filled from the page's mapping if there is none.
fn translate(cpu: &mut Cpu, vpage: u64) -> Result<Option<Entry>, NoMemory>
    ensures { IfOk result (λ e. (e ≡ entry_of cpu.old vpage) × (cpu.new ≡ option_map_or (λ e. keep_entry e cpu.old) (entry_of cpu.old vpage) cpu.old)) }
{
    match find_entry(cpu.entries(), vpage) {
        Some(entry) => Ok(Some(entry)),
        None => fill(cpu, vpage),
    }
}

fn keep_translation(cpu: &mut Cpu, vpage: u64) -> Result<(), NoMemory>
    ensures { OnOk result (cpu.new ≡ option_map_or (λ e. keep_entry e cpu.old) (entry_of cpu.old vpage) cpu.old) }
{
    translate(cpu, vpage)?;
    Ok(())
}

/// Whether lines of this type are cached.
pub fn is_cached(kind: MemType) -> bool
    ensures { result ≡ is_cached kind }
{
    match kind {
        MemType::UC | MemType::WC => false,
        MemType::WT | MemType::WP | MemType::WB => true,
    }
}

fn word_of(address: u64) -> u8
    ensures word { result ≡ word_of address }
    ensures small { result < 8 }
{
    (address % LINE_BYTES / WORD_BYTES) as u8
}

fn write_in(cpu: &mut Cpu, number: u64, word: u8, v: u64, dirty: bool)
    requires { word < 8 }
    ensures { cpu.new ≡ with_lines (change_line number (write_word word v dirty)) cpu.old }
{
    lines::write_word(cpu.lines.as_mut_slice(), number, word, v, dirty);
}

impl Bus<'_> {
    fn is_cache_disabled(&self, k: usize) -> bool
        ensures { result ≡ cache_disabled_of self.now k }
    {
        match self.cpus.get(k) {
            Some(cpu) => cpu.cd(),
            None => true,
        }
    }

    fn first_of_load(&mut self, k: usize, kind: MemType, number: u64)
        ensures { self.new ≡ first_of_load kind k number self.old }
    {
        match kind {
            MemType::UC => self.drain(k),
            MemType::WC | MemType::WT | MemType::WP | MemType::WB => self.drain_line(k, number),
        }
    }

    fn hit(&self, k: usize, kind: MemType, number: u64) -> Option<CacheLine>
        ensures { result ≡ hit_of kind k number self.now }
    {
        if is_cached(kind) {
            lines::find_line(self.lines(k), number)
        } else {
            None
        }
    }

    // Whether a load of this type that misses fills a line.
    fn fills(&self, k: usize, kind: MemType) -> bool
        ensures { result ≡ (is_cached kind && not (cache_disabled_of self.now k)) }
    {
        is_cached(kind) && !self.is_cache_disabled(k)
    }

    // A load that hits no line.
    fn load_missed(&mut self, k: usize, kind: MemType, address: u64) -> Result<u64, NoMemory>
        requires { hit_of kind k (address / 64) self.old ≡ None }
        ensures { IfOk result (λ v. (v, self.new) ≡ load_after kind k address self.old) }
    {
        let is_filled = self.fills(k, kind);
        self.bus_read(address / LINE_BYTES);
        let v = read(self.layout, self.words.as_slice(), address);
        if is_filled {
            self.fill_line(k, address / LINE_BYTES)?;
        }
        Ok(v)
    }

    // A load once the buffers that it empties are empty.
    fn load_after(&mut self, k: usize, kind: MemType, address: u64) -> Result<u64, NoMemory>
        ensures { IfOk result (λ v. (v, self.new) ≡ load_after kind k address self.old) }
    {
        match self.hit(k, kind, address / LINE_BYTES) {
            Some(line) => Ok(line.words[word_of(address) as usize]),
            None => self.load_missed(k, kind, address),
        }
    }

    fn load(&mut self, k: usize, kind: MemType, address: u64) -> Result<u64, NoMemory>
        ensures { IfOk result (λ v. (v, self.new) ≡ load kind k address self.old) }
    {
        self.first_of_load(k, kind, address / LINE_BYTES);
        self.load_after(k, kind, address)
    }

    /// Writes the word at an address to memory.
    pub(crate) fn store_in_memory(&mut self, address: u64, v: u64)
        ensures { self.new ≡ store_in_memory address v self.old }
    {
        write(self.layout, self.words.as_mut_slice(), address, v);
    }

    fn write_own(&mut self, k: usize, address: u64, v: u64, dirty: bool)
        ensures { self.new ≡ change (with_lines (change_line (address / 64) (write_word (word_of address) v dirty))) k self.old }
    {
        if let Some(cpu) = self.cpus.get_mut(k) {
            write_in(cpu, address / LINE_BYTES, word_of(address), v, dirty);
        }
    }

    fn first_of_store(&mut self, k: usize, kind: MemType, number: u64)
        ensures { self.new ≡ first_of_store kind k number self.old }
    {
        match kind {
            MemType::UC => self.drain(k),
            MemType::WC => {}
            MemType::WT | MemType::WP | MemType::WB => self.drain_line(k, number),
        }
    }

    // A store that goes to memory past the own cache. No other cache keeps the line.
    fn store_past(&mut self, k: usize, address: u64, v: u64)
        ensures { self.new ≡ store_past k address v self.old }
    {
        let number = address / LINE_BYTES;
        self.bus_read(number);
        self.invalidate_others(k, number);
        self.store_in_memory(address, v);
    }

    // A store after which no cache keeps the line.
    fn store_uncached(&mut self, address: u64, v: u64)
        ensures { self.new ≡ store_uncached address v self.old }
    {
        let number = address / LINE_BYTES;
        self.bus_read(number);
        self.invalidate(number);
        self.store_in_memory(address, v);
    }

    // A store to write-back memory that hits a line.
    fn store_hit(&mut self, k: usize, address: u64, v: u64)
        requires { k < length self.old.processors }
        ensures { self.new ≡ store_hit k address v self.old }
    {
        let number = address / LINE_BYTES;
        self.write_back_others(k, number);
        self.invalidate_others(k, number);
        self.write_own(k, address, v, true);
    }

    fn store_filling(&mut self, k: usize, address: u64, v: u64) -> Result<(), NoMemory>
        ensures { OnOk result (self.new ≡ store_filling k address v self.old) }
    {
        let number = address / LINE_BYTES;
        self.bus_read(number);
        self.invalidate_others(k, number);
        self.fill_line(k, number)?;
        self.write_own(k, address, v, true);
        Ok(())
    }

    fn store_back(&mut self, k: usize, address: u64, v: u64) -> Result<(), NoMemory>
        ensures { OnOk result (self.new ≡ store_after MemType.WB k address v self.old) }
    {
        if lines::find_line(self.lines(k), address / LINE_BYTES).is_some() {
            self.store_hit(k, address, v);
            Ok(())
        } else if self.is_cache_disabled(k) {
            self.store_past(k, address, v);
            Ok(())
        } else {
            self.store_filling(k, address, v)
        }
    }

    // A store to write-through memory.
    fn store_through(&mut self, k: usize, address: u64, v: u64)
        ensures { self.new ≡ store_after MemType.WT k address v self.old }
    {
        self.store_past(k, address, v);
        self.write_own(k, address, v, false);
    }

    // A store once the buffers that it empties are empty.
    fn store_after(&mut self, k: usize, kind: MemType, address: u64, v: u64) -> Result<(), NoMemory>
        ensures { OnOk result (self.new ≡ store_after kind k address v self.old) }
    {
        match kind {
            MemType::UC | MemType::WP => self.store_uncached(address, v),
            MemType::WC => self.combine(k, address / LINE_BYTES, word_of(address), v)?,
            MemType::WT => self.store_through(k, address, v),
            MemType::WB => self.store_back(k, address, v)?,
        }
        Ok(())
    }

    fn store(&mut self, k: usize, kind: MemType, address: u64, v: u64) -> Result<(), NoMemory>
        ensures { OnOk result (self.new ≡ store kind k address v self.old) }
    {
        self.first_of_store(k, kind, address / LINE_BYTES);
        self.store_after(k, kind, address, v)
    }

    // The entry of an address's page in the TLB of a processor, which is filled if there is none.
    fn translate(&mut self, k: usize, va: u64) -> Result<Option<Entry>, NoMemory>
        ensures { IfOk result (λ e. (e ≡ entry_in k va self.old.processors) × (self.new ≡ with_entry_in e k self.old)) }
    {
        let Some(cpu) = self.cpus.get_mut(k) else {
            return Ok(None);
        };
        translate(cpu, va / PAGE_BYTES)
    }

    /// Translates a page: the entry of a page that is mapped is filled if there is none.
    pub fn keep_translation(&mut self, k: usize, vpage: u64) -> Result<(), NoMemory>
        ensures { OnOk result (self.new ≡ change (λ p. option_map_or (λ e. keep_entry e p) (entry_of p vpage) p) k self.old) }
    {
        match self.cpus.get_mut(k) {
            Some(cpu) => keep_translation(cpu, vpage),
            None => Ok(()),
        }
    }

    // The physical address of a virtual one by an entry, if memory has its word.
    fn physical(&self, entry: &Entry, va: u64) -> Option<u64>
        ensures { result ≡ (if is_some (place self.now.memory (physical entry.now va)) then Some (physical entry.now va) else None) }
    {
        if entry.ppage >= PHYSICAL_PAGES {
            let _ = self.layout.words(); // a fact for the proof
            return None;
        }
        let address = PAGE_BYTES * entry.ppage + va % PAGE_BYTES;
        if self.layout.place(address).is_some() {
            Some(address)
        } else {
            None
        }
    }

    fn load_at(&mut self, k: usize, va: u64) -> Result<Done, NoMemory>
        ensures { IfOk result (λ done. IsAccess self.old k (Op.Load va) done self.new) }
    {
        let Some(entry) = self.translate(k, va)? else {
            return Ok(Done::Unmapped);
        };
        let Some(address) = self.physical(&entry, va) else {
            return Ok(Done::NoRam);
        };
        let v = self.load(k, entry.kind, address)?;
        Ok(Done::Value(v, entry.kind))
    }

    fn store_at(&mut self, k: usize, va: u64, v: u64) -> Result<Done, NoMemory>
        ensures { IfOk result (λ done. IsAccess self.old k (Op.Store va v) done self.new) }
    {
        let Some(entry) = self.translate(k, va)? else {
            return Ok(Done::Unmapped);
        };
        let Some(address) = self.physical(&entry, va) else {
            return Ok(Done::NoRam);
        };
        self.store(k, entry.kind, address, v)?;
        Ok(Done::Stored(entry.kind))
    }

    /// One access of a processor, whatever its phase.
    pub fn access(&mut self, k: usize, op: Op) -> Result<Done, NoMemory>
        ensures { IfOk result (λ done. IsAccess self.old k op done self.new) }
    {
        match op {
            Op::Load(va) => self.load_at(k, va),
            Op::Store(va, v) => self.store_at(k, va, v),
            Op::Fence => {
                self.drain(k);
                Ok(Done::Fenced)
            }
        }
    }
}
