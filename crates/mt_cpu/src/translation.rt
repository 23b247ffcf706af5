ghost use Rattle.std.specs.Prelude.{◌≡◌, ◌/◌, ◌<◌, ◌^◌, ◌↔◌, IsNone, IfNone, IfSome, None};
ghost use Rattle.std.specs.Option.{option_map, option_map_or};
ghost use Rattle.mt_kinds.specs.Sizes.{page_bytes};
ghost use Rattle.mt_regs.specs.RegisterFile.{page_count};
ghost use Rattle.mt_tlb.specs.Entries.{add_entry, find_entry, find_mapping};
ghost use Rattle.mt_machine.specs.Access.{keep_entry, physical};
ghost use Rattle.mt_cpu.specs.Kinds.{entry_by, new_entry_by};
ghost use Rattle.mt_cpu.specs.State.{processor_of};

use crate::cpu::Cpu;
use crate::state::State;
use mt_kinds::{MemType, PAGE_BYTES, PageKinds, Pat, effective};
use mt_machine::Phase;
use mt_tlb::{Entry, Mapping};

impl State {
    // The entry that a mapping makes.
    fn new_entry<P: PageKinds>(&self, m: &Mapping, kinds: &P) -> Entry
        requires index { m.now.index < 8 }
        requires page { m.now.ppage < P.page_count kinds.now }
        ensures { result ≡ new_entry_by (P.type_at kinds.now) (processor_of self.now) m.now }
    {
        Entry {
            vpage: m.vpage,
            ppage: m.ppage,
            kind: effective(kinds.kind(m.ppage), Pat(self.regs.pat).entry(m.index)),
            global: m.global && self.pge,
            era: self.era,
        }
    }
}

impl Cpu {
    // Fills the entry that the mapping of a page makes, where the page has a mapping.
    fn fill<P: PageKinds>(&mut self, vpage: u64, kinds: &P) -> Option<Entry>
        requires running { self.old.phase ≡ Phase.Running }
        requires pages { P.page_count kinds.now ≡ page_count self.old.file }
        requires absent { find_entry vpage self.old.entries ≡ None }
        ensures entry { result ≡ option_map (new_entry_by (P.type_at kinds.now) self.old) (find_mapping vpage self.old.mappings) }
        ensures filled { IfSome result (λ e. self.new ≡ record self.old { entries = add_entry e self.old.entries }) }
        ensures kept { IfNone result (self.new ≡ self.old) }
        ensures physical { IfSome result (λ e. e.ppage < page_count self.old.file) }
    {
        let state = &mut *self.state;
        let i = state.maps.find(vpage)?;
        let mapping = state.maps.list()[i];
        let entry = state.new_entry(&mapping, kinds);
        state.tlb.fill(entry);
        Some(entry)
    }

    // The entry of a page: the one that stands, or else the one that its mapping makes, which is filled.
    fn entry<P: PageKinds>(&mut self, vpage: u64, kinds: &P) -> Option<Entry>
        requires running { self.old.phase ≡ Phase.Running }
        requires pages { P.page_count kinds.now ≡ page_count self.old.file }
        ensures entry { result ≡ entry_by (P.type_at kinds.now) self.old vpage }
        ensures after { self.new ≡ option_map_or (λ e. keep_entry e self.old) (entry_by (P.type_at kinds.now) self.old vpage) self.old }
        ensures unmapped { IsNone result ↔ (find_mapping vpage self.old.mappings ≡ None) }
        ensures physical { IfSome result (λ e. e.ppage < page_count self.old.file) }
    {
        let tlb = &mut self.state.tlb;
        if let Some(i) = tlb.find(vpage) {
            return Some(tlb.entries()[i]);
        }
        self.fill(vpage, kinds)
    }

    /// The physical address and the memory type of a virtual address, by the TLB entry of its page. If there is no entry, the
    /// page's mapping fills one. The entry's type is the effective type of the mapping's PAT entry and of the physical page's
    /// type in the table. Returns `None` if and only if the page has no mapping; nothing then changes.
    pub fn translate<P: PageKinds>(&mut self, va: u64, kinds: &P) -> Option<(u64, MemType)>
        requires running { self.old.phase ≡ Phase.Running }
        requires pages { P.page_count kinds.now ≡ page_count self.old.file }
        ensures value { result ≡ option_map (λ e. (physical e va, e.kind)) (entry_by (P.type_at kinds.now) self.old (va / page_bytes)) }
        ensures after { self.new ≡ option_map_or (λ e. keep_entry e self.old) (entry_by (P.type_at kinds.now) self.old (va / page_bytes)) self.old }
        ensures unmapped { IsNone result ↔ (find_mapping (va / page_bytes) self.old.mappings ≡ None) }
    {
        let pages = self.state.regs.pages();
        let entry = self.entry(va / PAGE_BYTES, kinds)?;
        prove!(entry.ppage < pages);
        Some((PAGE_BYTES * entry.ppage + va % PAGE_BYTES, entry.kind))
    }
}
