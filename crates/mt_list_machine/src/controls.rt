ghost use Rattle.std.specs.Prelude.{◌≡◌, ◌<◌, map, IfOk, OnOk, Some, nat_lt, true, slice_get, if◌then◌else◌};
ghost use Rattle.std.specs.List.{list_all};
ghost use Rattle.mt_tlb.specs.declared.mapping.Mapping.{Mapping};
ghost use Rattle.mt_tlb.specs.Entries.{global_entries, is_full_for, is_mapped, maps_page, set_mapping, without_page};
ghost use Rattle.mt_machine.specs.System.{Processor, change};
ghost use Rattle.mt_machine.specs.Control.{control_at, drop_page, reload_cr3, set_page_global};
ghost use Rattle.mt_laws.specs.Parts.{ruled};
ghost use Rattle.mt_list_machine.specs.Calls.{HasIndex, IsControl, IsMapped, after_map, answer_to_map};

use crate::bus::Bus;
use crate::cpu::Cpu;
use mt_kinds::PAGE_BYTES;
use mt_machine::{Control, Ruled};
use mt_ports::NoMemory;
use mt_tlb::{Entry, Mapping};

const MOST_MAPPINGS: usize = 64;

fn is_mapped(maps: &[Mapping], vpage: u64) -> bool
    ensures { result ≡ is_mapped vpage maps.now }
{
    for m in maps {
        if m.vpage == vpage {
            return true;
        }
    }
    false
}

// Puts a mapping in place of that of its page.
fn replace(maps: &mut [Mapping], x: Mapping)
    ensures { maps.new ≡ map (λ m. if maps_page x.vpage m then x else m) maps.old }
{
    for i in 0..maps.len() {
        if maps[i].vpage == x.vpage {
            maps[i] = x;
        }
    }
}

fn replace_in(maps: &mut Vec<Mapping>, x: Mapping)
    ensures { maps.new.items ≡ map (λ m. if maps_page x.vpage m then x else m) maps.old.items }
{
    replace(maps.as_mut_slice(), x);
}

fn put_mapping(maps: &mut Vec<Mapping>, x: Mapping) -> Result<Ruled, NoMemory>
    requires { x.index < 8 }
    ensures answer { IfOk result (λ ruled. ruled ≡ (if is_full_for x maps.old.items then Ruled.Full else Ruled.Okay)) }
    ensures after { OnOk result (maps.new.items ≡ (if is_full_for x maps.old.items then maps.old.items else set_mapping x maps.old.items)) }
    ensures kept { list_all (λ m. nat_lt m.index 8) maps.old.items ≡ true → list_all (λ m. nat_lt m.index 8) maps.new.items ≡ true }
{
    if is_mapped(maps.as_slice(), x.vpage) {
        replace_in(maps, x);
        return Ok(Ruled::Okay);
    }
    if maps.len() == MOST_MAPPINGS {
        return Ok(Ruled::Full);
    }
    match maps.push(x) {
        Ok(()) => Ok(Ruled::Okay),
        Err(_) => Err(NoMemory),
    }
}

/// Sets the mapping of a page.
pub fn map(cpu: &mut Cpu, x: Mapping) -> Result<Ruled, NoMemory>
    requires { x.index < 8 }
    ensures answer { IfOk result (λ ruled. ruled ≡ (if is_full_for x cpu.old.mappings then Ruled.Full else Ruled.Okay)) }
    ensures after { OnOk result (cpu.new ≡ after_map x cpu.old) }
{
    put_mapping(&mut cpu.maps, x)
}

fn without_page(entries: &mut Vec<Entry>, vpage: u64)
    ensures { entries.new.items ≡ without_page vpage entries.old.items }
{
    entries.retain(|e| e.vpage != vpage);
}

fn keep_global(entries: &mut Vec<Entry>)
    ensures { entries.new.items ≡ global_entries entries.old.items }
{
    entries.retain(|e| e.global);
}

/// Drops the TLB entries that aren't global.
pub(crate) fn reload_cr3(cpu: &mut Cpu)
    ensures { cpu.new ≡ reload_cr3 cpu.old }
{
    keep_global(&mut cpu.entries);
}

fn set_pge(cpu: &mut Cpu, on: bool)
    ensures { cpu.new ≡ set_page_global on cpu.old }
{
    if on != cpu.pge {
        cpu.pge = on;
        cpu.entries.clear();
    }
}

fn set_cd(cpu: &mut Cpu, on: bool)
    ensures { cpu.new ≡ record cpu.old { cache_disabled = on } }
{
    cpu.cd = on;
}

impl Bus<'_> {
    fn map(&mut self, k: usize, x: Mapping) -> Result<Ruled, NoMemory>
        requires { x.index < 8 }
        ensures answer { IfOk result (λ ruled. (p : Processor) → slice_get self.old.processors k ≡ Some p → ruled ≡ answer_to_map x p) }
        ensures after { OnOk result (IsMapped x k self.old self.new) }
    {
        let Some(cpu) = self.cpus.get_mut(k) else {
            return Ok(Ruled::Busy);
        };
        map(cpu, x)
    }

    fn drop_page(&mut self, k: usize, vpage: u64)
        ensures { self.new ≡ change (drop_page vpage) k self.old }
    {
        if let Some(cpu) = self.cpus.get_mut(k) {
            without_page(&mut cpu.entries, vpage);
        }
    }

    fn reload_cr3(&mut self, k: usize)
        ensures { self.new ≡ change reload_cr3 k self.old }
    {
        if let Some(cpu) = self.cpus.get_mut(k) {
            reload_cr3(cpu);
        }
    }

    fn set_pge(&mut self, k: usize, on: bool)
        ensures { self.new ≡ change (set_page_global on) k self.old }
    {
        if let Some(cpu) = self.cpus.get_mut(k) {
            set_pge(cpu, on);
        }
    }

    fn set_cd(&mut self, k: usize, on: bool)
        ensures { self.new ≡ change (λ p. record p { cache_disabled = on }) k self.old }
    {
        if let Some(cpu) = self.cpus.get_mut(k) {
            set_cd(cpu, on);
        }
    }

    /// One control instruction of a processor.
    pub fn control(&mut self, k: usize, c: Control) -> Result<Ruled, NoMemory>
        requires { HasIndex c }
        ensures { IfOk result (λ r. IsControl self.old k c r self.new) }
    {
        match c {
            Control::Map(x) => return self.map(k, x),
            Control::Invlpg(va) => {
                self.drain(k);
                self.drop_page(k, va / PAGE_BYTES);
            }
            Control::Cr3 => {
                self.drain(k);
                self.reload_cr3(k);
            }
            Control::Pge(on) => {
                self.drain(k);
                self.set_pge(k, on);
            }
            Control::Cd(on) => {
                self.drain(k);
                self.set_cd(k, on);
            }
        }
        Ok(Ruled::Okay)
    }
}
