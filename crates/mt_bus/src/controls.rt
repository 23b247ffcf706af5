ghost use Rattle.std.specs.Prelude.{◌≡◌, ◌<◌, ◌/◌, length, slice_get, is_err, OnOk, OnErr, Some, IsTrue};
ghost use Rattle.mt_kinds.specs.Sizes.{page_bytes};
ghost use Rattle.mt_tlb.specs.Entries.{is_full_for, set_mapping};
ghost use Rattle.mt_machine.specs.Machine.{FitsControl};
ghost use Rattle.mt_machine.specs.System.{Processor, change, with_self_snoop};
ghost use Rattle.mt_machine.specs.Control.{control, drop_page, reload_cr3, set_page_global};
ghost use Rattle.mt_laws.specs.Parts.{is_running_in, mappings_in, ruled};

use crate::bus::Bus;
use mt_kinds::PAGE_BYTES;
use mt_machine::{Control, Ruled};
use mt_tlb::{Full, Mapping};

impl Bus {
    fn map(&mut self, k: usize, x: Mapping) -> Result<(), Full>
        requires processor { k < length self.old.processors }
        requires fits { (p : Processor) → slice_get self.old.processors k ≡ Some p → FitsControl p (Control.Map x) }
        ensures full { is_err result ≡ is_full_for x (mappings_in k self.old.processors) }
        ensures done { OnOk result (self.new ≡ change (λ p. record p { mappings = set_mapping x p.mappings }) k self.old) }
        ensures kept { OnErr result (self.new ≡ self.old) }
    {
        let cpu = &mut self.cpus[k];
        cpu.map(x)?;
        Ok(())
    }

    fn invlpg(&mut self, k: usize, va: u64)
        requires { k < length self.old.processors }
        ensures { self.new ≡ change (drop_page (va / page_bytes)) k self.old }
    {
        let cpu = &mut self.cpus[k];
        cpu.invlpg(va / PAGE_BYTES);
    }

    fn reload_cr3(&mut self, k: usize)
        requires { k < length self.old.processors }
        ensures { self.new ≡ change reload_cr3 k self.old }
    {
        let cpu = &mut self.cpus[k];
        cpu.reload_cr3();
    }

    fn set_pge(&mut self, k: usize, on: bool)
        requires { k < length self.old.processors }
        ensures { self.new ≡ change (set_page_global on) k self.old }
    {
        let cpu = &mut self.cpus[k];
        cpu.set_pge(on);
    }

    /// Makes a processor a self-snooping one.
    pub(crate) fn set_self_snoop(&mut self, k: usize)
        requires { k < length self.old.processors }
        ensures { self.new ≡ with_self_snoop k self.old }
    {
        let cpu = &mut self.cpus[k];
        cpu.set_self_snoop();
    }

    fn set_cd(&mut self, k: usize, on: bool)
        requires { k < length self.old.processors }
        ensures { self.new ≡ change (λ p. record p { cache_disabled = on }) k self.old }
    {
        let cpu = &mut self.cpus[k];
        cpu.set_cd(on);
    }

    fn map_at(&mut self, k: usize, x: Mapping) -> Ruled
        requires processor { k < length self.old.processors }
        requires running { IsTrue (is_running_in k self.old.processors) }
        requires fits { (p : Processor) → slice_get self.old.processors k ≡ Some p → FitsControl p (Control.Map x) }
        ensures { ruled result self.new ≡ control self.old k (Control.Map x) }
    {
        match self.map(k, x) {
            Ok(()) => Ruled::Okay,
            Err(Full) => Ruled::Full,
        }
    }

    /// One control instruction of one processor.
    pub(crate) fn control(&mut self, k: usize, c: Control) -> Ruled
        requires processor { k < length self.old.processors }
        requires fits { (p : Processor) → slice_get self.old.processors k ≡ Some p → FitsControl p c }
        ensures { ruled result self.new ≡ control self.old k c }
    {
        if !self.is_running(k) {
            return Ruled::Busy;
        }
        match c {
            Control::Map(x) => return self.map_at(k, x),
            Control::Invlpg(va) => {
                self.drain(k);
                self.invlpg(k, va);
            }
            Control::Cr3 => {
                self.drain(k);
                self.reload_cr3(k);
            }
            Control::Pge(on) => {
                self.drain(k);
                self.set_pge(k, on);
            }
            Control::Cd(on) => {
                self.drain(k);
                self.set_cd(k, on);
            }
        }
        Ruled::Okay
    }
}
