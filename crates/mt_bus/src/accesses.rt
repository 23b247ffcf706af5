ghost use Rattle.std.specs.Prelude.{◌≡◌, ◌<◌, length, slice_get, None, Some, IsTrue, true};
ghost use Rattle.std.specs.Option.{option_map, option_map_or};
ghost use Rattle.mt_machine.specs.Access.{access, is_running, keep_entry, physical};
ghost use Rattle.mt_machine.specs.System.{Processor, change};
ghost use Rattle.mt_laws.specs.Parts.{answered, entry_in, is_running_in};
ghost use Rattle.mt_bus.specs.Tables.{IsTranslatedBy};

use crate::bus::Bus;
use mt_kinds::MemType;
use mt_machine::{Done, Op, Phase};
use mt_types::KindTable;

impl Bus {
    /// Whether a processor runs, outside an update.
    pub(crate) fn is_running(&self, k: usize) -> bool
        requires { k < length self.now.processors }
        ensures { result ≡ is_running_in k self.now.processors }
    {
        matches!(self.cpus[k].phase(), Phase::Running)
    }

    // The physical address and the type of an address; an entry of its page then stands.
    #[inline(always)]
    fn translate(&mut self, table: &KindTable, k: usize, va: u64) -> Option<(u64, MemType)>
        requires processor { k < length self.old.processors }
        requires running { IsTrue (is_running_in k self.old.processors) }
        requires table { (p : Processor) → slice_get self.old.processors k ≡ Some p → IsTranslatedBy p table.now }
        ensures value { result ≡ option_map (λ e. (physical e va, e.kind)) (entry_in k va self.old.processors) }
        ensures after { self.new ≡ option_map_or (λ e. change (keep_entry e) k self.old) (entry_in k va self.old.processors) self.old }
    {
        let cpu = &mut self.cpus[k];
        cpu.translate(va, table)
    }

    fn load_at(&mut self, table: &KindTable, k: usize, va: u64) -> Done
        requires processor { k < length self.old.processors }
        requires running { IsTrue (is_running_in k self.old.processors) }
        requires table { (p : Processor) → slice_get self.old.processors k ≡ Some p → IsTranslatedBy p table.now }
        ensures { answered result self.new ≡ access self.old k (Op.Load va) }
    {
        let Some((address, kind)) = self.translate(table, k, va) else {
            return Done::Unmapped;
        };
        if self.ram.place(address).is_none() {
            return Done::NoRam;
        }
        Done::Value(self.load(k, kind, address), kind)
    }

    fn store_at(&mut self, table: &KindTable, k: usize, va: u64, v: u64) -> Done
        requires processor { k < length self.old.processors }
        requires running { IsTrue (is_running_in k self.old.processors) }
        requires table { (p : Processor) → slice_get self.old.processors k ≡ Some p → IsTranslatedBy p table.now }
        ensures { answered result self.new ≡ access self.old k (Op.Store va v) }
    {
        let Some((address, kind)) = self.translate(table, k, va) else {
            return Done::Unmapped;
        };
        if self.ram.place(address).is_none() {
            return Done::NoRam;
        }
        self.store(k, kind, address, v);
        Done::Stored(kind)
    }

    /// One access of one processor.
    pub(crate) fn access(&mut self, table: &KindTable, k: usize, op: Op) -> Done
        requires processor { k < length self.old.processors }
        requires table { (p : Processor) → slice_get self.old.processors k ≡ Some p → is_running p.phase ≡ true → IsTranslatedBy p table.now }
        ensures { answered result self.new ≡ access self.old k op }
    {
        if !self.is_running(k) {
            return Done::Busy;
        }
        match op {
            Op::Load(va) => self.load_at(table, k, va),
            Op::Store(va, v) => self.store_at(table, k, va, v),
            Op::Fence => {
                self.drain(k);
                Done::Fenced
            }
        }
    }
}
