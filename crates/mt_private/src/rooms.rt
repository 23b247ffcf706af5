// The room of a guest, in which its own system is made.
ghost use Rattle.std.specs.Prelude.{◌≡◌, ◌≤◌, [], ◌∷◌, IfSome, cond, length, replicate, vec_capacity};
ghost use Rattle.mt_machine.specs.System.{IsSound};
ghost use Rattle.mt_bus.specs.Tables.{AreTablesOf};
ghost use Rattle.mt_private.specs.Own.{own_memory, pages_of};

use crate::pages::names;
use mt_bus::{Holders, System, SystemParts};
use mt_cpu::Cpu;
use mt_kinds::PAGE_BYTES;
use mt_ram::Ram;
use mt_types::KindTable;
use std::alloc::Global;

// A page, and whether a processor names it.
#[derive(Drop)]
struct Asked {
    page: u64,
    is_named: bool,
}

// The same of this page. It asks only if the last answer was of another page.
fn asked_of(cpu: &Cpu, page: u64, last: Asked) -> Asked
    requires { last.is_named ≡ pages_of cpu.now last.page }
    ensures page { result.page ≡ page }
    ensures is_named { result.is_named ≡ pages_of cpu.now page }
{
    if last.page == page {
        return last;
    }
    Asked {
        page,
        is_named: names(cpu, page),
    }
}

fn word_if(is_named: bool, word: u64) -> u64
    ensures { result ≡ cond is_named word 0 }
{
    if is_named { word } else { 0 }
}

// Copies the words of the pages that the processor names. Most words follow one of the same page, so it asks only where the
// page changes.
fn copy_words(cpu: &Cpu, ram: &Ram, own: &mut Ram)
    requires blank { own.old ≡ record ram.now { words = replicate (length ram.now.words) 0 } }
    ensures { own.new ≡ own_memory (pages_of cpu.now) ram.now }
{
    let mut asked = Asked {
        page: 0,
        is_named: names(cpu, 0),
    };
    for i in 0..ram.words() {
        asked = asked_of(cpu, ram.address(i) / PAGE_BYTES, asked);
        own.put(i, word_if(asked.is_named, ram.word(i)));
    }
}

// Memory with the words of the pages that the processor names, or none if an allocation fails.
fn own_ram(alloc: Global, cpu: &Cpu, ram: &Ram) -> Option<Ram>
    ensures { IfSome result (λ r. r ≡ own_memory (pages_of cpu.now) ram.now) }
{
    let mut own = ram.blank(alloc)?;
    copy_words(cpu, ram, &mut own);
    Some(own)
}

// The room of a guest: places for one processor and its table, and the words of its pages. Once the processor and the table are in
// it, it is the guest's own system.
#[derive(Drop)]
pub(crate) struct Room {
    cpus: Vec<Cpu>,
    tables: Vec<KindTable>,
    pub(crate) ram: Ram,
    holders: Holders,
    ghost no_processor: { cpus.items ≡ [] },
    ghost processor_fits: { 1 ≤ vec_capacity cpus },
    ghost no_table: { tables.items ≡ [] },
    ghost table_fits: { 1 ≤ vec_capacity tables },
}

impl Room {
    ghost use Rattle.mt_private.specs.Gathered.{IsRoom};

    // A room for this processor, or none if an allocation fails.
    pub(crate) fn new(alloc: Global, cpu: &Cpu, ram: &Ram) -> Option<Room>
        ensures { IfSome result (λ room. IsRoom cpu.now ram.now room) }
    {
        let Ok(cpus) = Vec::with_capacity(alloc, 1) else {
            return None;
        };
        let Ok(tables) = Vec::with_capacity(alloc, 1) else {
            return None;
        };
        let ram = own_ram(alloc, cpu, ram)?;
        Some(Room {
            cpus,
            tables,
            ram,
            holders: Holders::unknown(alloc),
        })
    }

    // The guest's own system.
    pub(crate) fn settle(self, cpu: Cpu, table: KindTable) -> System
        requires sound { IsSound (record { processors = cpu ∷ []; memory = self.ram }) }
        requires tables { AreTablesOf (cpu ∷ []) (table ∷ []) }
        ensures { result ≡ record { processors = cpu ∷ []; memory = self.ram } }
    {
        let Room {
            mut cpus,
            mut tables,
            ram,
            mut holders,
        } = self;
        cpus.push_reserved(cpu);
        tables.push_reserved(table);
        holders.forget();
        System::from_parts(SystemParts {
            cpus,
            ram,
            tables,
            holders,
        })
    }
}
