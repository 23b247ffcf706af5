// What an update on threads asks of the allocator, which may refuse it. No clause says that a refusal comes of the allocator,
// nor how much is asked for: read these lines.
ghost use Rattle.std.specs.Prelude.{◌≡◌, ◌<◌, ◌≤◌, [], IfOk, vec_capacity, vec_len};
ghost use Rattle.mt_machine.specs.declared.go.Go.TheVariants.{Pending};
ghost use Rattle.mt_rendezvous.specs.Station.{Begins};
ghost use Rattle.mt_rendezvous.specs.Calls.{gathered};
ghost use Rattle.mt_rendezvous.specs.InStation.{LeadsIn, OffersIn, start_at};

use super::Refusal;
use crate::station::{Root, Station};
use crate::view::Key;
use atomic_table::Table;
use mt_cpu::Cpu;
use mt_ram::Ram;
use mt_regs::RegFile;
use std::alloc::Global;
use std::snapshot::Snapshot;

/// Asks for a list with room for n elements.
///
/// # Errors
///
/// The allocation fails.
pub fn room<T>(alloc: Global, n: usize) -> Result<Vec<T>, Refusal>
    ensures empty { IfOk result (λ v. v.items ≡ []) }
    ensures room { IfOk result (λ v. n ≤ vec_capacity v) }
{
    match Vec::with_capacity(alloc, n) {
        Ok(room) => Ok(room),
        Err(_) => Err(Refusal { made: () }),
    }
}

// Asks for a table for these processors, all of which the root has.
pub(crate) fn open(
    alloc: Global,
    cpus: &Vec<Cpu>,
    ram: &Ram,
    goal: &RegFile,
) -> Result<(Station, Root), Refusal>
    requires some { 0 < vec_len cpus.now }
    requires few { vec_len cpus.now ≤ 16 }
    requires begins { Begins (gathered cpus.now.items ram.now goal.now) }
    ensures root { IfOk result (λ t. LeadsIn t.0 t.1 Pending × OffersIn t.0 0 t.1) }
    ensures key { IfOk result (λ t. start_at t.0 ≡ gathered cpus.now.items ram.now goal.now) }
{
    let count = cpus.len();
    // The counts and the phases, which are 0, and the words of memory.
    let zeros = [0u64; 18];
    let words = ram.behind_zeros(count + 2).unwrap_or(&zeros[..count + 2]);
    let key = Key {
        cpus: Snapshot::of(cpus),
        ram: Snapshot::of(ram),
        goal: Snapshot::of(goal),
    };
    let Ok((table, seat)) = Table::of_words(alloc, words, &key) else {
        return Err(Refusal { made: () });
    };
    let station = Station {
        table,
        count: count as u64,
    };
    Ok((station, Root { seat }))
}
