// An update on threads, or without them if one is refused.
ghost use Rattle.std.specs.Prelude.{◌≡◌, ◌<◌, ◌≤◌, [], false, length, map, None, Some, IsSome, is_ok, vec_len};
ghost use Rattle.std.specs.List.{All, list_all};
ghost use Rattle.mt_machine.specs.declared.phase.Phase.TheVariants.{Taken};
ghost use Rattle.mt_machine.specs.Machine.{Order};
ghost use Rattle.mt_machine.specs.Start.{IsQuiet};
ghost use Rattle.mt_machine.specs.System.{IsSound};
ghost use Rattle.mt_machine.specs.Update.{updated};
ghost use Rattle.mt_rendezvous.specs.Station.{Begins};
ghost use Rattle.mt_rendezvous.specs.Calls.{gathered};
ghost use Rattle.mt_types.specs.Tables.{IsTableOf};
ghost use Rattle.mt_laws.specs.Parts.{system};
ghost use Rattle.mt_bus.specs.Holders.{AreHeldBy};
ghost use Rattle.mt_bus.specs.Tables.{AreTablesOf};
ghost use Rattle.mt_rendezvous.specs.Update.{CanUpdate, FitsUpdate, IsUpdate, has_empty_cache, left_by, running, tables_left};

use crate::attendance::{Attendance, Ended, meet};
use crate::broadcast::call_and_take;
use crate::caller::Caller;
use crate::crew::{Refusal, room};
use crate::gather::{disband, gather_station};
use crate::shared::Shared;
use mt_bus::{Holders, System, SystemParts};
use mt_core::{CallFault, Core, a_core_arises};
use mt_cpu::Cpu;
use mt_machine::Event;
use mt_ports::Gate;
use mt_ram::Ram;
use mt_regs::RegFile;
use mt_types::KindTable;
use std::alloc::Global;
use std::sync::Wait;
use std::thread::Threads;

// An update that was tried on threads: whether it is done, or what was refused, the processors and the memory. If it isn't
// done, the processors run and nothing else has changed.
struct Attempt {
    outcome: Result<(), Refusal>,
    cpus: Vec<Cpu>,
    ram: Ram,
}

// The processor leaves the update.
fn leave(cpu: &mut Cpu)
    requires { cpu.old.phase ≡ Taken }
    ensures { cpu.new ≡ running cpu.old }
{
    cpu.shift(Event::Leave);
}

// All leave the update.
fn leave_each(cpus: &mut [Cpu])
    requires { All (λ c. c.phase ≡ Taken) cpus.old }
    ensures { cpus.new ≡ map running cpus.old }
{
    for i in 0..cpus.len() {
        leave(&mut cpus[i]);
    }
}

// Without memory for the threads all leave.
fn give_up(mut cpus: Vec<Cpu>, ram: Ram, refusal: Refusal) -> Attempt
    requires { All (λ c. c.phase ≡ Taken) cpus.items }
    ensures outcome { is_ok result.outcome ≡ false }
    ensures left { (result.cpus.items ≡ map running cpus.items) × (result.ram ≡ ram) }
{
    leave_each(cpus.as_mut_slice());
    Attempt {
        outcome: Err(refusal),
        cpus,
        ram,
    }
}

// Tries the update of taken processors on threads, one for each. The table has a copy of this memory's words.
fn update_over<R: Threads + Wait + Sync, G: Gate>(
    caller: &Caller<R, G>,
    alloc: Global,
    cpus: Vec<Cpu>,
    ram: Ram,
    goal: &RegFile,
) -> Attempt
    requires some { 0 < vec_len cpus }
    requires few { vec_len cpus ≤ 16 }
    requires begins { Begins (gathered cpus.items ram goal.now) }
    ensures left { system result.cpus.items result.ram ≡ left_by (is_ok result.outcome) (system cpus.items ram) goal.now }
    ensures count { length result.cpus.items ≡ length cpus.items }
{
    let done = match room(alloc, cpus.len()) {
        Ok(done) => done,
        Err(refusal) => return give_up(cpus, ram, refusal),
    };
    let (station, root, waiting) = match gather_station(alloc, cpus, &ram, goal) {
        Ok(gathered) => gathered,
        Err((cpus, refusal)) => return give_up(cpus, ram, refusal),
    };
    let shared = Shared {
        station,
        ram,
        goal: goal.same(),
    };
    let Ended {
        outcome,
        root,
        done,
    } = meet(
        caller,
        &shared,
        Attendance {
            root,
            waiting,
            done,
        },
    );
    let Shared {
        station,
        mut ram,
        goal: _,
    } = shared;
    disband(station, root, &mut ram);
    Attempt {
        outcome,
        cpus: done,
        ram,
    }
}

// Whether no cache has a line.
fn are_caches_empty(cpus: &[Cpu]) -> bool
    ensures { result ≡ list_all has_empty_cache cpus.now }
{
    cpus.iter().all(|cpu| cpu.cache().len() == 0)
}

// Tries the update of taken processors on threads, one for each. If no cache has a line, nothing is written back. So the table
// has no words of memory, and this memory stays.
fn update_on_threads<R: Threads + Wait + Sync, G: Gate>(
    caller: &Caller<R, G>,
    alloc: Global,
    cpus: Vec<Cpu>,
    ram: Ram,
    goal: &RegFile,
) -> Attempt
    requires some { 0 < vec_len cpus }
    requires few { vec_len cpus ≤ 16 }
    requires begins { Begins (gathered cpus.items ram goal.now) }
    ensures left { system result.cpus.items result.ram ≡ left_by (is_ok result.outcome) (system cpus.items ram) goal.now }
    ensures count { length result.cpus.items ≡ length cpus.items }
{
    if !are_caches_empty(cpus.as_slice()) {
        return update_over(caller, alloc, cpus, ram, goal);
    }
    let none = Ram::new(alloc);
    let Attempt {
        outcome,
        cpus,
        ram: _,
    } = update_over(caller, alloc, cpus, none, goal);
    Attempt { outcome, cpus, ram }
}

// The update by the calls of a core, which a refusal alone allows.
fn update_alone(refusal: Refusal, system: System, goal: &RegFile) -> Core
    requires { CanUpdate system goal.now }
    ensures { result ≡ updated system [] goal.now }
{
    let mut core = Core::new(system);
    refusal.update_alone(&mut core, goal);
    core
}

// The goal's types come into each place.
fn renew_each(tables: &mut [KindTable], kinds: &KindTable)
    ensures { tables.new ≡ map (λ t. kinds.now) tables.old }
{
    for i in 0..tables.len() {
        let table = &mut tables[i];
        table.put(kinds);
    }
}

// They come there if the update is done.
fn renew_tables(tables: &mut Vec<KindTable>, given: bool, kinds: &KindTable)
    ensures { tables.new.items ≡ tables_left given kinds.now tables.old.items }
{
    if given {
        renew_each(tables.as_mut_slice(), kinds);
    }
}

fn put_together(cpus: Vec<Cpu>, ram: Ram, tables: Vec<KindTable>, holders: Holders) -> System
    requires sound { IsSound (system cpus.items ram) }
    requires tables { AreTablesOf cpus.items tables.items }
    requires held { AreHeldBy cpus.items holders }
    ensures { result ≡ system cpus.items ram }
{
    System::from_parts(SystemParts {
        cpus,
        ram,
        tables,
        holders,
    })
}

// A core without an update under way.
fn at_rest(system: System) -> Core
    requires quiet { IsQuiet (record { system = system; order = None }) }
    requires few { length system.processors ≤ 16 }
    ensures { result ≡ record { system = system; order = None } }
{
    Core::new(system)
}

// The core after the update, from the state in which all have taken.
fn carried_out<R: Threads + Wait + Sync, G: Gate>(
    caller: &Caller<R, G>,
    alloc: Global,
    system: System,
    goal: &RegFile,
    kinds: &KindTable,
) -> Core
    requires some { 0 < length system.processors }
    requires few { length system.processors ≤ 16 }
    requires kinds { IsTableOf goal.now kinds.now }
    requires begins { Begins (gathered system.processors system.memory goal.now) }
    ensures { result ≡ updated system [] goal.now }
{
    let SystemParts {
        cpus,
        ram,
        mut tables,
        holders,
    } = system.into_parts();
    let Attempt { outcome, cpus, ram } = update_on_threads(caller, alloc, cpus, ram, goal);
    renew_tables(&mut tables, outcome.is_ok(), kinds);
    let system = put_together(cpus, ram, tables, holders);
    match outcome {
        Ok(()) => at_rest(system),
        Err(refusal) => update_alone(refusal, system, goal),
    }
}

// The types of the goal of the update that is under way.
fn kinds_of(core: &Core) -> KindTable
    requires { IsSome core.now.order }
    ensures { (o : Order) → core.now.order ≡ Some o → IsTableOf o.goal result }
{
    let Some(order) = core.order() else {
        unreachable!()
    };
    order.kinds.same()
}

// Carries out the update of a core whose processors have taken.
fn carry_out<R: Threads + Wait + Sync, G: Gate>(
    caller: &Caller<R, G>,
    alloc: Global,
    core: &mut Core,
    goal: &RegFile,
)
    requires some { 0 < length core.old.system.processors }
    requires order { (o : Order) × (core.old.order ≡ Some o) × (o.goal ≡ goal.now) }
    requires begins { Begins (gathered core.old.system.processors core.old.system.memory goal.now) }
    ensures { core.new ≡ updated core.old.system [] goal.now }
{
    a_core_arises(core); // a fact for the proof
    let kinds = kinds_of(core);
    let system = core.take_system(alloc);
    *core = carried_out(caller, alloc, system, goal, &kinds);
}

/// Does what `update` does, for a caller with a runtime and a gate.
///
/// # Errors
///
/// Those of `Core::call`; nothing then changes.
pub fn update_with<R: Threads + Wait + Sync, G: Gate>(
    caller: &Caller<R, G>,
    alloc: Global,
    core: &mut Core,
    goal: &RegFile,
) -> Result<(), CallFault>
    requires { FitsUpdate core.old goal.now }
    ensures { IsUpdate core.old goal.now result core.new }
{
    call_and_take(core, goal)?;
    carry_out(caller, alloc, core, goal);
    Ok(())
}

/// Updates the range registers of all processors, on a thread for each, or on this thread if one isn't started or an allocation
/// fails.
///
/// # Errors
///
/// Those of `Core::call`; nothing then changes.
pub fn update<R: Threads + Wait + Sync, G: Gate>(
    rt: &R,
    alloc: Global,
    core: &mut Core,
    goal: &RegFile,
    gate: &G,
) -> Result<(), CallFault>
    requires { FitsUpdate core.old goal.now }
    ensures { IsUpdate core.old goal.now result core.new }
{
    update_with(&Caller::of(rt, gate), alloc, core, goal)
}
