//! Stations with a thread for each pass.
ghost use Rattle.std.specs.Prelude.{◌≡◌, ◌<◌, ◌≤◌, IsTrue, IfSome, length};
ghost use Rattle.std.specs.Thread.{IsSync};
ghost use Rattle.mt_machine.specs.declared.go.Go.TheVariants.{Pending};
ghost use Rattle.mt_rendezvous.specs.Station.{Begins};
ghost use Rattle.mt_rendezvous.specs.Calls.{gathered};
ghost use Rattle.mt_rendezvous.specs.InStation.{AllNewIn, IsRootIn, IsTaken, LeadsIn, goal_at, start_at, windows_at};

use crate::checks::succeeds_at;
use crate::common::{Windows, core_of, file, may_call, store, word};
use crate::endings::Ending;
use mt_bus::SystemParts;
use mt_core::{Core, a_core_arises};
use mt_gates::AllBut;
use mt_kinds::MemType;
use mt_ram::Ram;
use mt_regs::RegFile;
use mt_rendezvous::{Attendee, Outcome, Root, Station, attend, call_and_take, disband};
use std::alloc::Global;
use std::sync::Wait;
use std::sync::atomic::{AtomicU64, Ordering};
use std::thread;
use std::thread::{Scope, Threads};
use std::time::Clock;

/// So many processors. Each has stored a word as WB, in a line of its own.
fn dirty_row(alloc: Global, count: u32) -> Option<Core> {
    let mut core = core_of(alloc, count, 6, Windows::Common)?;
    for k in 0..count {
        if store(&mut core, k, 0x40 * k as u64, 0x2a + k as u64) != Some(MemType::WB) {
            return None;
        }
    }
    Some(core)
}

/// Calls, and lets each take, where the call's conditions hold.
fn take(core: &mut Core, goal: &RegFile) -> bool
    ensures begins { IsTrue result → Begins (gathered core.new.system.processors core.new.system.memory goal.now) }
    ensures some { IsTrue result → 0 < length core.new.system.processors }
    ensures few { IsTrue result → length core.new.system.processors ≤ 16 }
{
    a_core_arises(core); // a fact for the proof
    may_call(core, goal) && call_and_take(core, goal).is_ok()
}

/// What the threads of a station share, and how many passes ended as they should.
#[derive(Drop)]
struct Shared {
    station: Station,
    ram: Ram,
    goal: RegFile,
    gate: AllBut,
    ended: AtomicU64,
}

/// Whether it completed and was shown so many, or left with its dirty line.
fn has_ended(a: &Attendee, outcome: Outcome, count: u32, ending: Ending) -> bool {
    let (era, cache) = (a.cpu.era(), a.cpu.cache());
    match outcome {
        Outcome::Complete => {
            ending.is_go() && a.pass.shown() == Some(count) && era == 1 && cache.len() == 0
        }
        Outcome::Cancelled => {
            !ending.is_go()
                && a.pass.shown().is_none()
                && era == 0
                && cache.len() == 1
                && cache.nth(0).dirty == 1
        }
    }
}

/// The way of an attendee through the station, which is counted if it ends as it should.
fn attends<R: Wait>(rt: &R, shared: &Shared, a: Attendee, ending: Ending)
    requires taken { IsTaken shared.now.station a.pass a.cpu }
    requires goal { shared.now.goal ≡ goal_at shared.now.station }
    requires windows { shared.now.ram.windows ≡ windows_at shared.now.station }
{
    let Shared {
        station,
        ram,
        goal,
        gate,
        ended,
    } = shared;
    let (a, outcome) = attend(rt, station, ram, a, goal, gate);
    if has_ended(&a, outcome, station.count as u32, ending) {
        ended.fetch_add(1, Ordering::SeqCst);
    }
}

/// The last attendee.
fn last(station: &Station, waiting: &mut Vec<Attendee>) -> Option<Attendee>
    requires new { AllNewIn station.now waiting.old.items }
    requires begins { Begins (start_at station.now) }
    ensures taken { IfSome result (λ a. IsTaken station.now a.pass a.cpu) }
    ensures rest { AllNewIn station.now waiting.new.items }
{
    let _ = station.count; // a fact for the proof
    waiting.pop()
}

/// Starts a thread for the last attendee. Returns whether it is started.
fn start<'s, E, R: Wait + Sync>(
    rt: &'s R,
    scope: &Scope<'s, E>,
    shared: &'s Shared,
    waiting: &mut Vec<Attendee>,
    ending: Ending,
) -> bool
    requires new { AllNewIn shared.now.station waiting.old.items }
    requires begins { Begins (start_at shared.now.station) }
    requires goal { shared.now.goal ≡ goal_at shared.now.station }
    requires windows { shared.now.ram.windows ≡ windows_at shared.now.station }
    ensures { AllNewIn shared.now.station waiting.new.items }
{
    let Some(a) = last(&shared.station, waiting) else {
        return false;
    };
    scope
        .spawn(
            move || -> ()
                requires shared { IsSync R.row }
                requires taken { IsTaken shared.now.station a.pass a.cpu }
                requires goal { shared.now.goal ≡ goal_at shared.now.station }
                requires windows { shared.now.ram.windows ≡ windows_at shared.now.station }
            { attends(rt, shared, a, ending) },
        )
        .is_ok()
}

/// Starts threads for the last so many attendees. Returns whether each is started.
fn start_some<'s, E, R: Wait + Sync>(
    rt: &'s R,
    scope: &Scope<'s, E>,
    shared: &'s Shared,
    waiting: &mut Vec<Attendee>,
    ending: Ending,
    some: u32,
) -> bool
    requires new { AllNewIn shared.now.station waiting.old.items }
    requires begins { Begins (start_at shared.now.station) }
    requires goal { shared.now.goal ≡ goal_at shared.now.station }
    requires windows { shared.now.ram.windows ≡ windows_at shared.now.station }
    ensures { AllNewIn shared.now.station waiting.new.items }
{
    for _ in 0..some {
        if !start(rt, scope, shared, waiting, ending) {
            return false;
        }
    }
    true
}

/// Gives the go, or cancels, and does so at once if not all are started. Returns whether the gate was told in time.
fn end<C: Clock>(clock: &C, shared: &Shared, root: &mut Root, ending: Ending, started: bool) -> bool
    requires { LeadsIn shared.now.station root.old Pending }
    ensures { IsRootIn shared.now.station root.new }
{
    let heard = started && ending.hears(clock, &shared.gate, shared.station.count as u32);
    if heard && ending.is_go() {
        root.go(&shared.station);
    } else {
        root.cancel(&shared.station);
    }
    heard
}

/// The threads of a station. Returns the root, and whether each was started and the gate told in time.
fn meet<R: Threads + Wait + Clock + Sync>(
    rt: &R,
    shared: &Shared,
    mut root: Root,
    mut waiting: Vec<Attendee>,
    ending: Ending,
) -> (Root, bool)
    requires root { LeadsIn shared.now.station root Pending }
    requires new { AllNewIn shared.now.station waiting.items }
    requires begins { Begins (start_at shared.now.station) }
    requires goal { shared.now.goal ≡ goal_at shared.now.station }
    requires windows { shared.now.ram.windows ≡ windows_at shared.now.station }
    ensures { IsRootIn shared.now.station result.0 }
{
    thread::scope(
        thread::scope_env(),
        rt,
        move |scope| -> (Root, bool)
            requires root { LeadsIn shared.now.station root Pending }
            requires new { AllNewIn shared.now.station waiting.items }
            requires begins { Begins (start_at shared.now.station) }
            requires goal { shared.now.goal ≡ goal_at shared.now.station }
            requires windows { shared.now.ram.windows ≡ windows_at shared.now.station }
            ensures { IsRootIn shared.entry.now.station result.0 }
        {
            let count = shared.station.count as u32;
            let early = ending.early(count);
            let started = start_some(rt, scope, shared, &mut waiting, ending, early);
            let heard = end(rt, shared, &mut root, ending, started);
            let late = count.saturating_sub(early);
            let all = start_some(rt, scope, shared, &mut waiting, ending, late);
            (root, all && heard)
        },
    )
}

/// Whether the words of so many processors were written back, or none was.
fn has_words(ram: &Ram, count: u32, written: bool) -> bool {
    for k in 0..count {
        let value = if written { 0x2a + k as u64 } else { 0 };
        if word(ram, 0x10_0000 + 0x40 * k as u64) != Some(value) {
            return false;
        }
    }
    true
}

/// Whether a station of so many processors ends so for each and in memory, and the gate is told once of each.
fn ends_so<R: Threads + Wait + Clock + Sync>(
    rt: &R,
    alloc: Global,
    count: u32,
    ending: Ending,
) -> Option<bool> {
    let goal = file(0)?;
    let mut core = dirty_row(alloc, count)?;
    if !take(&mut core, &goal) {
        return None;
    }
    let SystemParts { cpus, ram, .. } = core.into_system().into_parts();
    let Ok((station, root, waiting)) = Station::gather(alloc, cpus, &ram, &goal) else {
        return None;
    };
    let shared = Shared {
        station,
        ram,
        goal,
        gate: AllBut::new(16),
        ended: AtomicU64::new(0),
    };
    let (root, met) = meet(rt, &shared, root, waiting, ending);
    let Shared {
        station,
        mut ram,
        goal: _,
        gate,
        ended,
    } = shared;
    disband(station, root, &mut ram);
    let have_ended = ended.load(Ordering::SeqCst) == count as u64 && gate.told_each(0..count, 1);
    Some(met && have_ended && has_words(&ram, count, ending.is_go()))
}

#[test]
fn each_completes_or_leaves(rt: HostRuntime) {
    for count in [2, 16] {
        for _ in 0..100 {
            for ending in [Ending::Go, Ending::Cancel] {
                succeeds_at(&rt, count as u64, ends_so(&rt, rt.alloc(), count, ending));
            }
        }
    }
}

#[test]
fn a_station_may_be_cancelled_at_each_arrival(rt: HostRuntime) {
    for early in 0..=3 {
        let left = ends_so(&rt, rt.alloc(), 3, Ending::CancelAfter(early));
        succeeds_at(&rt, early as u64, left);
    }
}
