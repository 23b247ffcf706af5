//! Yards with a thread for each guest.
ghost use Rattle.std.specs.Prelude.{◌≡◌, IsTrue, IfSome, length};
ghost use Rattle.std.specs.Thread.{IsSync};
ghost use Rattle.mt_machine.specs.declared.go.Go.TheVariants.{Pending};
ghost use Rattle.mt_machine.specs.declared.phase.Phase.TheVariants.{Running};
ghost use Rattle.mt_rendezvous.specs.Update.{FitsUpdate};
ghost use Rattle.mt_private.specs.declared.job.Part.{Part as JobPart};
ghost use Rattle.mt_private.specs.InYard.{AreGatheredIn, HostsIn, IsGatheredIn, goal_at};
ghost use Rattle.mt_private.specs.Jobs.{FitsJob, IsOpen};
ghost use Rattle.mt_private.specs.YardCalls.{AreIn};

use crate::checks::succeeds_at;
use crate::common::{file, may_call, word};
use crate::endings::Ending;
use crate::job_tests::{fits_job, jobs_of, own_core};
use mt_bus::System;
use mt_core::{Core, a_core_arises};
use mt_gates::AllBut;
use mt_kinds::MemType;
use mt_machine::{Done, Phase};
use mt_private::{Guest, Host, Job, JobAnswers, Visited, Yard, shared_page, visit};
use mt_regs::RegFile;
use std::alloc::Global;
use std::sync::Wait;
use std::sync::atomic::{AtomicU64, Ordering};
use std::thread;
use std::thread::{Scope, Threads};
use std::time::Clock;

/// The yard of a core's system, where no update is under way, the goal has no fault and no page is named by two.
fn gather_of(alloc: Global, core: Core, goal: &RegFile) -> Option<(Yard, Host, Vec<Guest>)>
    requires { FitsUpdate core goal.now }
    ensures host { IfSome result (λ y. HostsIn y.0 y.1 Pending) }
    ensures goal { IfSome result (λ y. goal.now ≡ goal_at y.0) }
    ensures guests { IfSome result (λ y. AreGatheredIn y.0 y.2.items) }
{
    a_core_arises(&core); // a fact for the proof
    goal.is_register_file(); // a fact for the proof
    if core.order().is_some() {
        return None;
    }
    if let Some(_fault) = goal.first_fault() {
        return None;
    }
    if let Some(_page) = shared_page(&core) {
        return None;
    }
    let Ok(y) = Yard::gather(alloc, core.into_system(), goal) else {
        return None;
    };
    Some(y)
}

/// What the threads of a yard share, and how many guests ended as they should.
#[derive(Drop)]
struct Shared {
    yard: Yard,
    goal: RegFile,
    jobs: Vec<Job>,
    gate: AllBut,
    ended: AtomicU64,
}

/// Whether guest k stored its word as WB, and loaded it as UC after the update, or left with it in its cache.
fn has_ended(
    own: &System,
    k: usize,
    visited: Visited,
    told: &JobAnswers,
    ending: Ending,
) -> Option<bool> {
    let value = 0x2a + k as u64 % 16;
    let base = 0x10_0000 * (k as u64 % 16 + 1);
    let cpu = own.cpus().get(0)?;
    let in_memory = word(own.ram(), base)?;
    let has_stored = told.before.as_slice() == [Done::Stored(MemType::WB)].as_slice();
    let left = (cpu.era(), cpu.cache().len(), in_memory);
    let is_so = match visited {
        Visited::Complete => {
            let loaded = [Done::Value(value, MemType::UC)];
            ending.is_go() && told.after.as_slice() == loaded.as_slice() && left == (1, 0, value)
        }
        Visited::Cancelled => !ending.is_go() && told.after.is_empty() && left == (0, 1, 0),
    };
    Some(has_stored && is_so)
}

/// Whether it has one processor, which runs.
fn runs(own: &System) -> bool
    ensures { IsTrue result → AreIn Running own.now }
{
    let cpus = own.cpus();
    cpus.len() == 1 && cpus[0].phase() == Phase::Running
}

/// The visit of a guest as it was gathered, which is counted if it ends as it should.
fn visits<R: Wait>(
    rt: &R,
    shared: &Shared,
    k: usize,
    guest: Guest,
    job: &Job,
    mut told: JobAnswers,
    ending: Ending,
)
    requires gathered { IsGatheredIn shared.now.yard k guest }
    requires runs { AreIn Running guest.own }
    requires goal { shared.now.goal ≡ goal_at shared.now.yard }
    requires addresses { FitsJob job.now }
    requires open { (part : JobPart) → IsOpen part job.now told }
{
    let Shared {
        yard,
        goal,
        jobs: _,
        gate,
        ended,
    } = shared;
    let (guest, visited) = visit(rt, yard, guest, goal, job, &mut told, gate);
    if has_ended(&guest.own, k, visited, &told, ending) == Some(true) {
        ended.fetch_add(1, Ordering::SeqCst);
    }
}

/// The last guest.
fn last(yard: &Yard, waiting: &mut Vec<Guest>) -> Option<Guest>
    requires { AreGatheredIn yard.now waiting.old.items }
    ensures gathered { IfSome result (λ g. IsGatheredIn yard.now (length waiting.new.items) g) }
    ensures rest { AreGatheredIn yard.now waiting.new.items }
{
    let _ = yard.count; // a fact for the proof
    waiting.pop()
}

/// Starts a thread for the last guest, where it can visit with its job. Returns whether it is started.
fn start<'s, E, R: Wait + Sync>(
    rt: &'s R,
    alloc: Global,
    scope: &Scope<'s, E>,
    shared: &'s Shared,
    waiting: &mut Vec<Guest>,
    ending: Ending,
) -> bool
    requires guests { AreGatheredIn shared.now.yard waiting.old.items }
    requires goal { shared.now.goal ≡ goal_at shared.now.yard }
    ensures { AreGatheredIn shared.now.yard waiting.new.items }
{
    let Some(guest) = last(&shared.yard, waiting) else {
        return false;
    };
    let k = waiting.len();
    let Some(job) = shared.jobs.get(k) else {
        return false;
    };
    let Ok(told) = JobAnswers::new(alloc, job) else {
        return false;
    };
    if !runs(&guest.own) || !fits_job(job) {
        return false;
    }
    scope
        .spawn(
            move || -> ()
                requires shared { IsSync R.row }
                requires gathered { IsGatheredIn shared.now.yard k guest }
                requires runs { AreIn Running guest.own }
                requires goal { shared.now.goal ≡ goal_at shared.now.yard }
                requires addresses { FitsJob job.now }
                requires open { (part : JobPart) → IsOpen part job.now told }
            { visits(rt, shared, k, guest, job, told, ending) },
        )
        .is_ok()
}

/// Starts threads for the last so many guests. Returns whether each is started.
fn start_some<'s, E, R: Wait + Sync>(
    rt: &'s R,
    alloc: Global,
    scope: &Scope<'s, E>,
    shared: &'s Shared,
    waiting: &mut Vec<Guest>,
    ending: Ending,
    some: u32,
) -> bool
    requires guests { AreGatheredIn shared.now.yard waiting.old.items }
    requires goal { shared.now.goal ≡ goal_at shared.now.yard }
    ensures { AreGatheredIn shared.now.yard waiting.new.items }
{
    for _ in 0..some {
        if !start(rt, alloc, scope, shared, waiting, ending) {
            return false;
        }
    }
    true
}

/// Gives the go, or cancels, and does so at once if not all are started. Returns whether the gate was told in time.
fn end<C: Clock>(clock: &C, shared: &Shared, mut host: Host, ending: Ending, started: bool) -> bool
    requires { HostsIn shared.now.yard host Pending }
{
    let heard = started && ending.hears(clock, &shared.gate, shared.yard.count as u32);
    if heard && ending.is_go() {
        host.go(&shared.yard);
    } else {
        host.cancel(&shared.yard);
    }
    heard
}

/// The threads of a yard. Returns whether each was started, and the gate told in time.
fn meet<R: Threads + Wait + Clock + Sync>(
    rt: &R,
    alloc: Global,
    shared: &Shared,
    host: Host,
    mut waiting: Vec<Guest>,
    ending: Ending,
) -> bool
    requires host { HostsIn shared.now.yard host Pending }
    requires guests { AreGatheredIn shared.now.yard waiting.items }
    requires goal { shared.now.goal ≡ goal_at shared.now.yard }
{
    thread::scope(
        thread::scope_env(),
        rt,
        move |scope| -> bool
            requires host { HostsIn shared.now.yard host Pending }
            requires guests { AreGatheredIn shared.now.yard waiting.items }
            requires goal { shared.now.goal ≡ goal_at shared.now.yard }
        {
            let count = shared.yard.count as u32;
            let early = ending.early(count);
            let started = start_some(rt, alloc, scope, shared, &mut waiting, ending, early);
            let heard = end(rt, shared, host, ending, started);
            let late = count.saturating_sub(early);
            start_some(rt, alloc, scope, shared, &mut waiting, ending, late) && heard
        },
    )
}

/// Whether a yard of so many processors ends so for each, and the gate is told once of each that comes before a cancel.
fn ends_so<R: Threads + Wait + Clock + Sync>(
    rt: &R,
    alloc: Global,
    count: u32,
    ending: Ending,
) -> Option<bool> {
    let core = own_core(alloc, count)?;
    let goal = file(0)?;
    let jobs = jobs_of(alloc, count)?;
    if !may_call(&core, &goal) {
        return None;
    }
    let (yard, host, waiting) = gather_of(alloc, core, &goal)?;
    let shared = Shared {
        yard,
        goal,
        jobs,
        gate: AllBut::new(16),
        ended: AtomicU64::new(0),
    };
    let met = meet(rt, alloc, &shared, host, waiting, ending);
    let ended = shared.ended.load(Ordering::SeqCst);
    let early = ending.early(count);
    let told = shared.gate.told_each(count.saturating_sub(early)..count, 1);
    Some(met && told && ended == count as u64)
}

#[test]
fn each_completes_or_leaves(rt: HostRuntime) {
    for count in [1, 2] {
        succeeds_at(&rt, 16, ends_so(&rt, rt.alloc(), count, Ending::Go));
        for early in 0..=count {
            let left = ends_so(&rt, rt.alloc(), count, Ending::CancelAfter(early));
            succeeds_at(&rt, early as u64, left);
        }
    }
}
