// Jobs of processors and one update, as they are done one after the other.
ghost use Rattle.std.specs.Prelude.{◌≡◌, ◌<◌, ◌≤◌, [], None, IfNone, IfOk, IfSome, length, map, vec_capacity};
ghost use Rattle.std.specs.List.{All};
ghost use Rattle.mt_machine.specs.Machine.{FitsOp};
ghost use Rattle.mt_machine.specs.Start.{IsQuiet};
ghost use Rattle.mt_machine.specs.Update.{updated};
ghost use Rattle.mt_core.specs.Rounds.{in_order};
ghost use Rattle.mt_rendezvous.specs.Calls.{gathered};
ghost use Rattle.mt_private.specs.InYard.{IsGatheredFrom};
ghost use Rattle.mt_private.specs.Residents.{Opens};
ghost use Rattle.mt_private.specs.Jobs.{AreOpen, FitsJob, IsOpen, answers_in, ops_in, other_part, room_in};
ghost use Rattle.mt_private.specs.OneByOne.{AreOneByOne, at_rest, jobs_one_by_one, ran, ran_each};
ghost use Rattle.mt_private.specs.Runs.{FitsRun, IsPrivateRun};
ghost use Rattle.mt_private.specs.Visitors.{CanGoOn};
ghost use Rattle.mt_private.specs.declared.job.Part.{Part as JobPart};
ghost use Rattle.mt_private.specs.declared.job.Part.TheVariants.{Before, After};

use crate::attendance::{Attendance, Ended, meet};
use crate::caller::Caller;
use crate::fault::PrivateFault;
use crate::host::{Host, Yard};
use crate::job::{Job, JobAnswers, Part, op_at};
use crate::leaving::leave;
use crate::pages::shared_page;
use crate::shared::Shared;
use crate::visiting::Guest;
use mt_bus::System;
use mt_core::{Core, a_core_arises};
use mt_machine::{Done, Op};
use mt_ports::{Gate, NoMemory};
use mt_regs::RegFile;
use mt_rendezvous::Refusal;
use std::alloc::Global;
use std::sync::Wait;
use std::thread::Threads;

// The accesses of processor k, in order.
fn do_ops(core: &mut Core, k: u32, ops: &[Op], told: &mut Vec<Done>)
    requires processor { k < length core.old.system.processors }
    requires fits { All FitsOp ops.now }
    requires empty { told.old.items ≡ [] }
    requires room { length ops.now ≤ vec_capacity told.old }
    ensures after { core.new ≡ record core.old { system = (ran k ops.now core.old.system).after } }
    ensures answers { told.new.items ≡ (ran k ops.now core.old.system).answers }
    ensures count { length core.new.system.processors ≡ length core.old.system.processors }
{
    for i in 0..ops.len() {
        told.push_reserved(core.access(k, op_at(ops, i)));
    }
}

// Those of one part of its job.
fn do_part(core: &mut Core, k: u32, part: Part, job: &Job, told: &mut JobAnswers)
    requires processor { k < length core.old.system.processors }
    requires fits { FitsJob job.now }
    requires open { IsOpen part job.now told.old }
    ensures after { core.new ≡ record core.old { system = (ran k (ops_in part job.now) core.old.system).after } }
    ensures answers { answers_in part told.new ≡ (ran k (ops_in part job.now) core.old.system).answers }
    ensures other { (answers_in (other_part part) told.new ≡ answers_in (other_part part) told.old) × (room_in (other_part part) told.new ≡ room_in (other_part part) told.old) }
    ensures count { length core.new.system.processors ≡ length core.old.system.processors }
{
    match part {
        Part::Before => do_ops(core, k, job.before.as_slice(), &mut told.before),
        Part::After => do_ops(core, k, job.after.as_slice(), &mut told.after),
    }
}

// Those of one part of all jobs, processor by processor.
fn do_parts(core: &mut Core, part: Part, jobs: &[Job], told: &mut [JobAnswers])
    requires processors { length jobs.now ≡ length core.old.system.processors }
    requires few { length jobs.now ≤ 16 }
    requires one_each { length told.old ≡ length jobs.now }
    requires fits { All FitsJob jobs.now }
    requires open { AreOpen part jobs.now told.old }
    ensures after { core.new ≡ record core.old { system = (ran_each 0 (map (ops_in part) jobs.now) core.old.system).after } }
    ensures answers { map (answers_in part) told.new ≡ (ran_each 0 (map (ops_in part) jobs.now) core.old.system).answers }
    ensures other { map (answers_in (other_part part)) told.new ≡ map (answers_in (other_part part)) told.old }
    ensures open { AreOpen (other_part part) jobs.now told.old → AreOpen (other_part part) jobs.now told.new }
    ensures count { length core.new.system.processors ≡ length core.old.system.processors }
{
    for k in 0..jobs.len() {
        let answers = &mut told[k];
        do_part(core, k as u32, part, &jobs[k], answers);
    }
}

// A place for the answers of each job.
fn answers_for(alloc: Global, jobs: &[Job]) -> Result<Vec<JobAnswers>, NoMemory>
    ensures count { IfOk result (λ told. length told.items ≡ length jobs.now) }
    ensures open { IfOk result (λ told. (part : JobPart) → AreOpen part jobs.now told.items) }
{
    let Ok(mut told) = Vec::with_capacity(alloc, jobs.len()) else {
        return Err(NoMemory);
    };
    for k in 0..jobs.len() {
        let Ok(answers) = JobAnswers::new(alloc, &jobs[k]) else {
            return Err(NoMemory);
        };
        told.push_reserved(answers);
    }
    Ok(told)
}

// A core without an update under way.
fn at_rest(system: System) -> Core
    requires quiet { IsQuiet (at_rest system) }
    requires few { length system.processors ≤ 16 }
    ensures { result ≡ at_rest system }
{
    Core::new(system)
}

// The yard of the core's system, where there is memory; else the core is as it was.
fn gather_core(alloc: Global, core: &mut Core, goal: &RegFile) -> Option<(Yard, Host, Vec<Guest>)>
    requires none { core.old.order ≡ None }
    requires opens { Opens (gathered core.old.system.processors core.old.system.memory goal.now) }
    ensures kept { IfNone result (core.new ≡ core.old) }
    ensures gathered { let start = gathered core.old.system.processors core.old.system.memory goal.now in
        IfSome result (λ y. IsGatheredFrom start y.0 y.1 y.2.items) }
{
    let system = core.take_system(alloc);
    match Yard::gather(alloc, system, goal) {
        Ok(yard) => Some(yard),
        Err(system) => {
            *core = at_rest(system);
            None
        }
    }
}

// The update on this thread, and then the accesses after it. A refusal alone allows it.
fn update_and_access(
    refusal: Refusal,
    core: &mut Core,
    goal: &RegFile,
    jobs: &Vec<Job>,
    told: &mut Vec<JobAnswers>,
)
    requires { CanGoOn core.old goal.now jobs.now.items told.old.items }
    ensures left { core.new ≡ at_rest (ran_each 0 (map (ops_in After) jobs.now.items) (updated core.old.system (in_order core.old) goal.now).system).after }
    ensures after { map (answers_in After) told.new.items ≡ (ran_each 0 (map (ops_in After) jobs.now.items) (updated core.old.system (in_order core.old) goal.now).system).answers }
    ensures before { map (answers_in Before) told.new.items ≡ map (answers_in Before) told.old.items }
{
    refusal.update_alone(core, goal);
    do_parts(core, Part::After, jobs.as_slice(), told.as_mut_slice());
}

// The jobs and the update, on a thread for each processor, if there is memory for the yard.
fn visit_all<R: Threads + Wait + Sync, G: Gate>(
    caller: &Caller<R, G>,
    alloc: Global,
    core: &mut Core,
    goal: RegFile,
    jobs: Vec<Job>,
    told: Vec<JobAnswers>,
) -> Option<Vec<JobAnswers>>
    requires none { core.old.order ≡ None }
    requires opens { Opens (gathered core.old.system.processors core.old.system.memory goal) }
    requires processors { length jobs.items ≡ length core.old.system.processors }
    requires one_each { length told.items ≡ length jobs.items }
    requires addresses { All FitsJob jobs.items }
    requires open { (part : JobPart) → AreOpen part jobs.items told.items }
    ensures kept { IfNone result (core.new ≡ core.old) }
    ensures done { IfSome result (λ told. AreOneByOne (jobs_one_by_one core.old.system goal jobs.items) core.new told.items) }
{
    let Some((yard, host, guests)) = gather_core(alloc, core, &goal) else {
        return None;
    };
    let shared = Shared { yard, goal, jobs };
    let Ended {
        outcome,
        host,
        mut told,
    } = meet(
        caller,
        &shared,
        Attendance {
            host,
            waiting: guests,
            told,
        },
    );
    let Shared { yard, goal, jobs } = shared;
    *core = at_rest(leave(yard, host));
    match outcome {
        Ok(()) => Some(told),
        Err(refusal) => {
            update_and_access(refusal, core, &goal, &jobs, &mut told);
            Some(told)
        }
    }
}

/// Does what `run_private` does, for a caller with a runtime and a gate.
///
/// # Errors
///
/// Those of `run_private`. Nothing then changes.
pub fn run_private_with<R: Threads + Wait + Sync, G: Gate>(
    caller: &Caller<R, G>,
    alloc: Global,
    core: &mut Core,
    goal: RegFile,
    jobs: Vec<Job>,
) -> Result<Vec<JobAnswers>, PrivateFault>
    requires { FitsRun core.old goal jobs }
    ensures { IsPrivateRun core.old goal jobs.items result core.new }
{
    if core.order().is_some() {
        return Err(PrivateFault::UnderWay);
    }
    if let Some(fault) = goal.first_fault() {
        return Err(PrivateFault::Refused(fault));
    }
    if let Some(page) = shared_page(core) {
        return Err(PrivateFault::Shared(page));
    }
    let Ok(told) = answers_for(alloc, jobs.as_slice()) else {
        return Err(PrivateFault::NoMemory);
    };
    a_core_arises(core); // a fact for the proof
    goal.is_register_file(); // a fact for the proof
    let Some(told) = visit_all(caller, alloc, core, goal, jobs, told) else {
        return Err(PrivateFault::NoMemory);
    };
    Ok(told)
}

/// Runs a job for each processor and one update, with a thread for each processor. Each does its accesses before the
/// update, and those after it once it is released. The core and the answers are those of the accesses before, processor
/// by processor, the whole update, and the accesses after, processor by processor. If a thread isn't started, the rest
/// is done on the calling one. Memory for the answers and for each processor's own is allocated before the first
/// access.
///
/// # Errors
///
/// An update is under way; or else the goal has a fault; or else two processors name a page; or else memory was
/// refused. Nothing then changes.
pub fn run_private<R: Threads + Wait + Sync, G: Gate>(
    rt: &R,
    alloc: Global,
    core: &mut Core,
    goal: RegFile,
    jobs: Vec<Job>,
    gate: &G,
) -> Result<Vec<JobAnswers>, PrivateFault>
    requires { FitsRun core.old goal jobs }
    ensures { IsPrivateRun core.old goal jobs.items result core.new }
{
    run_private_with(&Caller::of(rt, gate), alloc, core, goal, jobs)
}
