//! Jobs of processors and one update, run on threads.
ghost use Rattle.std.specs.Prelude.{◌↔◌, IsTrue};
ghost use Rattle.std.specs.List.{All};
ghost use Rattle.mt_machine.specs.Machine.{FitsOp};
ghost use Rattle.mt_private.specs.Jobs.{FitsJob};

use crate::checks::{holds, holds_at, some, succeeds_at};
use crate::common::{
    Windows, called, core_of, file, first_refused, is_same_system, may_call, update_alone, word,
};
use mt_core::Core;
use mt_gates::{AllBut, InOrder, Meets, OneFirst};
use mt_kinds::MemType;
use mt_machine::{Done, Op};
use mt_ports::{Gate, OpenGate};
use mt_private::{Job, JobAnswers, Part, PrivateFault, run_private, shared_page};
use mt_regs::{Fault, Reason};
use std::alloc::Global;
use std::sync::Wait;
use std::thread::Threads;

/// So many processors with a page of their own each, of type WB.
pub(crate) fn own_core(alloc: Global, count: u32) -> Option<Core> {
    core_of(alloc, count, 6, Windows::Own)
}

fn one(alloc: Global, op: Op) -> Option<Vec<Op>> {
    [op].to_vec(alloc).ok()
}

/// For each of so many processors a store of 2AH and its number before, and a load of it after.
pub(crate) fn jobs_of(alloc: Global, count: u32) -> Option<Vec<Job>> {
    let mut jobs = Vec::new(alloc);
    for k in 0..count {
        let before = one(alloc, Op::Store(0x1000, 0x2a_u64.saturating_add(k as u64)))?;
        let after = one(alloc, Op::Load(0x1000))?;
        if jobs.push(Job { before, after }).is_err() {
            return None;
        }
    }
    Some(jobs)
}

fn fits_op(op: Op) -> bool
    ensures { IsTrue result ↔ FitsOp op }
{
    match op {
        Op::Load(address) => address % 8 == 0 && address < 0x1_0000_0000_0000,
        Op::Store(address, _) => address % 8 == 0 && address < 0x1_0000_0000_0000,
        Op::Fence => true,
    }
}

fn fits_ops(ops: &[Op]) -> bool
    ensures { IsTrue result ↔ All FitsOp ops.now }
{
    ops.iter().all(|op| fits_op(*op))
}

pub(crate) fn fits_job(job: &Job) -> bool
    ensures { IsTrue result ↔ FitsJob job.now }
{
    fits_ops(job.before.as_slice()) && fits_ops(job.after.as_slice())
}

fn all_fit(jobs: &[Job]) -> bool
    ensures { IsTrue result → All FitsJob jobs.now }
{
    for i in 0..jobs.len() {
        if !fits_job(&jobs[i]) {
            return false;
        }
    }
    true
}

/// The update to this type and the jobs on threads, where their conditions hold.
fn on_threads<R: Threads + Wait + Sync, G: Gate>(
    rt: &R,
    alloc: Global,
    core: &mut Core,
    kind: u64,
    jobs: Vec<Job>,
    gate: &G,
) -> Option<Result<Vec<JobAnswers>, PrivateFault>> {
    let goal = file(kind)?;
    let is_one_each = jobs.len() == core.system().cpus().len();
    if !may_call(core, &goal) || !is_one_each || !all_fit(jobs.as_slice()) {
        return None;
    }
    Some(run_private(rt, alloc, core, goal, jobs, gate))
}

/// Whether this processor stored its word as WB before the update and loaded it as UC after it, and the word is
/// in memory, the processor's era is 1 and it has no line.
fn is_done(core: &Core, told: &[JobAnswers], k: u32) -> Option<bool> {
    let v = 0x2a_u64.saturating_add(k as u64);
    let answers = told.get(k as usize)?;
    let cpu = core.system().cpus().get(k as usize)?;
    let base = 0x10_0000u64.saturating_mul((k as u64).saturating_add(1));
    Some(
        answers.before.as_slice() == [Done::Stored(MemType::WB)].as_slice()
            && answers.after.as_slice() == [Done::Value(v, MemType::UC)].as_slice()
            && word(core.system().ram(), base)? == v
            && cpu.era() == 1
            && cpu.cache().len() == 0,
    )
}

/// Whether each of so many processors did its job.
fn are_done(core: &Core, told: &[JobAnswers], count: u32) -> bool {
    for k in 0..count {
        if is_done(core, told, k) != Some(true) {
            return false;
        }
    }
    told.len() == count as usize
}

/// So many processors store a word each, turn all memory to UC and load it.
fn store_and_load<R: Threads + Wait + Sync, G: Gate>(
    rt: &R,
    alloc: Global,
    count: u32,
    gate: &G,
) -> Option<bool> {
    let jobs = jobs_of(alloc, count)?;
    let mut core = own_core(alloc, count)?;
    match on_threads(rt, alloc, &mut core, 0, jobs, gate)? {
        Ok(told) => Some(are_done(&core, told.as_slice(), count)),
        Err(_) => None,
    }
}

/// Whether the gate was asked once of each processor from the refused one on, and told once at most of each behind it and of
/// no other. The last processor is started first, and whoever isn't started is shown the cancel before it takes.
fn stops_at(gate: &AllBut, refused: u32, count: u32) -> bool {
    gate.asked_each(refused..count, 1) && gate.told_at_most(refused.saturating_add(1)..count, 1)
}

// Whether a gate that refuses none was asked and told so often of each.
fn has_met(gate: &AllBut, count: u32, times: u64) -> bool {
    gate.asked_each(0..count, times) && gate.told_each(0..count, times)
}

#[test]
fn each_loads_what_it_stored(rt: HostRuntime) {
    for count in 1..=16 {
        for refused in first_refused(count)..=count {
            let gate = InOrder::new(&rt, refused);
            let done = store_and_load(&rt, rt.alloc(), count, &gate);
            succeeds_at(&rt, count as u64, done);
            holds_at(&rt, refused as u64, gate.is_kept());
            let met = if refused < count {
                stops_at(gate.starts(), refused, count)
            } else {
                has_met(gate.starts(), count, 1)
            };
            holds_at(&rt, refused as u64, met);
        }
    }
}

/// All calls of the gate see each other, so as many threads run at once. Two do so without accesses too.
#[test]
fn processors_meet(rt: HostRuntime) {
    for count in [2, 3, 16] {
        let gate = Meets::of(&rt, count);
        let done = store_and_load(&rt, rt.alloc(), count, &gate);
        succeeds_at(&rt, count as u64, done);
        holds_at(&rt, count as u64, gate.seen() == count as u64);
    }
    let gate = Meets::of(&rt, 2);
    let idle = Drawn {
        count: 2,
        kind: 6,
        accesses: 0,
        round: 0,
    };
    succeeds_at(&rt, 2, jobs_end_alike(&rt, rt.alloc(), idle, &gate));
    holds(&rt, gate.seen() == 2);
}

/// The next number of a row of draws. Its literals are short, since a long one takes half a minute to prove.
fn next(x: u64) -> u64 {
    x.wrapping_mul(69069).wrapping_add(12345)
}

/// A load or a store of a word of the own page, by a number.
fn op_of(x: u64) -> Op {
    let place = (x >> 16) % 512;
    let address = place.wrapping_mul(8).wrapping_add(0x1000);
    if (x >> 25) % 2 == 0 {
        Op::Load(address)
    } else {
        Op::Store(address, x)
    }
}

/// So many loads and stores, at most 64, by draws.
fn draws(alloc: Global, seed: u64, count: usize) -> Option<Vec<Op>> {
    let mut x = seed;
    let mut ops = [Op::Fence; 64];
    for i in 0..ops.len() {
        x = next(x);
        ops[i] = op_of(x);
    }
    ops.get(..count)?.to_vec(alloc).ok()
}

/// Jobs that are drawn: a number of accesses before and as many after for each processor, over memory of a type.
#[derive(Clone, Copy)]
struct Drawn {
    count: u32,
    kind: u64,
    accesses: usize,
    round: u64,
}

fn drawn_jobs(alloc: Global, drawn: Drawn) -> Option<Vec<Job>> {
    let mut jobs = Vec::new(alloc);
    for k in 0..drawn.count {
        let seed = drawn.round.wrapping_mul(32).wrapping_add(2 * k as u64);
        let before = draws(alloc, seed, drawn.accesses)?;
        let after = draws(alloc, seed.wrapping_add(1), drawn.accesses)?;
        if jobs.push(Job { before, after }).is_err() {
            return None;
        }
    }
    Some(jobs)
}

/// Whether a processor's accesses by the core's own calls are answered so.
fn are_answered(core: &mut Core, k: u32, ops: &[Op], answers: &[Done]) -> bool {
    if ops.len() != answers.len() {
        return false;
    }
    for i in 0..ops.len() {
        let op = ops[i];
        if !fits_op(op) || k as usize >= core.system().cpus().len() {
            return false;
        }
        if core.access(k, op) != answers[i] {
            return false;
        }
    }
    true
}

/// Whether one part of all jobs, one job after the other, is answered so by the core's own calls.
fn is_part_answered(core: &mut Core, jobs: &[Job], told: &[JobAnswers], part: Part) -> bool {
    if jobs.len() != told.len() || jobs.len() > 16 {
        return false;
    }
    for k in 0..jobs.len() {
        let is_so = match part {
            Part::Before => {
                are_answered(
                    core,
                    k as u32,
                    jobs[k].before.as_slice(),
                    told[k].before.as_slice(),
                )
            }
            Part::After => {
                are_answered(
                    core,
                    k as u32,
                    jobs[k].after.as_slice(),
                    told[k].after.as_slice(),
                )
            }
        };
        if !is_so {
            return false;
        }
    }
    true
}

/// Whether some processor's write-combining buffers aren't empty.
fn has_buffers(core: &Core) -> bool {
    for cpu in core.system().cpus() {
        if !cpu.buffers().lines().is_empty() {
            return true;
        }
    }
    false
}

/// Whether the jobs and the update by the core's own calls are answered so. Memory is of this type before; where that is WC,
/// buffers are left to the update.
fn answers_alike(core: &mut Core, jobs: &[Job], told: &[JobAnswers], kind: u64) -> bool {
    is_part_answered(core, jobs, told, Part::Before)
        && has_buffers(core) == (kind == 1)
        && update_alone(core, 4)
        && is_part_answered(core, jobs, told, Part::After)
}

/// Whether the jobs on threads are answered, and end, as by the core's own calls.
fn jobs_end_alike<R: Threads + Wait + Sync, G: Gate>(
    rt: &R,
    alloc: Global,
    drawn: Drawn,
    gate: &G,
) -> Option<bool> {
    let jobs = drawn_jobs(alloc, drawn)?;
    let again = drawn_jobs(alloc, drawn)?;
    let mut a = core_of(alloc, drawn.count, drawn.kind, Windows::Own)?;
    let mut b = core_of(alloc, drawn.count, drawn.kind, Windows::Own)?;
    let Ok(told) = on_threads(rt, alloc, &mut a, 4, jobs, gate)? else {
        return None;
    };
    let alike = told.len() == drawn.count as usize
        && answers_alike(&mut b, again.as_slice(), told.as_slice(), drawn.kind)
        && is_same_system(&a, &b);
    Some(alike && clears_masks(a))
}

/// Whether the masks of holders are kept, so that an update by the core's own calls clears those of sixteen caches. With fewer, the
/// bits of the processors that aren't there stay set after a run of jobs.
fn clears_masks(mut core: Core) -> bool {
    update_alone(&mut core, 6)
        && (core.system().cpus().len() < 16 || core.into_system().into_parts().holders.none(0x4030))
}

fn cached(count: u32, round: u64) -> Drawn {
    Drawn {
        count,
        kind: 6,
        accesses: 64,
        round,
    }
}

fn buffered(round: u64) -> Drawn {
    Drawn {
        count: 4,
        kind: 1,
        accesses: 64,
        round,
    }
}

#[test]
fn accesses_end_as_one_by_one(rt: HostRuntime) {
    for round in 0..50 {
        for drawn in [cached(16, round), buffered(round)] {
            succeeds_at(
                &rt,
                round,
                jobs_end_alike(&rt, rt.alloc(), drawn, &OpenGate),
            );
        }
    }
}

#[test]
fn refused_starts_end_as_one_by_one(rt: HostRuntime) {
    for k in 0..16 {
        let gate = AllBut::new(k);
        let alike = jobs_end_alike(&rt, rt.alloc(), cached(16, k as u64), &gate);
        succeeds_at(&rt, k as u64, alike);
        holds_at(&rt, k as u64, stops_at(&gate, k, 16));
    }
}

/// Processor 0's thread is started once processor 1 has arrived, so that one's accesses are made while this one waits.
#[test]
fn one_accesses_while_another_waits(rt: HostRuntime) {
    for round in 0..8 {
        let gate = OneFirst::new(&rt);
        let alike = jobs_end_alike(&rt, rt.alloc(), cached(2, round), &gate);
        succeeds_at(&rt, round, alike);
        holds_at(&rt, round, gate.has_seen());
    }
}

/// Whether one more run of a core's jobs is done, after so many of which each asked and told the gate once of each processor.
fn runs_again<R: Threads + Wait + Sync>(
    rt: &R,
    alloc: Global,
    core: &mut Core,
    count: u32,
    times: u64,
    gate: &AllBut,
) -> Option<bool> {
    let kind = if times % 2 == 0 { 6 } else { 4 };
    let jobs = jobs_of(alloc, count)?;
    let Ok(told) = on_threads(rt, alloc, core, kind, jobs, gate)? else {
        return None;
    };
    Some(told.len() == count as usize && has_met(gate, count, times))
}

#[test]
fn each_run_of_a_core_asks_and_tells_once(rt: HostRuntime) {
    for count in [1, 2, 3, 16] {
        let gate = AllBut::new(16);
        let mut core = some(&rt, own_core(rt.alloc(), count));
        for times in 1..=64 {
            let again = runs_again(&rt, rt.alloc(), &mut core, count, times, &gate);
            succeeds_at(&rt, times, again);
        }
    }
}

/// Whether two jobs aren't run for this reason, or are run if there is none.
fn is_refused<R: Threads + Wait + Sync>(
    rt: &R,
    alloc: Global,
    core: &mut Core,
    kind: u64,
    fault: Option<PrivateFault>,
) -> Option<bool> {
    let jobs = jobs_of(alloc, 2)?;
    match on_threads(rt, alloc, core, kind, jobs, &OpenGate)? {
        Ok(_told) => Some(fault.is_none()),
        Err(why) => Some(fault == Some(why)),
    }
}

/// An update under way comes before the goal's fault, and that before a page in common.
#[test]
fn refusals_come_in_order(rt: HostRuntime) {
    let alloc = rt.alloc();
    let mut own = some(&rt, own_core(alloc, 2));
    let mut common = some(&rt, core_of(alloc, 2, 6, Windows::Common));
    let mut begun = some(&rt, own_core(alloc, 2));
    holds(&rt, called(&mut begun, 4));
    holds(&rt, shared_page(&common) == Some(0x100));
    holds(&rt, shared_page(&some(&rt, own_core(alloc, 16))).is_none());
    let refused = Some(PrivateFault::Refused(Fault {
        msr: 0x200,
        reason: Reason::UnsupportedType,
    }));
    let shared = Some(PrivateFault::Shared(0x100));
    let under_way = Some(PrivateFault::UnderWay);
    succeeds_at(&rt, 0, is_refused(&rt, alloc, &mut begun, 4, under_way));
    succeeds_at(&rt, 1, is_refused(&rt, alloc, &mut begun, 2, under_way));
    succeeds_at(&rt, 2, is_refused(&rt, alloc, &mut own, 2, refused));
    succeeds_at(&rt, 3, is_refused(&rt, alloc, &mut common, 2, refused));
    succeeds_at(&rt, 4, is_refused(&rt, alloc, &mut common, 4, shared));
    succeeds_at(&rt, 5, is_refused(&rt, alloc, &mut own, 4, None));
}
