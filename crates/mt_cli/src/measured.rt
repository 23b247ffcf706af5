// Jobs for measurements around one update, and what they sum to.
ghost use Rattle.std.specs.Prelude.{◌≡◌, ◌<◌, ◌≤◌, [], IfOk, None, OnOk, length, map, replicate, vec_len};
ghost use Rattle.std.specs.List.{All, fold};
ghost use Rattle.mt_machine.specs.Machine.{FitsGoal, FitsOp};
ghost use Rattle.mt_machine.specs.Start.{start_machine};
ghost use Rattle.mt_core.specs.Rounds.{ascending};
ghost use Rattle.mt_private.specs.declared.job.Part.TheVariants.{Before, After};
ghost use Rattle.mt_private.specs.Jobs.{FitsJob, answers_in, ops_in};
ghost use Rattle.mt_private.specs.OneByOne.{AreOneByOne, jobs_one_by_one};
ghost use Rattle.mt_private.specs.Pages.{IsPrivate};
ghost use Rattle.mt_ram.specs.Windows.{refusal};
ghost use Rattle.mt_cli.specs.Measured.{IsSetUp, behind_ops, drawn_op, drawn_ops, file_of, measured_machine, measured_text, ops_after, ops_before, own_page, own_window, sums_text, value_of, values_from, with_own, words_sum};

use arrayvec::ArrayVec;
use mt_answers::{drawn, stepped};
use mt_core::Core;
use mt_machine::{Control, Done, Op};
use mt_output::{LineBuffer, append, append_value};
use mt_ports::{Gate, NoMemory};
use mt_private::{Caller, Job, JobAnswers, Part, PrivateFault, run_private_with};
use mt_ram::Ram;
use mt_regs::{RegFile, Register};
use mt_replay::add_window;
use mt_tlb::Mapping;
use std::alloc::Global;
use std::sync::Wait;
use std::thread::Threads;

fn drawn_op(x: u64) -> Op
    ensures value { result ≡ drawn_op x }
    ensures fits { FitsOp result }
{
    let behind = stepped(stepped(x));
    let address = 8 * drawn(behind, 512);
    if drawn(stepped(x), 4) < 2 {
        Op::Load(address)
    } else {
        Op::Store(address, behind)
    }
}

// Accesses, and the number behind them.
#[derive(Drop)]
struct Drawn {
    ops: Vec<Op>,
    x: u64,
}

fn drawn_ops(alloc: Global, first: u64, count: u32) -> Result<Drawn, NoMemory>
    ensures ops { IfOk result (λ d. d.ops.items ≡ drawn_ops count first) }
    ensures behind { IfOk result (λ d. d.x ≡ behind_ops count first) }
    ensures fits { IfOk result (λ d. All FitsOp d.ops.items) }
{
    let Ok(mut ops) = Vec::with_capacity(alloc, count as usize) else {
        return Err(NoMemory);
    };
    let mut x = first;
    for i in 0..count {
        ops.push_reserved(drawn_op(x));
        x = stepped(stepped(x));
    }
    Ok(Drawn { ops, x })
}

fn job_of(alloc: Global, first: u64, count: u32) -> Result<Job, NoMemory>
    ensures before { IfOk result (λ j. j.before.items ≡ drawn_ops count first) }
    ensures after { IfOk result (λ j. j.after.items ≡ drawn_ops count (behind_ops count first)) }
    ensures fits { IfOk result FitsJob }
{
    let before = drawn_ops(alloc, first, count)?;
    let after = drawn_ops(alloc, before.x, count)?;
    Ok(Job {
        before: before.ops,
        after: after.ops,
    })
}

// A job for each of so many processors.
fn jobs_of(alloc: Global, cpus: u32, n: u64, count: u32) -> Result<Vec<Job>, NoMemory>
    ensures before { IfOk result (λ jobs. map (ops_in Before) jobs.items ≡ map (ops_before n count) (ascending cpus)) }
    ensures after { IfOk result (λ jobs. map (ops_in After) jobs.items ≡ map (ops_after n count) (ascending cpus)) }
    ensures fits { IfOk result (λ jobs. All FitsJob jobs.items) }
    ensures count { IfOk result (λ jobs. length jobs.items ≡ cpus) }
{
    let Ok(mut jobs) = Vec::with_capacity(alloc, cpus as usize) else {
        return Err(NoMemory);
    };
    for k in 0..cpus {
        let Ok(job) = job_of(alloc, n.wrapping_add(k as u64), count) else {
            return Err(NoMemory);
        };
        jobs.push_reserved(job);
    }
    Ok(jobs)
}

fn value_of(done: &Done) -> u64
    ensures { result ≡ value_of done.now }
{
    match *done {
        Done::Value(value, _) => value,
        _ => 0,
    }
}

fn values_from(sum: u64, answers: &[Done]) -> u64
    ensures { result ≡ values_from sum answers.now }
{
    answers
        .iter()
        .fold(sum, |sum, done| sum.wrapping_add(value_of(done)))
}

// With the values of one part of each job.
fn all_values_from(sum: u64, part: Part, told: &[JobAnswers]) -> u64
    ensures { result ≡ fold (λ s t. values_from s (answers_in part t)) sum told.now }
{
    told.iter()
        .fold(sum, |sum, told| values_of_part(sum, part, told))
}

fn values_of_part(sum: u64, part: Part, told: &JobAnswers) -> u64
    ensures { result ≡ values_from sum (answers_in part told.now) }
{
    match part {
        Part::Before => values_from(sum, told.before.as_slice()),
        Part::After => values_from(sum, told.after.as_slice()),
    }
}

// The sum of all words of memory.
fn words_sum(ram: &Ram) -> u64
    ensures { result ≡ words_sum ram.now.words }
{
    let mut sum: u64 = 0;
    for i in 0..ram.words() {
        sum = sum.wrapping_add(ram.word(i));
    }
    sum
}

// Registers that give memory below 4 GB a type, over UC.
fn file_of(kind: u64) -> RegFile
    ensures { result ≡ file_of kind }
{
    let mut file = RegFile::blank(36, 0x508).unwrap();
    file.put(Register::PhysBase(0), kind);
    file.put(Register::PhysMask(0), 0xf_0000_0800);
    file.put(Register::DefaultType, 0x800);
    file
}

fn own_page(k: u32) -> Mapping
    ensures { result ≡ own_page k }
{
    Mapping {
        vpage: 0,
        ppage: 0x100 * k as u64,
        index: 0,
        global: false,
    }
}

// Adds the window and the mapping of processor k. Fails only if an allocation fails.
fn add_own(core: &mut Core, k: u32) -> Result<(), NoMemory>
    requires processor { k < length core.old.system.processors }
    requires few { k < 16 }
    requires kind { All (FitsGoal (file_of 4)) core.old.system.processors }
    requires room { refusal core.old.system.memory.windows (own_window k) ≡ None }
    ensures added { OnOk result (core.new ≡ with_own core.old k) }
{
    let Ok(()) = add_window(core, 0x10_0000 * k as u64, 64) else {
        return Err(NoMemory);
    };
    core.control(k, Control::Map(own_page(k)));
    Ok(())
}

// So many processors at the start, without memory.
fn bare_core(alloc: Global, cpus: u32) -> Result<Core, NoMemory>
    requires some { 0 < cpus }
    requires few { cpus ≤ 16 }
    ensures { IfOk result (λ core. core ≡ start_machine (replicate cpus (file_of 6)) []) }
{
    let file = file_of(6);
    let files = file.copies(cpus);
    Core::start(alloc, files.as_slice())
}

// So many processors, each with a page of its own.
fn measured_core(alloc: Global, cpus: u32) -> Result<Core, NoMemory>
    requires some { 0 < cpus }
    requires few { cpus ≤ 16 }
    ensures machine { IfOk result (λ core. core ≡ measured_machine cpus) }
    ensures set_up { IfOk result (IsSetUp cpus) }
    ensures private { IfOk result (λ core. IsPrivate core.system) }
{
    let Ok(mut core) = bare_core(alloc, cpus) else {
        return Err(NoMemory);
    };
    for k in 0..cpus {
        let Ok(()) = add_own(&mut core, k) else {
            return Err(NoMemory);
        };
    }
    Ok(core)
}

// The text of both sums.
fn sums_text(values: u64, memory: u64) -> LineBuffer
    ensures { result.items ≡ sums_text values memory }
{
    let mut text = ArrayVec::new();
    append(&mut text, b"values ");
    append_value(&mut text, values);
    append(&mut text, b"\nmemory ");
    append_value(&mut text, memory);
    append(&mut text, b"\n");
    text
}

// The error of jobs that nothing but a failed allocation stops.
fn no_memory(fault: PrivateFault) -> NoMemory
    requires { fault ≡ PrivateFault.NoMemory }
{
    match fault {
        PrivateFault::NoMemory => NoMemory,
        _ => unreachable!(),
    }
}

// The jobs, and an update between.
fn run_jobs<R: Threads + Wait + Sync, G: Gate>(
    caller: &Caller<R, G>,
    alloc: Global,
    core: &mut Core,
    jobs: Vec<Job>,
) -> Result<Vec<JobAnswers>, NoMemory>
    requires some { 0 < vec_len jobs }
    requires set_up { IsSetUp (vec_len jobs) core.old }
    requires private { IsPrivate core.old.system }
    requires addresses { All FitsJob jobs.items }
    ensures { IfOk result (λ told. AreOneByOne (jobs_one_by_one core.old.system (file_of 4) jobs.items) core.new told.items) }
{
    let goal = file_of(4);
    match run_private_with(caller, alloc, core, goal, jobs) {
        Ok(told) => Ok(told),
        Err(fault) => Err(no_memory(fault)),
    }
}

fn memory_sum(core: &Core) -> u64
    ensures { result ≡ words_sum core.now.system.memory.words }
{
    words_sum(core.system().ram())
}

// The sums of these answers, and of the memory's words.
fn told_text(core: &Core, told: &[JobAnswers]) -> LineBuffer
    ensures { let before = fold (λ s t. values_from s (answers_in Before t)) 0 told.now in
        result.items ≡ sums_text (fold (λ s t. values_from s (answers_in After t)) before told.now) (words_sum core.now.system.memory.words) }
{
    let before = all_values_from(0, Part::Before, told);
    let values = all_values_from(before, Part::After, told);
    sums_text(values, memory_sum(core))
}

/// What the jobs that three numbers determine load, and what memory holds at the end: their sums modulo 2^64.
pub fn measured_text<R: Threads + Wait + Sync, G: Gate>(
    caller: &Caller<R, G>,
    alloc: Global,
    cpus: u32,
    n: u64,
    accesses: u32,
) -> Result<LineBuffer, NoMemory>
    requires some { 0 < cpus }
    requires few { cpus ≤ 16 }
    ensures { IfOk result (λ text. text.items ≡ measured_text cpus n accesses) }
{
    let mut core = measured_core(alloc, cpus)?;
    let jobs = jobs_of(alloc, cpus, n, accesses)?;
    let told = run_jobs(caller, alloc, &mut core, jobs)?;
    Ok(told_text(&core, told.as_slice()))
}
