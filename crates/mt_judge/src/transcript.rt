ghost use Rattle.std.specs.Prelude.{◌≡◌, ◌↔◌, ◌∷◌, ◌++◌, ◌/◌, [], cond, IfOk, IfSome, IsTrue, OnOk, slice_get};
ghost use Rattle.std.specs.Option.{option_map_or};
ghost use Rattle.mt_machine.specs.Access.{entry_of};
ghost use Rattle.mt_judge.specs.Told.{AreTold, AreToldBehind, IsRightTold, TellsSpeculation, TellsStep, arrived_in, fetch_hindrance, fill_hindrance, has_line, hindrance_of, kind_in, kind_of, translation_hindrance};

use mt_kinds::{LINE_BYTES, MemType};
use mt_list_machine::{Cpu, is_cached};
use mt_machine::{Event, Phase};
use mt_ports::NoMemory;
use mt_procedure::{
    Case, Move, PAGE_LINES, ProcedureStep, State, Turn, due_at, has_arrived, has_arrived_again,
    phase_in,
};
use mt_search::{Fault, Wrong, fault_of, wrongs_of};
use mt_tlb::Entry;
use std::alloc::Global;

/// The pages below the end of the physical addresses.
const PHYSICAL_PAGES: u64 = 1 << 40;

/// How many processors have arrived at the two barriers, and how many there are.
#[derive(Clone, Copy)]
pub struct Arrivals {
    pub first: usize,
    pub second: usize,
    pub of: usize,
}

/// A step that was done, as it is printed.
#[derive(Drop)]
pub struct ToldStep {
    pub done: Move,
    /// Before the step.
    pub arrived: Arrivals,
    pub fault: Option<Fault>,
    /// What is wrong in the state after it.
    pub wrongs: Vec<Wrong>,
}

/// What a processor did by itself, as it is printed.
#[derive(Drop)]
pub struct ToldSpeculation {
    pub turn: Turn,
    /// The type of the page's TLB entry, which may be new.
    pub kind: Option<MemType>,
    /// What is wrong in the state after it.
    pub wrongs: Vec<Wrong>,
}

/// Why a speculation may not be made.
#[derive(Clone, Copy)]
pub enum Hindrance {
    /// The processor doesn't map the page.
    Unmapped,
    /// Its TLB has an entry of the page.
    HasEntry,
    /// CR0.CD is set.
    NoFill,
    /// The entry's type isn't cached.
    Uncached(MemType),
    /// Memory has no such line.
    NoLine,
    /// The processor's cache has the line.
    HasLine,
}

/// What is printed in the course of a run.
#[derive(Drop)]
pub enum Told {
    Step(ToldStep),
    Speculation(ToldSpeculation),
    /// A processor doesn't go on: it waits at this step, or its list has ended.
    Pause {
        cpu: usize,
        step: Option<ProcedureStep>,
    },
    /// This speculation may not be made.
    Idle {
        turn: Turn,
        why: Hindrance,
    },
    /// The list of a processor has ended in the midst of an update.
    Unfinished {
        cpu: usize,
        phase: Phase,
        due: Option<Event>,
        arrived: Arrivals,
    },
}

/// A run as it is printed: what is wrong at its start, and what is told in its course.
#[derive(Drop)]
pub struct Transcript {
    pub start: Vec<Wrong>,
    pub told: Vec<Told>,
}

fn one_if(test: bool) -> usize
    ensures { result ≡ cond test 1 0 }
{
    if test { 1 } else { 0 }
}

fn count_arrived(cpus: &[Cpu]) -> Arrivals
    ensures { result ≡ arrived_in cpus.now }
{
    let mut first = 0;
    let mut second = 0;
    for cpu in cpus {
        first += one_if(has_arrived(cpu));
        second += one_if(has_arrived_again(cpu));
    }
    Arrivals {
        first,
        second,
        of: cpus.len(),
    }
}

/// How many have arrived at the barriers in a state.
pub(crate) fn arrived_in(state: &State) -> Arrivals
    ensures { result ≡ arrived_in state.now.processors }
{
    count_arrived(state.cpus.as_slice())
}

/// What is told of a step that was done, by the states before and after it.
pub(crate) fn told_step(
    alloc: Global,
    case: &Case,
    before: &State,
    done: Move,
    after: &State,
) -> Result<ToldStep, NoMemory>
    ensures { IfOk result (λ t. TellsStep case.now before.now done after.now t) }
{
    Ok(ToldStep {
        done,
        arrived: arrived_in(before),
        fault: fault_of(before, &done),
        wrongs: wrongs_of(alloc, case, after)?,
    })
}

fn kind_in(cpus: &[Cpu], k: usize, page: u64) -> Option<MemType>
    ensures { result ≡ kind_in cpus.now k page }
{
    match cpus.get(k) {
        Some(cpu) => match cpu.entry_of(page) {
            Some(entry) => Some(entry.kind),
            None => None,
        },
        None => None,
    }
}

/// The type of the TLB entry by which a speculation is made.
pub(crate) fn kind_of(state: &State, turn: Turn) -> Option<MemType>
    ensures { result ≡ kind_of state.now turn }
{
    let cpus = state.cpus.as_slice();
    match turn {
        Turn::Step(_) => None,
        Turn::Translate(k, page) => kind_in(cpus, k, page),
        Turn::Fetch(k, line) => kind_in(cpus, k, line / PAGE_LINES),
    }
}

/// What is told of a speculation, by the states before and after it.
pub(crate) fn told_speculation(
    alloc: Global,
    case: &Case,
    before: &State,
    turn: Turn,
    after: &State,
) -> Result<ToldSpeculation, NoMemory>
    ensures { IfOk result (λ x. TellsSpeculation case.now before.now turn after.now x) }
{
    Ok(ToldSpeculation {
        turn,
        kind: kind_of(before, turn),
        wrongs: wrongs_of(alloc, case, after)?,
    })
}

// Whether memory has the line of a page.
fn has_line(case: &Case, ppage: u64, line: u64) -> bool
    ensures { result ≡ has_line case.now.layout ppage line }
{
    ppage < PHYSICAL_PAGES
        && {
            let number = PAGE_LINES * ppage + line % PAGE_LINES;
            case.layout.place(LINE_BYTES * number).is_some()
        }
}

// Why a line isn't filled by an entry.
fn fill_hindrance(case: &Case, entry: &Entry, line: u64) -> Hindrance
    ensures { result ≡ fill_hindrance case.now.layout line entry.now }
{
    if !is_cached(entry.kind) {
        Hindrance::Uncached(entry.kind)
    } else if has_line(case, entry.ppage, line) {
        Hindrance::HasLine
    } else {
        Hindrance::NoLine
    }
}

fn entry_hindrance(case: &Case, cpu: &Cpu, line: u64) -> Hindrance
    ensures { result ≡ option_map_or (fill_hindrance case.now.layout line) (entry_of cpu.now (line / 64)) Hindrance.Unmapped }
{
    match cpu.entry_of(line / PAGE_LINES) {
        Some(entry) => fill_hindrance(case, &entry, line),
        None => Hindrance::Unmapped,
    }
}

fn fetch_hindrance(case: &Case, cpu: &Cpu, line: u64) -> Hindrance
    ensures { result ≡ fetch_hindrance case.now line cpu.now }
{
    if cpu.mapping_of(line / PAGE_LINES).is_none() {
        Hindrance::Unmapped
    } else if !case.mode.leaks && cpu.cd() {
        Hindrance::NoFill
    } else {
        entry_hindrance(case, cpu, line)
    }
}

fn translation_hindrance(cpu: &Cpu, page: u64) -> Hindrance
    ensures { result ≡ translation_hindrance page cpu.now }
{
    if cpu.mapping_of(page).is_none() {
        Hindrance::Unmapped
    } else {
        Hindrance::HasEntry
    }
}

fn translation_at(cpus: &[Cpu], k: usize, page: u64) -> Hindrance
    ensures { result ≡ option_map_or (translation_hindrance page) (slice_get cpus.now k) Hindrance.Unmapped }
{
    if k < cpus.len() {
        translation_hindrance(&cpus[k], page)
    } else {
        Hindrance::Unmapped
    }
}

fn fetch_at(case: &Case, cpus: &[Cpu], k: usize, line: u64) -> Hindrance
    ensures { result ≡ option_map_or (fetch_hindrance case.now line) (slice_get cpus.now k) Hindrance.Unmapped }
{
    if k < cpus.len() {
        fetch_hindrance(case, &cpus[k], line)
    } else {
        Hindrance::Unmapped
    }
}

// Why a speculation may not be made, if it may not.
fn hindrance_of(case: &Case, state: &State, turn: Turn) -> Hindrance
    ensures { result ≡ hindrance_of case.now state.now turn }
{
    let cpus = state.cpus.as_slice();
    match turn {
        Turn::Step(_) => Hindrance::Unmapped,
        Turn::Translate(k, page) => translation_at(cpus, k, page),
        Turn::Fetch(k, line) => fetch_at(case, cpus, k, line),
    }
}

impl ToldSpeculation {
    /// Whether nothing is wrong behind it.
    pub(crate) fn is_right(&self) -> bool
        ensures { IsTrue result ↔ self.now.wrongs.items ≡ [] }
    {
        self.wrongs.is_empty()
    }
}

impl ToldStep {
    /// Whether the step is due, has no fault, and leaves nothing wrong.
    pub(crate) fn is_right(&self) -> bool
        ensures { IsTrue result ↔ IsRightTold self.now }
    {
        self.done.is_due() && self.fault.is_none() && self.wrongs.is_empty()
    }
}

/// Tells something more.
pub(crate) fn tell(told: &mut Vec<Told>, more: Told) -> Result<(), NoMemory>
    ensures { OnOk result (told.new.items ≡ told.old.items ++ more ∷ []) }
{
    match told.push(more) {
        Ok(()) => Ok(()),
        Err(_) => Err(NoMemory),
    }
}

/// Tells where a processor stands if it can't go on.
#[tactic(auto, using(crate::proofs::Courses::nothing_told))]
fn tell_wait(told: &mut Vec<Told>, case: &Case, state: &State, k: usize) -> Result<(), NoMemory>
    ensures { OnOk result (AreToldBehind case.now state.now [] told.old.items told.new.items) }
{
    if state.may_go(case, k) {
        return Ok(());
    }
    let step = case.step_at(state, k);
    tell(told, Told::Pause { cpu: k, step })
}

/// Tells why a turn can't be taken.
#[tactic(auto, using(crate::proofs::Courses::nothing_told))]
pub(crate) fn tell_pause(
    told: &mut Vec<Told>,
    case: &Case,
    state: &State,
    turn: Turn,
) -> Result<(), NoMemory>
    ensures { OnOk result (AreToldBehind case.now state.now [] told.old.items told.new.items) }
{
    match turn {
        Turn::Step(k) => tell_wait(told, case, state, k),
        Turn::Translate(..) | Turn::Fetch(..) => if state.may_take(case, turn) {
            Ok(())
        } else {
            let why = hindrance_of(case, state, turn);
            tell(told, Told::Idle { turn, why })
        },
    }
}

// The same, if its list hasn't ended.
#[tactic(auto, using(crate::proofs::Courses::nothing_told))]
fn tell_rest(told: &mut Vec<Told>, case: &Case, state: &State, k: usize) -> Result<(), NoMemory>
    ensures { OnOk result (AreToldBehind case.now state.now [] told.old.items told.new.items) }
{
    if case.step_at(state, k).is_some() {
        tell_wait(told, case, state, k)
    } else {
        Ok(())
    }
}

/// Tells which processors don't go on, though their lists haven't ended.
pub(crate) fn tell_pauses(told: &mut Vec<Told>, case: &Case, state: &State) -> Result<(), NoMemory>
    ensures { OnOk result (AreToldBehind case.now state.now [] told.old.items told.new.items) }
{
    for k in 0..state.count() {
        tell_rest(told, case, state, k)?;
    }
    Ok(())
}

/// What is told of a processor if its list has ended in the midst of an update.
pub(crate) fn end_at(case: &Case, state: &State, k: usize) -> Option<Told>
    ensures { IfSome result (λ t. AreTold case.now state.now [] (t ∷ [])) }
{
    let cpus = state.cpus.as_slice();
    if k < cpus.len() && state.is_unfinished(case, k) {
        Some(Told::Unfinished {
            cpu: k,
            phase: phase_in(cpus, k),
            due: due_at(cpus, k),
            arrived: arrived_in(state),
        })
    } else {
        None
    }
}

#[tactic(auto, using(crate::proofs::Courses::nothing_told))]
fn tell_end(told: &mut Vec<Told>, case: &Case, state: &State, k: usize) -> Result<(), NoMemory>
    ensures { OnOk result (AreToldBehind case.now state.now [] told.old.items told.new.items) }
{
    match end_at(case, state, k) {
        Some(end) => tell(told, end),
        None => Ok(()),
    }
}

/// Tells which lists have ended in the midst of an update.
pub(crate) fn tell_ends(told: &mut Vec<Told>, case: &Case, state: &State) -> Result<(), NoMemory>
    ensures { OnOk result (AreToldBehind case.now state.now [] told.old.items told.new.items) }
{
    for k in 0..state.count() {
        tell_end(told, case, state, k)?;
    }
    Ok(())
}
