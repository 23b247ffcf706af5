//! The bus beside the machine over lists, in drawn runs of two processors through an update: each access returns the same, each step is
//! the same event, and at the end caches, buffers, TLBs and memory are the same.
ghost use Rattle.std.specs.Prelude.{◌<◌, ◌^◌, IsTrue, length};
ghost use Rattle.mt_machine.specs.Machine.{FitsOp};

use crate::checks::{holds_at, some};
use crate::common::{calls, file, pair};
use mt_cache::{Cache, CacheLine};
use mt_core::{Core, Stepped};
use mt_list_machine::{Cpu, map};
use mt_machine::{Control, Op, Ruled};
use mt_procedure::{
    Case, ListPlace, Mode, Move, Outcome, Procedure, ProcedureStep, State, advance,
};
use mt_ram::Ram;
use mt_tlb::Mapping;
use std::alloc::Global;

/// The manual's procedure.
const MANUAL: [ProcedureStep; 16] = [
    ProcedureStep::Take,
    ProcedureStep::Arrive(0),
    ProcedureStep::Wait {
        barrier: 0,
        count: 2,
    },
    ProcedureStep::SetCd,
    ProcedureStep::Wbinvd,
    ProcedureStep::ClearPge,
    ProcedureStep::ClearE,
    ProcedureStep::Write,
    ProcedureStep::Enable,
    ProcedureStep::Wbinvd,
    ProcedureStep::ReloadCr3,
    ProcedureStep::ClearCd,
    ProcedureStep::RestorePge,
    ProcedureStep::Arrive(1),
    ProcedureStep::Wait {
        barrier: 1,
        count: 2,
    },
    ProcedureStep::Release,
];

/// A number below a limit.
fn drawn(seed: &mut u64, limit: u64) -> u64
    requires { 0 < limit }
    ensures { result < limit }
{
    *seed = seed.wrapping_mul(6_364_136_223_846_793_005).wrapping_add(1);
    (*seed >> 33) % limit
}

/// A word of the first eight lines, by one of four pages that are mapped or one that isn't.
fn drawn_address(seed: &mut u64) -> u64 {
    0x1000 * (1 + drawn(seed, 5)) + 8 * drawn(seed, 64)
}

fn drawn_step(seed: &mut u64) -> ProcedureStep {
    let va = drawn_address(seed);
    match drawn(seed, 16) {
        0 => ProcedureStep::Access(Op::Fence),
        1 => ProcedureStep::Invlpg(va),
        2 => ProcedureStep::ReloadCr3,
        3 => ProcedureStep::Pge(drawn(seed, 2) == 0),
        4 => ProcedureStep::Cd(drawn(seed, 2) == 0),
        5 | 6 | 7 | 8 | 9 => ProcedureStep::Access(Op::Load(va)),
        _ => ProcedureStep::Access(Op::Store(va, *seed)),
    }
}

fn add_drawn(steps: &mut Vec<ProcedureStep>, seed: &mut u64) -> Option<()> {
    for _ in 0..40 {
        if steps.push(drawn_step(seed)).is_err() {
            return None;
        }
    }
    Some(())
}

/// Drawn instructions, the manual's procedure, and drawn instructions again.
fn drawn_list(alloc: Global, seed: &mut u64) -> Option<Procedure> {
    let mut steps = Vec::new(alloc);
    add_drawn(&mut steps, seed)?;
    if steps.extend_from_slice(&MANUAL).is_err() {
        return None;
    }
    add_drawn(&mut steps, seed)?;
    Some(Procedure { steps })
}

/// One of four pages of the window, each with another entry of the PAT: WB, WT and UC twice.
fn page(i: u8) -> Mapping
    requires { i < 4 }
    ensures index { result.index < 8 }
    ensures page { result.vpage < 2 ^ 36 }
{
    Mapping {
        vpage: 1 + i as u64,
        ppage: 0x100,
        index: i,
        global: i == 1,
    }
}

/// A processor with the four pages.
fn start_cpu(alloc: Global, kind: u64) -> Option<Cpu> {
    let mut cpu = Cpu::new(alloc, file(kind)?);
    for i in 0..4 {
        if map(&mut cpu, page(i)).is_err() {
            return None;
        }
    }
    Some(cpu)
}

/// Two lists, the window, and UC as the goal.
fn drawn_case(alloc: Global, seed: &mut u64) -> Option<Case> {
    let mut layout = Ram::new(alloc);
    if layout.add(0x10_0000, 64).is_err() {
        return None;
    }
    let lists = [drawn_list(alloc, seed)?, drawn_list(alloc, seed)?];
    Some(Case {
        mode: Mode {
            speculates: false,
            leaks: false,
            strict: false,
        },
        layout,
        starts: Vec::new(alloc),
        goal: file(0)?,
        lists: Vec::from_array(alloc, lists).ok()?,
    })
}

fn start(alloc: Global, kind: u64) -> Option<State> {
    let cpus = [start_cpu(alloc, kind)?, start_cpu(alloc, kind)?];
    let mut state = State::empty(alloc);
    state.cpus = Vec::from_array(alloc, cpus).ok()?;
    state.words = vec![in alloc; 0; 512].ok()?;
    state.places = vec![in alloc; ListPlace { step: 0, part: 0 }; 2].ok()?;
    state.arrived = vec![in alloc; 0; 8].ok()?;
    Some(state)
}

/// Maps one of the pages, if the processor is there.
fn maps(core: &mut Core, k: u32, i: u8) -> bool
    requires { i < 4 }
{
    let x = page(i);
    match core.system().cpus().get(k as usize) {
        Some(cpu) => x.ppage < cpu.regs().pages()
            && core.control(k, Control::Map(x)) == Ruled::Okay,
        None => false,
    }
}

/// Two processors with the four pages, and a call for UC with its go.
fn start_core(alloc: Global, kind: u64) -> Option<Core> {
    let mut core = pair(alloc, kind)?;
    for k in 0..2 {
        for i in 0..4 {
            if !maps(&mut core, k, i) {
                return None;
            }
        }
    }
    if calls(&mut core, &file(0)?) && core.go() {
        Some(core)
    } else {
        None
    }
}

fn fits(op: Op) -> bool
    ensures { IsTrue result → FitsOp op }
{
    match op {
        Op::Load(va) | Op::Store(va, _) => va % 8 == 0 && va < 1 << 48,
        Op::Fence => true,
    }
}

/// Whether an access of the core returns what a step returned.
fn accesses(core: &mut Core, k: u32, op: Op, outcome: Outcome) -> bool
    requires { k < length core.old.system.processors }
{
    fits(op) && matches!(outcome, Outcome::Accessed(done) if done == core.access(k, op))
}

/// Whether the core does what a step of processor `k` did.
fn follows(core: &mut Core, k: u32, done: &Move) -> bool {
    if k as usize >= core.system().cpus().len() {
        return false;
    }
    match (done.step, done.event) {
        (_, Some(event)) => core.step(k) == Stepped::Did(event),
        (ProcedureStep::Access(op), None) => accesses(core, k, op, done.outcome),
        (ProcedureStep::Invlpg(va), None) => core.control(k, Control::Invlpg(va)) == Ruled::Okay,
        (ProcedureStep::ReloadCr3, None) => core.control(k, Control::Cr3) == Ruled::Okay,
        (ProcedureStep::Pge(on), None) => core.control(k, Control::Pge(on)) == Ruled::Okay,
        (ProcedureStep::Cd(on), None) => core.control(k, Control::Cd(on)) == Ruled::Okay,
        (step, None) => matches!(step, ProcedureStep::Wait { .. }),
    }
}

fn are_lines(cache: &Cache, lines: &[CacheLine]) -> bool {
    if cache.len() != lines.len() {
        return false;
    }
    for i in 0..cache.len() {
        if *cache.nth(i) != lines[i] {
            return false;
        }
    }
    true
}

fn is_same(fast: &mt_cpu::Cpu, plain: &Cpu) -> bool {
    (fast.cd(), fast.pge(), fast.phase(), fast.era())
        == (plain.cd, plain.pge, plain.phase, plain.era)
        && are_lines(fast.cache(), plain.lines())
        && fast.buffers().lines() == plain.buffers()
        && fast.tlb().entries() == plain.entries()
}

fn are_words(ram: &Ram, words: &[u64]) -> bool {
    if ram.words() != words.len() {
        return false;
    }
    for i in 0..ram.words() {
        if ram.word(i) != words[i] {
            return false;
        }
    }
    true
}

fn are_same(core: &Core, state: &State) -> bool {
    match (core.system().cpus(), state.cpus.as_slice()) {
        ([a, b], [x, y]) => is_same(a, x)
            && is_same(b, y)
            && are_words(core.system().ram(), state.words.as_slice()),
        _ => false,
    }
}

/// How many steps were done in a drawn run. There is none if the core came to something else.
fn run(alloc: Global, kind: u64, first: u64) -> Option<u64> {
    let mut seed = first;
    let case = drawn_case(alloc, &mut seed)?;
    let mut state = start(alloc, kind)?;
    let mut core = start_core(alloc, kind)?;
    let mut count = 0u64;
    for _ in 0..400 {
        let k = drawn(&mut seed, 2) as u32;
        if let Some(done) = advance(&case, &mut state, k as usize).ok()? {
            if !follows(&mut core, k, &done) {
                return None;
            }
            count = count.saturating_add(1);
        }
    }
    if are_same(&core, &state) && state.has_ended(&case) {
        Some(count)
    } else {
        None
    }
}

#[test]
fn the_bus_does_as_lists_do(rt: HostRuntime) {
    for seed in 0..16 {
        let kind = [6, 1][(seed % 2) as usize];
        holds_at(&rt, seed, some(&rt, run(rt.alloc(), kind, seed)) > 190);
    }
}
