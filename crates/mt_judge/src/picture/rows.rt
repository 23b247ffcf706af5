ghost use Rattle.std.specs.Prelude.{◌≡◌, ◌++◌, ◌∷◌, [], IfOk, List, OnOk, map};
ghost use Rattle.std.specs.List.{fold};
ghost use Rattle.mt_procedure.specs.Runs.{Case as CaseValue, State as StateValue, run};
ghost use Rattle.mt_procedure.specs.declared.turn.Turn.{Turn as TurnValue};
ghost use Rattle.mt_judge.specs.declared.transcript.Transcript.{Transcript as TranscriptValue};
ghost use Rattle.mt_judge.specs.Told.{IsTranscript};
ghost use Rattle.mt_judge.specs.Rows.{held_by, held_line, lane_of, row_of, rows_behind, rows_of, state_behind, turn_told, turns_told};

use crate::transcript::Told;
use mt_cache::CacheLine;
use mt_kinds::MemType;
use mt_list_machine::{Cpu, copied};
use mt_machine::Phase;
use mt_ports::NoMemory;
use mt_procedure::{Case, State, Turn, take};
use mt_regs::RegFile;
use mt_tlb::Entry;
use std::alloc::Global;
use std::marker::Model;

/// What a processor holds. Lines are numbers of physical memory, pages those of virtual addresses.
#[derive(Clone, Copy, PartialEq, Eq)]
pub enum Held {
    CleanLine(u64),
    DirtyLine(u64),
    Buffer(u64),
    Entry(u64, MemType),
}

/// How a processor stands, and what it holds.
#[derive(Drop)]
pub struct Lane {
    pub phase: Phase,
    /// CR0.CD is set.
    pub no_fill: bool,
    /// CR4.PGE is set.
    pub global: bool,
    pub file: RegFile,
    pub held: Vec<Held>,
}

impl Model for Lane {
    ghost use Rattle.mt_judge.specs.Rows.{Lane as LaneValue};

    ghost Value = { LaneValue };

    ghost view = { λ l. record { phase = l.phase; no_fill = l.no_fill; global = l.global; file = l.file; held = l.held.items } };
}

/// The processors behind a line of a transcript, how many have arrived at each barrier, and memory's words.
#[derive(Drop)]
pub struct Row {
    pub lanes: Vec<Lane>,
    pub arrived: Vec<u32>,
    pub words: Vec<u64>,
}

impl Model for Row {
    ghost use Rattle.mt_judge.specs.Rows.{Row as RowValue};

    ghost Value = { RowValue };

    ghost view = { λ r. record { lanes = r.lanes.items; arrived = r.arrived.items; words = r.words.items } };
}

fn held_line(line: &CacheLine) -> Held
    ensures { result ≡ held_line line.now }
{
    if line.dirty == 0 {
        Held::CleanLine(line.number)
    } else {
        Held::DirtyLine(line.number)
    }
}

fn hold(held: &mut Vec<Held>, more: Held) -> Result<(), NoMemory>
    ensures { OnOk result (held.new.items ≡ held.old.items ++ more ∷ []) }
{
    match held.push(more) {
        Ok(()) => Ok(()),
        Err(_) => Err(NoMemory),
    }
}

fn hold_lines(held: &mut Vec<Held>, lines: &[CacheLine]) -> Result<(), NoMemory>
    ensures { OnOk result (held.new.items ≡ held.old.items ++ map held_line lines.now) }
{
    for line in lines {
        hold(held, held_line(line))?;
    }
    Ok(())
}

fn hold_buffers(held: &mut Vec<Held>, buffers: &[CacheLine]) -> Result<(), NoMemory>
    ensures { OnOk result (held.new.items ≡ held.old.items ++ map (λ b. Held.Buffer b.number) buffers.now) }
{
    for buffer in buffers {
        hold(held, Held::Buffer(buffer.number))?;
    }
    Ok(())
}

fn hold_entries(held: &mut Vec<Held>, entries: &[Entry]) -> Result<(), NoMemory>
    ensures { OnOk result (held.new.items ≡ held.old.items ++ map (λ e. Held.Entry e.vpage e.kind) entries.now) }
{
    for entry in entries {
        hold(held, Held::Entry(entry.vpage, entry.kind))?;
    }
    Ok(())
}

// What a processor holds: the lines of its cache, its write-combining buffers, and its TLB entries.
fn held_by(alloc: Global, cpu: &Cpu) -> Result<Vec<Held>, NoMemory>
    ensures { IfOk result (λ h. h.items ≡ held_by cpu.now) }
{
    let mut held = Vec::new(alloc);
    hold_lines(&mut held, cpu.lines())?;
    hold_buffers(&mut held, cpu.buffers())?;
    hold_entries(&mut held, cpu.entries())?;
    Ok(held)
}

fn lane_of(alloc: Global, cpu: &Cpu) -> Result<Lane, NoMemory>
    ensures { IfOk result (λ l. l ≡ lane_of cpu.now) }
{
    let held = held_by(alloc, cpu)?;
    Ok(Lane {
        phase: cpu.phase,
        no_fill: cpu.cd(),
        global: cpu.pge,
        file: cpu.regs.same(),
        held,
    })
}

fn lanes_of(alloc: Global, cpus: &[Cpu]) -> Result<Vec<Lane>, NoMemory>
    ensures { IfOk result (λ l. l.items ≡ map lane_of cpus.now) }
{
    let mut lanes = Vec::new(alloc);
    for cpu in cpus {
        let lane = lane_of(alloc, cpu)?;
        if lanes.push(lane).is_err() {
            return Err(NoMemory);
        }
    }
    Ok(lanes)
}

fn row_of(alloc: Global, state: &State) -> Result<Row, NoMemory>
    ensures { IfOk result (λ r. r ≡ row_of state.now) }
{
    Ok(Row {
        lanes: lanes_of(alloc, state.cpus.as_slice())?,
        arrived: copied(alloc, state.arrived.as_slice())?,
        words: copied(alloc, state.words.as_slice())?,
    })
}

/// The turn of a line of a transcript.
pub(crate) fn turn_told(told: &Told) -> Option<Turn>
    ensures { result ≡ turn_told told.now }
{
    match told {
        Told::Step(step) => Some(Turn::Step(step.done.cpu)),
        Told::Speculation(told) => Some(told.turn),
        Told::Pause { .. } | Told::Idle { .. } | Told::Unfinished { .. } => None,
    }
}

// Goes from a state to the one behind a line.
fn go_behind(case: &Case, state: &mut State, told: &Told) -> Result<(), NoMemory>
    ensures { OnOk result (state.new ≡ state_behind case.now state.old told.now) }
{
    match turn_told(told) {
        Some(turn) if state.may_take(case, turn) => {
            take(case, state, turn)?;
        }
        _ => {}
    }
    Ok(())
}

fn add_row(rows: &mut Vec<Row>, alloc: Global, state: &State) -> Result<(), NoMemory>
    ensures { OnOk result (rows.new.items ≡ rows.old.items ++ row_of state.now ∷ []) }
{
    let row = row_of(alloc, state)?;
    match rows.push(row) {
        Ok(()) => Ok(()),
        Err(_) => Err(NoMemory),
    }
}

/// The state behind all lines of a transcript.
pub(crate) fn end_of(
    alloc: Global,
    case: &Case,
    start: &State,
    told: &[Told],
) -> Result<State, NoMemory>
    ensures { IfOk result (λ s. s ≡ fold (state_behind case.now) start.now told.now) }
{
    let mut state = start.copy(alloc)?;
    for line in told {
        go_behind(case, &mut state, line)?;
    }
    Ok(state)
}

/// The row of a run's start, and one for each line of its transcript.
pub(crate) fn rows_of(
    alloc: Global,
    case: &Case,
    start: &State,
    told: &[Told],
) -> Result<Vec<Row>, NoMemory>
    ensures { IfOk result (λ r. r.items ≡ rows_of case.now start.now told.now) }
{
    let mut state = start.copy(alloc)?;
    let mut rows = Vec::new(alloc);
    add_row(&mut rows, alloc, &state)?;
    for line in told {
        go_behind(case, &mut state, line)?;
        add_row(&mut rows, alloc, &state)?;
    }
    Ok(rows)
}

/// The lines of a transcript have the turns of its run, and the last row is that of the run's end.
#[tactic(auto, using(crate::proofs::Rowing::rows_follow))]
pub fn rows_follow_the_run()
    ensures turns { (c : CaseValue) (s : StateValue) (ts : List TurnValue) (t : TranscriptValue) → IsTranscript c s ts t → turns_told t.told.items ≡ ts }
    ensures end { (c : CaseValue) (s : StateValue) (ts : List TurnValue) (t : TranscriptValue) → IsTranscript c s ts t → fold (state_behind c) s t.told.items ≡ run c s ts }
{}
