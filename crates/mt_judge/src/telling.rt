use crate::judging::{Explored, ToldSurvival, Verdict};
use crate::text::Text;
use crate::transcript::{Arrivals, Hindrance, Told, ToldSpeculation, ToldStep, Transcript, end_at};
use mt_kinds::{LINE_BYTES, MemType, PAGE_BYTES, WORD_BYTES};
use mt_machine::{Done, Event, Op, Phase};
use mt_ports::NoMemory;
use mt_procedure::{Case, Move, Outcome, ProcedureStep, State, Turn};
use mt_regs::RegFile;
use mt_search::{Fault, Found, Wrong};
use std::alloc::Global;

fn tell_numbers(text: &mut Text, barrier: u32, count: u32) {
    text.add_decimal(" ", barrier as u64);
    text.add_decimal(" ", count as u64);
}

fn tell_values(text: &mut Text, va: u64, v: u64) {
    text.add_hex(" ", va, 1);
    text.add_hex(" ", v, 1);
}

/// Writes the words of a step, as a procedure has them.
pub(crate) fn tell_step(text: &mut Text, step: ProcedureStep) {
    text.add(step.word());
    match step {
        ProcedureStep::Arrive(barrier) => text.add_decimal(" ", barrier as u64),
        ProcedureStep::Wait { barrier, count } => tell_numbers(text, barrier, count),
        ProcedureStep::Access(Op::Load(va)) | ProcedureStep::Invlpg(va) => text.add_hex(" ", va, 1),
        ProcedureStep::Access(Op::Store(va, v)) => tell_values(text, va, v),
        ProcedureStep::Pge(on) | ProcedureStep::Cd(on) => text.add(if on { " on" } else { " off" }),
        ProcedureStep::Take
        | ProcedureStep::SetCd
        | ProcedureStep::Wbinvd
        | ProcedureStep::Invd
        | ProcedureStep::ClearPge
        | ProcedureStep::ReloadCr3
        | ProcedureStep::ClearE
        | ProcedureStep::Write
        | ProcedureStep::Enable
        | ProcedureStep::ClearCd
        | ProcedureStep::RestorePge
        | ProcedureStep::Release
        | ProcedureStep::Access(Op::Fence) => {}
    }
}

/// Writes a type, with words before it.
pub(crate) fn tell_type(text: &mut Text, front: &str, kind: MemType) {
    text.add(front);
    text.add(kind.name());
}

fn tell_value(text: &mut Text, v: u64, kind: MemType) {
    text.add_hex(" value ", v, 16);
    tell_type(text, " ", kind);
}

fn tell_done(text: &mut Text, done: Done) {
    match done {
        Done::Value(v, kind) => tell_value(text, v, kind),
        Done::Stored(kind) => tell_type(text, " stored ", kind),
        Done::Fenced => {}
        Done::Unmapped => text.add(" unmapped"),
        Done::NoRam => text.add(" no ram"),
        Done::Busy => text.add(" busy"),
    }
}

fn tell_outcome(text: &mut Text, outcome: Outcome) {
    match outcome {
        Outcome::Nothing => {}
        Outcome::Accessed(done) => tell_done(text, done),
    }
}

fn tell_word(text: &mut Text, address: u64, value: u64) {
    text.add_hex(" word ", address, 13);
    text.add_hex(" ", value, 16);
}

// What a step of several events did.
fn tell_event(text: &mut Text, goal: &RegFile, event: Option<Event>) {
    match event {
        Some(Event::WriteBack { address, value }) => tell_word(text, address, value),
        Some(Event::DropLines) => text.add(" lines"),
        Some(Event::Write(i)) => match goal.register(i) {
            Some(msr) => text.add_hex(" ", msr as u64, 3),
            None => {}
        },
        _ => {}
    }
}

// Writes the line of a step that was done.
fn tell_move(text: &mut Text, goal: &RegFile, m: &Move) {
    text.add_decimal("", m.cpu as u64);
    text.add(" ");
    tell_step(text, m.step);
    tell_event(text, goal, m.event);
    tell_outcome(text, m.outcome);
    text.add("\n");
}

// The step of a procedure that an event is, in a phase. No list has a step that leaves the update.
fn step_of(event: Event, phase: Phase) -> Option<ProcedureStep> {
    Some(match event {
        Event::Take => ProcedureStep::Take,
        Event::Arrive | Event::ArriveAgain => ProcedureStep::Arrive(0),
        Event::Leave => return None,
        Event::Pass => ProcedureStep::Wait {
            barrier: 0,
            count: 1,
        },
        Event::SetNoFill => ProcedureStep::SetCd,
        Event::WriteBack { .. } | Event::DropLines => ProcedureStep::Wbinvd,
        Event::FlushTlb if phase == Phase::Flushed2 => ProcedureStep::ReloadCr3,
        Event::FlushTlb => ProcedureStep::ClearPge,
        Event::Disable => ProcedureStep::ClearE,
        Event::Write(_) => ProcedureStep::Write,
        Event::Enable => ProcedureStep::Enable,
        Event::SetNormal => ProcedureStep::ClearCd,
        Event::RestorePge => ProcedureStep::RestorePge,
        Event::Release => ProcedureStep::Release,
    })
}

fn tell_barrier(text: &mut Text, count: usize, of: usize, which: &str) {
    text.add_decimal("", count as u64);
    text.add_decimal(" of ", of as u64);
    text.add(" have arrived at the ");
    text.add(which);
    text.add(" barrier\n");
}

fn tell_event_due(text: &mut Text, event: Event, phase: Phase) {
    text.add("the manual has ");
    text.add(match step_of(event, phase) {
        Some(step) => step.word(),
        None => "leave",
    });
    text.add(" here\n");
}

// Writes the step that the manual's procedure has for a processor in a phase, or why it has none.
fn tell_due(text: &mut Text, due: Option<Event>, phase: Phase, arrived: Arrivals) {
    match (due, phase) {
        (Some(event), _) => tell_event_due(text, event, phase),
        (None, Phase::Arrived) => tell_barrier(text, arrived.first, arrived.of, "first"),
        (None, Phase::Arrived2) => tell_barrier(text, arrived.second, arrived.of, "second"),
        (None, _) => text.add("the manual's procedure has ended\n"),
    }
}

/// Writes why the manual's procedure hasn't a step due.
pub(crate) fn tell_undue(text: &mut Text, step: &ToldStep) {
    text.add("  not due: ");
    tell_due(text, step.done.due, step.done.phase, step.arrived);
}

// Writes that a processor's list has ended in the midst of an update.
fn tell_end(text: &mut Text, cpu: usize, due: Option<Event>, phase: Phase, arrived: Arrivals) {
    text.add_decimal("", cpu as u64);
    text.add(" has ended: ");
    tell_due(text, due, phase, arrived);
}

// Writes what is wrong at an address of a processor, without an end of the line.
fn tell_at(text: &mut Text, what: &str, address: u64, cpu: usize) {
    text.add_hex(what, address, 13);
    text.add_decimal(" of processor ", cpu as u64);
}

fn tell_two_types(text: &mut Text, page: u64, cpu: usize, other: usize) {
    text.add_hex("page ", page.wrapping_mul(PAGE_BYTES), 13);
    text.add_decimal(" has two types, of processors ", cpu as u64);
    text.add_decimal(" and ", other as u64);
}

/// Writes the line of a state's wrong, with words before it.
pub(crate) fn tell_wrong(text: &mut Text, front: &str, wrong: &Wrong) {
    text.add(front);
    match *wrong {
        Wrong::StaleLine { cpu, line } => tell_at(
            text,
            "stale line ",
            line.wrapping_mul(LINE_BYTES),
            cpu,
        ),
        Wrong::StaleBuffer { cpu, line } => tell_at(
            text,
            "stale buffer ",
            line.wrapping_mul(LINE_BYTES),
            cpu,
        ),
        Wrong::StaleEntry { cpu, vpage } => tell_at(
            text,
            "stale entry ",
            vpage.wrapping_mul(PAGE_BYTES),
            cpu,
        ),
        Wrong::UnsnoopedLine { cpu, line } => tell_at(
            text,
            "unsnooped line ",
            line.wrapping_mul(LINE_BYTES),
            cpu,
        ),
        Wrong::MixedEntry { cpu, vpage } => tell_at(
            text,
            "mixed entry ",
            vpage.wrapping_mul(PAGE_BYTES),
            cpu,
        ),
        Wrong::Disagree { cpu, other, page } => tell_two_types(text, page, cpu, other),
    }
    text.add("\n");
}

// Writes what is wrong in a state and isn't known.
fn tell_new(text: &mut Text, wrongs: &[Wrong], known: &[Wrong]) {
    for wrong in wrongs {
        if !known.contains(wrong) {
            tell_wrong(text, "  wrong: ", wrong);
        }
    }
}

/// Writes the line of a step's fault, with words before it.
pub(crate) fn tell_fault(text: &mut Text, front: &str, fault: &Fault) {
    text.add(front);
    match *fault {
        Fault::OldType {
            cpu,
            address,
            used,
            given,
        } => {
            tell_at(text, "access ", address, cpu);
            tell_type(text, " as ", used);
            tell_type(text, ", its registers give ", given);
            text.add("\n");
        }
        Fault::LostWord { cpu, line, word } => {
            let offset = WORD_BYTES * word as u64;
            let address = line.wrapping_mul(LINE_BYTES).wrapping_add(offset);
            tell_at(text, "lost word ", address, cpu);
            text.add("\n");
        }
    }
}

// Writes that a processor can't go on: it waits at a step, or its list has ended.
fn tell_pause(text: &mut Text, cpu: usize, step: Option<ProcedureStep>) {
    text.add_decimal("", cpu as u64);
    match step {
        Some(step) => {
            text.add(" waits: ");
            tell_step(text, step);
            text.add("\n");
        }
        None => text.add(" has ended\n"),
    }
}

// Writes a processor and an address of its.
fn tell_speculation(text: &mut Text, turn: Turn, translates: &str, fetches: &str) {
    let (cpu, verb, address) = match turn {
        Turn::Translate(cpu, page) => (cpu, translates, page.wrapping_mul(PAGE_BYTES)),
        Turn::Fetch(cpu, line) => (cpu, fetches, line.wrapping_mul(LINE_BYTES)),
        Turn::Step(cpu) => (cpu, "", 0),
    };
    text.add_decimal("", cpu as u64);
    text.add_hex(verb, address, 1);
}

// Writes what a processor did by itself, and what is newly wrong behind it.
fn tell_whole_speculation(text: &mut Text, told: &ToldSpeculation, known: &[Wrong]) {
    tell_speculation(text, told.turn, " translates ", " fetches ");
    if let Some(kind) = told.kind {
        tell_type(text, " ", kind);
    }
    text.add("\n");
    tell_new(text, told.wrongs.as_slice(), known);
}

// Writes why a speculation may not be made.
fn tell_hindrance(text: &mut Text, why: Hindrance) {
    match why {
        Hindrance::Unmapped => text.add(": the page isn't mapped"),
        Hindrance::HasEntry => text.add(": the TLB has an entry of the page"),
        Hindrance::NoFill => text.add(": CR0.CD is set"),
        Hindrance::Uncached(kind) => tell_type(text, ": the type is ", kind),
        Hindrance::NoLine => text.add(": memory has no such line"),
        Hindrance::HasLine => text.add(": the cache has the line"),
    }
}

// Writes that a speculation may not be made, and why.
fn tell_idle(text: &mut Text, turn: Turn, why: Hindrance) {
    tell_speculation(
        text,
        turn,
        " translates nothing at ",
        " fetches nothing at ",
    );
    tell_hindrance(text, why);
    text.add("\n");
}

// Writes a step that was done, whether it wasn't due, its fault, and what is newly wrong behind it.
fn tell_whole_step(text: &mut Text, goal: &RegFile, step: &ToldStep, known: &[Wrong]) {
    tell_move(text, goal, &step.done);
    if !step.done.is_due() {
        tell_undue(text, step);
    }
    if let Some(fault) = &step.fault {
        tell_fault(text, "  wrong: ", fault);
    }
    tell_new(text, step.wrongs.as_slice(), known);
}

/// Writes a line of a transcript, and what is newly wrong behind it.
pub(crate) fn tell_told(text: &mut Text, goal: &RegFile, told: &Told, known: &[Wrong]) {
    match told {
        Told::Step(step) => tell_whole_step(text, goal, step, known),
        Told::Speculation(told) => tell_whole_speculation(text, told, known),
        Told::Idle { turn, why } => tell_idle(text, *turn, *why),
        Told::Pause { cpu, step } => tell_pause(text, *cpu, *step),
        Told::Unfinished {
            cpu,
            phase,
            due,
            arrived,
        } => tell_end(text, *cpu, *due, *phase, *arrived),
    }
}

/// What is wrong where something is told, and so is known behind it.
pub(crate) fn known_behind<'a>(told: &'a Told, known: &'a [Wrong]) -> &'a [Wrong] {
    match told {
        Told::Step(step) => step.wrongs.as_slice(),
        Told::Speculation(told) => told.wrongs.as_slice(),
        Told::Pause { .. } | Told::Idle { .. } | Told::Unfinished { .. } => known,
    }
}

// Writes a run.
fn tell_run(text: &mut Text, goal: &RegFile, run: &Transcript) {
    let mut known = run.start.as_slice();
    tell_new(text, known, &[]);
    for told in run.told.as_slice() {
        tell_told(text, goal, told, known);
        known = known_behind(told, known);
    }
}

// What is wrong at the end of a run.
fn wrongs_behind(run: &Transcript) -> &[Wrong] {
    let mut known = run.start.as_slice();
    for told in run.told.as_slice() {
        known = known_behind(told, known);
    }
    known
}

// Writes what is still wrong once all lists have ended, and the run behind which it is.
fn tell_survival(text: &mut Text, goal: &RegFile, survival: &ToldSurvival) {
    match survival {
        ToldSurvival::Survives(run) => {
            for wrong in wrongs_behind(run) {
                tell_wrong(text, "survives: wrong: ", wrong);
            }
            tell_run(text, goal, run);
        }
        ToldSurvival::Nothing => text.add("nothing survives\n"),
        ToldSurvival::NoEnd => text.add("nothing survives: no run ends\n"),
        ToldSurvival::Stopped => text.add("survives: unknown, the search stopped\n"),
    }
}

// Writes what a search counted.
fn tell_counts(text: &mut Text, case: &Case, explored: &Explored) {
    text.add_decimal("states ", explored.states as u64);
    text.add(if case.mode.speculates {
        "\nturns "
    } else {
        "\nsteps "
    });
    text.add_decimal("", explored.turns);
    text.add_decimal("\nnot due ", explored.undue);
    text.add("\n");
}

// Writes which lists have ended in the midst of an update.
fn tell_ends(text: &mut Text, case: &Case, state: &State) {
    for k in 0..state.count() {
        if let Some(end) = end_at(case, state, k) {
            tell_told(text, &case.goal, &end, &[]);
        }
    }
}

// Writes that nothing is wrong, behind the lists that have ended in the midst of an update.
fn tell_nothing(text: &mut Text, case: &Case, explored: &Explored) {
    if let Some(state) = &explored.unfinished {
        tell_ends(text, case, state);
    }
    text.add("nothing wrong\n");
}

// Writes what a search came to, and the run that it returned.
fn tell_search(text: &mut Text, case: &Case, explored: &Explored, run: &Transcript) {
    tell_counts(text, case, explored);
    match explored.found {
        Found::Nothing => tell_nothing(text, case, explored),
        Found::Stopped => text.add("stopped\n"),
        _ => tell_run(text, &case.goal, run),
    }
}

// Writes a run that was asked for, and whether nothing is wrong in it.
fn tell_order(text: &mut Text, case: &Case, verdict: &Verdict) {
    tell_run(text, &case.goal, &verdict.transcript);
    if !verdict.wrong {
        text.add("nothing wrong\n");
    }
}

/// The text of a verdict.
pub(crate) fn verdict_text(
    alloc: Global,
    case: &Case,
    verdict: &Verdict,
) -> Result<String, NoMemory> {
    let mut text = Text::new(alloc);
    match &verdict.explored {
        Some(explored) => {
            tell_search(&mut text, case, explored, &verdict.transcript);
            if let Some(survival) = &verdict.survival {
                tell_survival(&mut text, &case.goal, survival);
            }
        }
        None => tell_order(&mut text, case, verdict),
    }
    text.finish()
}
