use crate::telling::{tell_fault, tell_step, tell_told, tell_type, tell_undue, tell_wrong};
use crate::text::Text;
use crate::transcript::{Told, ToldSpeculation, ToldStep};
use mt_kinds::{LINE_BYTES, PAGE_BYTES};
use mt_machine::{Done, Event};
use mt_ports::NoMemory;
use mt_procedure::{Move, Outcome, Turn};
use mt_regs::RegFile;
use mt_search::{Fault, Wrong};
use std::alloc::Global;

// What a step of several events did.
fn append_event(text: &mut Text, goal: &RegFile, event: Option<Event>) {
    match event {
        Some(Event::WriteBack { address, value }) => {
            text.add_hex(": ", address, 1);
            text.add_hex(" = ", value, 1);
        }
        Some(Event::DropLines) => text.add(": drops all lines"),
        Some(Event::Write(i)) => if let Some(msr) = goal.register(i) {
            text.add_hex(" ", msr as u64, 3);
        },
        _ => {}
    }
}

fn append_done(text: &mut Text, done: Done) {
    match done {
        Done::Value(v, kind) => {
            text.add_hex(" = ", v, 1);
            tell_type(text, ", ", kind);
        }
        Done::Stored(kind) => tell_type(text, ", ", kind),
        Done::Fenced => {}
        Done::Unmapped => text.add(": unmapped"),
        Done::NoRam => text.add(": no ram"),
        Done::Busy => text.add(": busy"),
    }
}

fn append_move(text: &mut Text, goal: &RegFile, m: &Move) {
    tell_step(text, m.step);
    append_event(text, goal, m.event);
    match m.outcome {
        Outcome::Nothing => {}
        Outcome::Accessed(done) => append_done(text, done),
    }
}

fn append_turn(text: &mut Text, turn: Turn, nothing: &str) {
    let (verb, address) = match turn {
        Turn::Translate(_, page) => ("translates", page.wrapping_mul(PAGE_BYTES)),
        Turn::Fetch(_, line) => ("fetches", line.wrapping_mul(LINE_BYTES)),
        Turn::Step(_) => ("", 0),
    };
    text.add(verb);
    text.add_hex(nothing, address, 1);
}

/// The processor of a line.
pub(crate) fn cpu_of(told: &Told) -> usize {
    match told {
        Told::Step(step) => step.done.cpu,
        Told::Speculation(ToldSpeculation { turn, .. }) => turn_cpu(*turn),
        Told::Idle { turn, .. } => turn_cpu(*turn),
        Told::Pause { cpu, .. } | Told::Unfinished { cpu, .. } => *cpu,
    }
}

fn turn_cpu(turn: Turn) -> usize {
    match turn {
        Turn::Step(k) | Turn::Translate(k, _) | Turn::Fetch(k, _) => k,
    }
}

/// The class of a line's label.
pub(crate) fn class_of(told: &Told) -> &'static str {
    match told {
        Told::Step(_) => "step",
        Told::Speculation(_) => "own",
        Told::Pause { .. } | Told::Idle { .. } | Told::Unfinished { .. } => "rest",
    }
}

/// Adds what the processor of a line did, or that it doesn't go on.
pub(crate) fn append_told(text: &mut Text, goal: &RegFile, told: &Told) {
    match told {
        Told::Step(step) => append_move(text, goal, &step.done),
        Told::Speculation(own) => {
            append_turn(text, own.turn, " ");
            if let Some(kind) = own.kind {
                tell_type(text, " as ", kind);
            }
        }
        Told::Idle { turn, .. } => append_turn(text, *turn, " nothing at "),
        Told::Pause {
            step: Some(step),
            ..
        } => {
            text.add("waits: ");
            tell_step(text, *step);
        }
        Told::Pause { step: None, .. } | Told::Unfinished { .. } => text.add("has ended"),
    }
}

// ---- notes

/// What is said of a line beside its label.
#[derive(Clone, Copy)]
pub(crate) enum Note<'a> {
    /// The step isn't due.
    Undue(&'a ToldStep),
    Fault(&'a Fault),
    /// This is newly wrong behind it.
    Wrong(&'a Wrong),
    /// A list may not end there.
    End(&'a Told),
}

impl Note<'_> {
    /// Its class in a picture.
    pub(crate) fn class(&self) -> &'static str {
        match self {
            Note::Undue(_) | Note::End(_) => "undue",
            Note::Fault(_) | Note::Wrong(_) => "wrong",
        }
    }

    /// Adds its text, with blanks around it.
    pub(crate) fn append(&self, text: &mut Text, goal: &RegFile) {
        match self {
            Note::Undue(step) => tell_undue(text, step),
            Note::Fault(fault) => tell_fault(text, "wrong: ", fault),
            Note::Wrong(wrong) => tell_wrong(text, "wrong: ", wrong),
            Note::End(told) => tell_told(text, goal, told, &[]),
        }
    }
}

fn add_note<'a>(notes: &mut Vec<Note<'a>>, more: Note<'a>) -> Result<(), NoMemory> {
    match notes.push(more) {
        Ok(()) => Ok(()),
        Err(_) => Err(NoMemory),
    }
}

/// Notes what of these isn't known.
pub(crate) fn note_new<'a>(
    notes: &mut Vec<Note<'a>>,
    wrongs: &'a [Wrong],
    known: &[Wrong],
) -> Result<(), NoMemory> {
    for wrong in wrongs {
        if !known.contains(wrong) {
            add_note(notes, Note::Wrong(wrong))?;
        }
    }
    Ok(())
}

fn note_step<'a>(notes: &mut Vec<Note<'a>>, step: &'a ToldStep) -> Result<(), NoMemory> {
    if !step.done.is_due() {
        add_note(notes, Note::Undue(step))?;
    }
    if let Some(fault) = &step.fault {
        add_note(notes, Note::Fault(fault))?;
    }
    Ok(())
}

/// The notes of a line, where some things are known to be wrong.
pub(crate) fn notes_of<'a>(
    alloc: Global,
    told: &'a Told,
    known: &[Wrong],
) -> Result<Vec<Note<'a>>, NoMemory> {
    let mut notes = Vec::new(alloc);
    match told {
        Told::Step(step) => {
            note_step(&mut notes, step)?;
            note_new(&mut notes, step.wrongs.as_slice(), known)?;
        }
        Told::Speculation(own) => note_new(&mut notes, own.wrongs.as_slice(), known)?,
        Told::Unfinished { .. } => add_note(&mut notes, Note::End(told))?,
        Told::Pause { .. } | Told::Idle { .. } => {}
    }
    Ok(notes)
}
