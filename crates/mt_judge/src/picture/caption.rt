use crate::judging::{Explored, Verdict};
use crate::telling::{known_behind, tell_fault, tell_wrong};
use crate::text::Text;
use crate::transcript::{Told, Transcript};
use mt_ports::NoMemory;
use mt_search::{Fault, Found, Wrong};
use std::alloc::Global;

/// What is wrong first in a run, and behind how many turns.
#[derive(Clone, Copy)]
struct First<'a> {
    turns: u64,
    fault: Option<&'a Fault>,
    wrong: Option<&'a Wrong>,
}

fn is_turn(told: &Told) -> bool {
    matches!(told, Told::Step(_) | Told::Speculation(_))
}

fn fault_of(told: &Told) -> Option<&Fault> {
    match told {
        Told::Step(step) => step.fault.as_ref(),
        _ => None,
    }
}

fn first_of(run: &Transcript) -> Option<First<'_>> {
    let mut turns = 0u64;
    let mut known = run.start.as_slice();
    if known.len() > 0 {
        return Some(First {
            turns,
            fault: None,
            wrong: known.get(0),
        });
    }
    for told in run.told.as_slice() {
        if is_turn(told) {
            turns = turns.saturating_add(1);
        }
        known = known_behind(told, known);
        let fault = fault_of(told);
        if fault.is_some() || known.len() > 0 {
            return Some(First {
                turns,
                fault,
                wrong: known.get(0),
            });
        }
    }
    None
}

fn append_first(text: &mut Text, run: &Transcript) {
    let Some(first) = first_of(run) else {
        return text.add("A step isn't due, or a list doesn't end as it should");
    };
    text.add_decimal("Wrong after ", first.turns);
    text.add(if first.turns == 1 {
        " turn: "
    } else {
        " turns: "
    });
    match (first.fault, first.wrong) {
        (Some(fault), _) => tell_fault(text, "", fault),
        (None, Some(wrong)) => tell_wrong(text, "", wrong),
        (None, None) => {}
    }
}

fn append_nothing(text: &mut Text, explored: &Explored) {
    text.add_decimal("Nothing is wrong in ", explored.states as u64);
    text.add(" states");
    if explored.undue > 0 {
        text.add(", but not every step is due");
    } else if explored.unfinished.is_some() {
        text.add(", but a list ends in the midst of an update");
    }
    text.add(". This is one of their runs");
}

fn append_search(text: &mut Text, explored: &Explored, run: &Transcript) {
    match explored.found {
        Found::Nothing => append_nothing(text, explored),
        Found::Stopped => {
            text.add_decimal("Stopped: there are more than ", explored.states as u64);
            text.add(" states. This is one of their runs");
        }
        Found::At(_) => text.add("Stuck: no processor can go on"),
        Found::WrongStart | Found::Wrong(_) => append_first(text, run),
    }
}

fn append_caption(text: &mut Text, verdict: &Verdict) {
    match &verdict.explored {
        Some(explored) => append_search(text, explored, &verdict.transcript),
        None if verdict.wrong => append_first(text, &verdict.transcript),
        None => text.add("Nothing is wrong in this run"),
    }
}

/// The sentence above a verdict's run.
pub(crate) fn caption_of(alloc: Global, verdict: &Verdict) -> Result<String, NoMemory> {
    let mut text = Text::new(alloc);
    append_caption(&mut text, verdict);
    text.finish()
}
