ghost use Rattle.std.specs.Prelude.{◌<◌};

use crate::case::Trouble;
use crate::words::{bad, count, is, shape, switch};
use mt_kinds::WORD_BYTES;
use mt_machine::Op;
use mt_procedure::{PLAIN, ProcedureStep};
use mt_script::{ScriptReason, value_at, virtual_at};
use mt_text::Words;

/// Barriers are numbered from 0 to 7.
pub(crate) const BARRIERS: u64 = 8;

// Any wait.
const WAIT: ProcedureStep = ProcedureStep::Wait {
    barrier: 0,
    count: 1,
};

// Whether a line begins with the word of a step.
fn begins(words: &Words<'_>, step: ProcedureStep) -> bool {
    is(words.text(0), step.word())
}

// The step that is one word.
fn plain(word: &[u8]) -> Option<ProcedureStep> {
    for step in PLAIN.as_slice() {
        if is(word, step.word()) {
            return Some(*step);
        }
    }
    None
}

fn arrival(words: &Words<'_>) -> Result<ProcedureStep, Trouble> {
    shape(words, 2)?;
    Ok(ProcedureStep::Arrive(count(words, 1, 0, BARRIERS - 1)? as u32))
}

fn wait(words: &Words<'_>) -> Result<ProcedureStep, Trouble> {
    shape(words, 3)?;
    Ok(ProcedureStep::Wait {
        barrier: count(words, 1, 0, BARRIERS - 1)? as u32,
        count: count(words, 2, 1, 64)? as u32,
    })
}

// The number of an instruction's first argument behind the processor, which it has outside the lists.
fn first_argument(cpus: Option<u64>) -> usize
    ensures { result < 3 }
{
    if cpus.is_some() { 2 } else { 1 }
}

// Whether a line has so many words, and outside the lists one of so many processors as the first argument.
fn form(words: &Words<'_>, size: usize, cpus: Option<u64>) -> Result<(), Trouble> {
    shape(words, size)?;
    if let Some(cpus) = cpus {
        count(words, 1, 0, cpus.saturating_sub(1))?;
    }
    Ok(())
}

/// An access or a control instruction: a step of a list or, with the number of processors, a line outside the lists.
pub(crate) fn instruction(words: &Words<'_>, cpus: Option<u64>) -> Result<ProcedureStep, Trouble> {
    let first = first_argument(cpus);
    if begins(words, ProcedureStep::Access(Op::Load(0))) {
        form(words, first + 1, cpus)?;
        Ok(ProcedureStep::Access(Op::Load(virtual_at(words, first, WORD_BYTES)?)))
    } else if begins(words, ProcedureStep::Access(Op::Store(0, 0))) {
        form(words, first + 2, cpus)?;
        let va = virtual_at(words, first, WORD_BYTES)?;
        Ok(ProcedureStep::Access(Op::Store(va, value_at(words, first + 1)?)))
    } else if begins(words, ProcedureStep::Invlpg(0)) {
        form(words, first + 1, cpus)?;
        Ok(ProcedureStep::Invlpg(virtual_at(words, first, 1)?))
    } else {
        switching(words, first)
    }
}

fn switching(words: &Words<'_>, first: usize) -> Result<ProcedureStep, Trouble>
    requires { first < 3 }
{
    if begins(words, ProcedureStep::Pge(false)) {
        shape(words, first + 1)?;
        Ok(ProcedureStep::Pge(switch(words, first)?))
    } else if begins(words, ProcedureStep::Cd(false)) {
        shape(words, first + 1)?;
        Ok(ProcedureStep::Cd(switch(words, first)?))
    } else if begins(words, ProcedureStep::Access(Op::Fence)) {
        shape(words, first)?;
        Ok(ProcedureStep::Access(Op::Fence))
    } else if is(words.text(0), "cr3") {
        shape(words, first)?;
        Ok(ProcedureStep::ReloadCr3)
    } else {
        bad(words.place(0), ScriptReason::BadLine)
    }
}

/// The step that a line of a procedure names.
pub(crate) fn step_of(words: &Words<'_>) -> Result<ProcedureStep, Trouble> {
    if begins(words, ProcedureStep::Arrive(0)) {
        return arrival(words);
    }
    if begins(words, WAIT) {
        return wait(words);
    }
    if let Some(step) = plain(words.text(0)) {
        shape(words, 1)?;
        return Ok(step);
    }
    instruction(words, None)
}
