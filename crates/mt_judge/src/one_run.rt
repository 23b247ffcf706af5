ghost use Rattle.std.specs.Prelude.{◌≡◌, ◌↔◌, ◌||◌, [], IfOk, IsFalse, IsNone, OnOk, false};
ghost use Rattle.mt_procedure.specs.Dues.{AreListsFinished};
ghost use Rattle.mt_judge.specs.Ordered.{IsRightRun, all_rounds, ordered, round, turn_of};
ghost use Rattle.mt_procedure.specs.Runs.{IsEnded, IsRun, may_take};
ghost use Rattle.mt_judge.specs.Told.{AreToldBehind, IsSpeculationNoted, IsStepNoted, IsTold, IsToldOrder, IsToldPart, IsTranscript};

use crate::judging::Verdict;
use crate::transcript::{
    Told, Transcript, tell, tell_ends, tell_pause, tell_pauses, told_speculation, told_step,
};
use mt_case::Part;
use mt_ports::NoMemory;
use mt_procedure::{Case, Move, State, Turn, take};
use mt_search::wrongs_of;
use std::alloc::Global;

/// More rounds than the lists of any text take.
const MOST_ROUNDS: u64 = 1 << 40;

/// A run that is judged: where it stands, what is told of it, and whether something is wrong so far.
#[derive(Drop)]
pub(crate) struct JudgedRun {
    alloc: Global,
    state: State,
    told: Vec<Told>,
    wrong: bool,
}

fn or(a: bool, b: bool) -> bool
    ensures { result ≡ (a || b) }
{
    a || b
}

impl JudgedRun {
    /// A run that stands at a start, where something is wrong or nothing is.
    fn new(alloc: Global, start: &State, wrong: bool) -> Result<JudgedRun, NoMemory>
        ensures state { IfOk result (λ r. r.state ≡ start.now) }
        ensures told { IfOk result (λ r. r.told.items ≡ []) }
        ensures wrong { IfOk result (λ r. r.wrong ≡ wrong) }
    {
        Ok(JudgedRun {
            alloc,
            state: start.copy(alloc)?,
            told: Vec::new(alloc),
            wrong,
        })
    }

    // Notes whether something more is wrong.
    fn note(&mut self, wrong: bool)
        ensures state { self.new.state ≡ self.old.state }
        ensures told { self.new.told.items ≡ self.old.told.items }
        ensures wrong { self.new.wrong ≡ (self.old.wrong || wrong) }
    {
        self.wrong = or(self.wrong, wrong);
    }

    // Tells of a step that was done from a state on, and notes whether it is right.
    fn note_step(&mut self, case: &Case, before: &State, done: Move) -> Result<(), NoMemory>
        ensures state { self.new.state ≡ self.old.state }
        ensures told { OnOk result (IsStepNoted case.now before.now done self.old self.new) }
    {
        let step = told_step(self.alloc, case, before, done, &self.state)?;
        self.note(!step.is_right());
        tell(&mut self.told, Told::Step(step))
    }

    // The same of a speculation.
    fn note_speculation(&mut self, case: &Case, before: &State, turn: Turn) -> Result<(), NoMemory>
        ensures state { self.new.state ≡ self.old.state }
        ensures told { OnOk result (IsSpeculationNoted case.now before.now turn self.old self.new) }
    {
        let speculation = told_speculation(self.alloc, case, before, turn, &self.state)?;
        self.note(!speculation.is_right());
        tell(&mut self.told, Told::Speculation(speculation))
    }

    /// Takes a turn and tells of it. False if it can't be taken.
    fn turn(&mut self, case: &Case, turn: Turn) -> Result<bool, NoMemory>
        ensures goes { IfOk result (λ b. b ≡ may_take case.now self.old.state turn) }
        ensures told { OnOk result (IsTold case.now (turn_of case.now self.old.state turn) self.old self.new) }
    {
        if !self.state.may_take(case, turn) {
            return Ok(false);
        }
        let before = self.state.copy(self.alloc)?;
        match take(case, &mut self.state, turn)? {
            Some(done) => {
                self.note_step(case, &before, done)?;
                Ok(true)
            }
            None => {
                self.note_speculation(case, &before, turn)?;
                Ok(true)
            }
        }
    }

    // The same, or tells why it can't be taken.
    fn turn_or_pause(&mut self, case: &Case, turn: Turn) -> Result<(), NoMemory>
        ensures { OnOk result (IsTold case.now (turn_of case.now self.old.state turn) self.old self.new) }
    {
        if self.turn(case, turn)? {
            return Ok(());
        }
        tell_pause(&mut self.told, case, &self.state, turn)
    }

    // A step of each processor in ascending order. False if none can go on.
    fn round(&mut self, case: &Case) -> Result<bool, NoMemory>
        ensures idle { IfOk result (λ b. IsFalse b → round case.now self.old.state ≡ []) }
        ensures told { OnOk result (IsTold case.now (round case.now self.old.state) self.old self.new) }
    {
        let mut goes_on = false;
        for k in 0..self.state.count() {
            goes_on = or(self.turn(case, Turn::Step(k))?, goes_on);
        }
        Ok(goes_on)
    }

    // Rounds until no processor can go on.
    fn all_rounds(&mut self, case: &Case) -> Result<(), NoMemory>
        ensures { OnOk result (IsTold case.now (all_rounds case.now self.old.state) self.old self.new) }
    {
        let mut count = 0u64;
        while count < MOST_ROUNDS {
            if !self.round(case)? {
                return Ok(());
            }
            count += 1;
        }
        Ok(())
    }

    // Tells which processors wait, where none can go on.
    fn note_stuck(&mut self, case: &Case) -> Result<(), NoMemory>
        ensures state { self.new.state ≡ self.old.state }
        ensures told { OnOk result (AreToldBehind case.now self.old.state [] self.old.told.items self.new.told.items) }
        ensures right { OnOk result (IsFalse self.new.wrong ↔ (self.old.wrong ≡ false) × IsEnded case.now self.old.state) }
    {
        tell_pauses(&mut self.told, case, &self.state)?;
        let ended = self.state.has_ended(case);
        self.note(!ended);
        Ok(())
    }

    // Tells which lists have ended in the midst of an update.
    fn note_ends(&mut self, case: &Case) -> Result<(), NoMemory>
        ensures state { self.new.state ≡ self.old.state }
        ensures told { OnOk result (AreToldBehind case.now self.old.state [] self.old.told.items self.new.told.items) }
        ensures right { OnOk result (IsFalse self.new.wrong ↔ (self.old.wrong ≡ false) × AreListsFinished case.now self.old.state) }
    {
        tell_ends(&mut self.told, case, &self.state)?;
        let unfinished = self.state.has_unfinished(case);
        self.note(unfinished);
        Ok(())
    }

    // What is ordered next: a turn, or rounds to the end.
    fn part(&mut self, case: &Case, part: Part) -> Result<(), NoMemory>
        ensures { OnOk result (IsToldPart case.now part self.old self.new) }
    {
        match part {
            Part::Turn(turn) => self.turn_or_pause(case, turn),
            Part::Turns => {
                self.all_rounds(case)?;
                self.note_stuck(case)
            }
        }
    }

    // Does what is ordered.
    fn parts(&mut self, case: &Case, order: &[Part]) -> Result<(), NoMemory>
        ensures { OnOk result (IsToldOrder case.now order.now self.old self.new) }
    {
        for part in order {
            self.part(case, *part)?;
        }
        Ok(())
    }

    // Takes the turns of a run.
    fn path(&mut self, case: &Case, path: &[Turn]) -> Result<(), NoMemory>
        ensures { OnOk result (IsRun case.now self.old.state path.now → IsTold case.now path.now self.old self.new) }
    {
        for turn in path {
            self.turn(case, *turn)?;
        }
        Ok(())
    }

    // Tells who waits at the end of a run that is stuck.
    fn tell_end(&mut self, case: &Case, is_stuck: bool) -> Result<(), NoMemory>
        ensures { OnOk result (AreToldBehind case.now self.old.state [] self.old.told.items self.new.told.items) }
    {
        if !is_stuck {
            return Ok(());
        }
        tell_pauses(&mut self.told, case, &self.state)?;
        tell_ends(&mut self.told, case, &self.state)
    }
}

/// A run that a search found, as it is printed. At its end some processors may be stuck.
pub(crate) fn told_run(
    alloc: Global,
    case: &Case,
    start: &State,
    path: &[Turn],
    is_stuck: bool,
) -> Result<Transcript, NoMemory>
    requires { IsRun case.now start.now path.now }
    ensures { IfOk result (λ t. IsTranscript case.now start.now path.now t) }
{
    let wrongs = wrongs_of(alloc, case, start)?;
    let mut run = JudgedRun::new(alloc, start, false)?;
    run.path(case, path)?;
    run.tell_end(case, is_stuck)?;
    let JudgedRun { told, .. } = run;
    Ok(Transcript {
        start: wrongs,
        told,
    })
}

/// Judges one run, by its parts. The verdict is wrong unless nothing is wrong in the run, and what is printed is this run.
pub fn judge_run(
    alloc: Global,
    case: &Case,
    start: &State,
    order: &[Part],
) -> Result<Verdict, NoMemory>
    ensures right { IfOk result (λ v. IsFalse v.wrong ↔ IsRightRun case.now start.now order.now) }
    ensures alone { IfOk result (λ v. IsNone v.explored × IsNone v.survival) }
    ensures told { IfOk result (λ v. IsTranscript case.now start.now (ordered case.now start.now order.now) v.transcript) }
{
    let wrongs = wrongs_of(alloc, case, start)?;
    let mut run = JudgedRun::new(alloc, start, 0 < wrongs.len())?;
    run.parts(case, order)?;
    run.note_ends(case)?;
    let JudgedRun { told, wrong, .. } = run;
    Ok(Verdict {
        explored: None,
        survival: None,
        transcript: Transcript {
            start: wrongs,
            told,
        },
        wrong,
    })
}
