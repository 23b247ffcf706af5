//! Laws on lists of steps: runs of events that are due are never wrong, and in every interleaving of the manual's lists each step is due.
#![tactic(auto)]

mod worked;

ghost use Rattle.mt_judge_laws.specs.Manual.{NothingGoesWrong, RunsAreTheMachines, SearchesFindNothing};
ghost use Rattle.mt_judge_laws.specs.Orderly.{OrderlyRunsAreRight, OrderlyRunsAreTheMachines, OrderlyStepsHaveNoFault};

use mt_judge::has_wrong_if_a_sense_holds;
pub use worked::{
    worked_fills, worked_leak, worked_manual_list, worked_manual_lists, worked_orderly_moves,
    worked_orderly_runs, worked_right_starts, worked_speculation,
};

/// From a right start whose goal may be called: if each step of a run is due, or may stand beside the events, nothing is
/// wrong in its state, and no step has a fault, whatever the lists are and whatever processors translate and fetch by
/// themselves. If they don't, the run is one of the machine.
pub fn orderly_runs_are_right()
    ensures machines { OrderlyRunsAreTheMachines }
    ensures right { OrderlyRunsAreRight }
    ensures steps { OrderlyStepsHaveNoFault }
{
    has_wrong_if_a_sense_holds(); // a fact for the proof
}

/// Each run of the manual's lists from a right start, in which no processor does anything by itself, is the machine's:
/// its call, go and enabled events lead to the run's state.
pub fn runs_are_the_machines()
    ensures { RunsAreTheMachines }
{
    has_wrong_if_a_sense_holds(); // a fact for the proof
}

/// In every interleaving of the manual's lists from a right start nothing is wrong, each step is due, and no list ends
/// amid the update. Some processor may go unless all lists have ended. Between the steps each processor may translate
/// pages and fetch lines by itself, if no-fill mode fills none. In a strict case nothing is wrong in its senses either.
pub fn nothing_goes_wrong()
    ensures { NothingGoesWrong }
{
    has_wrong_if_a_sense_holds(); // a fact for the proof
}

/// A search of the manual's lists from a right start finds nothing, unless it stops. Nor does one for what is left wrong when all lists have
/// ended.
pub fn searches_find_nothing()
    ensures { SearchesFindNothing }
{
    has_wrong_if_a_sense_holds(); // a fact for the proof
}
