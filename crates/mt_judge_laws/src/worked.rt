// Instances of what the laws require, and of what fails in one part.
ghost use Rattle.std.specs.Prelude.{◌≡◌, [], ◌∷◌, false, true, None, Some, replicate};
ghost use Rattle.mt_search.specs.WorkedWrongs.{dirty_line, mapped, registers, with_line};
ghost use Rattle.mt_procedure.specs.declared.step.ProcedureStep.TheVariants.{Access, Arrive, ClearPge, Wait};
ghost use Rattle.mt_machine.specs.declared.op.Op.TheVariants.{Load};
ghost use Rattle.mt_machine.specs.declared.event.Event.TheVariants.{ArriveAgain, RestorePge, Take};
ghost use Rattle.mt_machine.specs.declared.phase.Phase.TheVariants.{Arrived2, Restored, Running, Taken};
ghost use Rattle.mt_procedure.specs.declared.turn.Turn.TheVariants.{Fetch, Step, Translate};
ghost use Rattle.mt_procedure.specs.Runs.{IsRun, run};
ghost use Rattle.mt_search.specs.Searches.{has_wrong};
ghost use Rattle.mt_judge_laws.specs.Manual.{FillsNothing, IsManual, IsManualList, IsRightStart, first_place};
ghost use Rattle.mt_judge_laws.specs.Orderly.{AreOrderly, IsOrderly};
ghost use Rattle.mt_judge_laws.specs.WorkedManual.{first_list, move, odd_before, odd_behind, old_fetch, one_list, one_started, second_list, speculating, started, strictly, two_files, two_lists, two_started, with_lists};

/// A right start of two processors, in a strict case too, and what isn't one for one thing.
pub fn worked_right_starts()
    ensures right { IsRightStart two_lists two_started }
    ensures strict { IsRightStart (strictly two_files two_lists) two_started }
    ensures other_files { IsRightStart (strictly (registers 0x800 ∷ []) two_lists) two_started → ⊥ }
    ensures taken { IsRightStart two_lists (started (record (mapped 0x806) { phase = Taken } ∷ mapped 0x806 ∷ [])) → ⊥ }
    ensures finished { IsRightStart two_lists (started (record (mapped 0x806) { era = 1 } ∷ record (mapped 0x806) { era = 1 } ∷ [])) → ⊥ }
    ensures stale { IsRightStart two_lists (started (with_line dirty_line (mapped 0x800) ∷ mapped 0x800 ∷ [])) → ⊥ }
{}

/// The manual's list of a processor with instructions around it, and what isn't one for one thing.
pub fn worked_manual_list()
    ensures first { IsManualList 2 false first_list }
    ensures second { IsManualList 2 true second_list }
    ensures other_steps { IsManualList 2 false [] → ⊥ }
    ensures odd_before { (h : IsManualList 2 false odd_before) → h.before ≡ Access (Load 0x1001) ∷ [] → ⊥ }
    ensures odd_behind { (h : IsManualList 2 false odd_behind) → h.behind ≡ Access (Load 0x1001) ∷ [] → ⊥ }
{}

/// The lists of two processors, and what they aren't for one thing.
pub fn worked_manual_lists()
    ensures manual { IsManual two_lists two_started }
    ensures too_many { IsManual two_lists (started (replicate 65 (mapped 0x806))) → ⊥ }
    ensures other_kind { IsManual (record two_lists { goal = record (registers 0x800) { width = 40 } }) two_started → ⊥ }
    ensures past_a_step { IsManual two_lists (record two_started { places = record first_place { step = 1 } ∷ first_place ∷ [] }) → ⊥ }
    ensures arrived { IsManual two_lists (record two_started { arrived = replicate 8 1 }) → ⊥ }
    ensures other_list { IsManual (with_lists ([] ∷ second_list ∷ [])) two_started → ⊥ }
{}

/// Steps that are due or may stand beside the events, and steps that aren't so for one thing.
pub fn worked_orderly_moves()
    ensures due { IsOrderly (move Restored (Arrive 1) (Some ArriveAgain) (Some ArriveAgain)) }
    ensures waits { IsOrderly (move Arrived2 (Wait 1 2) None None) }
    ensures loads { IsOrderly (move Running (Access (Load 0x1000)) None (Some Take)) }
    ensures early { IsOrderly (move Restored (Arrive 1) (Some ArriveAgain) (Some RestorePge)) → ⊥ }
    ensures in_the_midst { IsOrderly (move Restored (Access (Load 0x1000)) None (Some ArriveAgain)) → ⊥ }
    ensures no_instruction { IsOrderly (move Running ClearPge None (Some Take)) → ⊥ }
{}

/// Runs of orderly turns of two processors, and runs that aren't ones.
pub fn worked_orderly_runs()
    ensures orderly { AreOrderly two_lists two_started (Step 0 ∷ Step 1 ∷ Step 1 ∷ Step 0 ∷ []) }
    ensures alone { AreOrderly (speculating false two_lists) two_started (Step 0 ∷ Translate 1 1 ∷ Fetch 1 64 ∷ Step 1 ∷ []) }
    ensures not_there { AreOrderly two_lists two_started (Step 2 ∷ []) → ⊥ }
    ensures not_alone { AreOrderly two_lists two_started (Translate 1 1 ∷ []) → ⊥ }
{}

/// Cases in which no-fill mode fills nothing, and one in which it fills lines.
pub fn worked_fills()
    ensures still { FillsNothing two_lists }
    ensures speculating { FillsNothing (speculating false two_lists) }
    ensures leaking { FillsNothing (speculating true two_lists) → ⊥ }
{}

/// A case that speculates, from a right start, and a run of it with a translation and a fetch.
pub fn worked_speculation()
    ensures start { IsRightStart (speculating false two_lists) two_started }
    ensures manual { IsManual (speculating false two_lists) two_started }
    ensures runs { IsRun (speculating false two_lists) two_started (Step 0 ∷ Translate 1 1 ∷ Fetch 1 64 ∷ Step 1 ∷ []) }
{}

/// If no-fill mode fills lines, a run of the manual's list from a right start goes wrong: behind the second flush of the
/// caches a line is fetched by an entry of the old type.
pub fn worked_leak()
    ensures start { IsRightStart (speculating true one_list) one_started }
    ensures manual { IsManual (speculating true one_list) one_started }
    ensures runs { IsRun (speculating true one_list) one_started old_fetch }
    ensures wrong { has_wrong (speculating true one_list) (run (speculating true one_list) one_started old_fetch) ≡ true }
    ensures no_fill { IsRun (speculating false one_list) one_started old_fetch → ⊥ }
{}
