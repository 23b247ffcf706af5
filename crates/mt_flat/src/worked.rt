// What stands beside a system, what a course is, and each law at a state that meets its premises.
ghost use Rattle.std.specs.Prelude.{◌∷◌, []};
ghost use Rattle.mt_kinds.specs.declared.mem_type.MemType.TheVariants.{WB, WC};
ghost use Rattle.mt_machine.specs.declared.event.Event.TheVariants.{Take};
ghost use Rattle.mt_machine.specs.declared.op.Op.TheVariants.{Fence};
ghost use Rattle.mt_machine.specs.Machine.{Accesses, Calls, Goes, next, run, Steps};
ghost use Rattle.mt_machine_laws.specs.MachineWorkedRuns.{alone, bare_file, idle, load, machine_of, palette, store, whole};
ghost use Rattle.mt_machine.specs.ComingAndGoing.{gone, reset};
ghost use Rattle.mt_machine.specs.Update.{updated};
ghost use Rattle.mt_machine_laws.specs.WorkedUpdates.{dirty_released, dirty_taken, to_pass};
ghost use Rattle.mt_flat.specs.Courses.{CanTurn, ComesUp, course, CoursesHideCaches, CoursesKeepFlat, Does, flat_course, GoesDown, IsCourse, Updates};
ghost use Rattle.mt_flat.specs.Flat.{empty_all, flat_start, set_value, with_pending};
ghost use Rattle.mt_flat.specs.Seen.{AnswersAreFlat, AreFew, CachesAreNeverSeen, EventsKeepFlat, flat_after, flat_run, flat_takes, HeldIsFlat, IsFlatAnswer, IsFlatOf, IsHeldFlat, NoBuffersIsFlat, PendingStaysFew, RunsKeepFlat, UpdatedIsFlat};
ghost use Rattle.mt_flat.specs.ComingAndGoing.{AdmittedIsFlat, GoneKeepsFlat, NewcomersKeepFlat};
ghost use Rattle.mt_flat.specs.WorkedRuns.{beside, both_combine, called_whole, cancelled_turns, combiner, flat_of, four_lines, one_store, pending_line, two_values};

/// A system with a dirty line and a buffer, and the flat machine beside it. What fails in one part.
pub fn worked_flat_of()
    ensures stands { IsFlatOf (alone whole).system (beside (alone whole).system) }
    ensures other_value { IsFlatOf (alone whole).system (set_value 0x100008 9 (beside (alone whole).system)) → ⊥ }
    ensures nothing_pending { IsFlatOf (alone whole).system (with_pending 0 (λ ps. []) (beside (alone whole).system)) → ⊥ }
{}

/// An answer to a load, and what fails in one part.
pub fn worked_flat_answers()
    ensures cached { IsFlatAnswer (alone whole) (beside (alone whole).system) 0 0x1008 (6, WB) }
    ensures not_yet_seen { IsFlatAnswer palette (flat_of (store 0 0x3008 7 ∷ [])) 1 0x3008 (7, WC) → ⊥ }
    ensures not_mapped { IsFlatAnswer palette flat_start 0 0x6000 (0, WB) → ⊥ }
{}

/// Words that are held after the first release of an update, and what fails in one part.
pub fn worked_flat_held()
    ensures held { IsHeldFlat flat_start palette [] }
    ensures loaded { IsHeldFlat (set_value 0x100008 5 flat_start) palette (load 0 0x4000 ∷ []) → ⊥ }
    ensures still_pending { IsHeldFlat (flat_of (store 0 0x3000 7 ∷ [])) palette [] → ⊥ }
{}

/// Five pending lines are too many.
pub fn worked_pending()
    ensures { AreFew (pending_line 4 ∷ (flat_of four_lines).pending 0) → ⊥ }
{}

/// Events and whole updates in one course, and what is none for one thing.
pub fn worked_turns()
    ensures course { IsCourse (machine_of (idle ∷ idle ∷ [])) (Does (Accesses 1 Fence) ∷ Updates (bare_file 0x806) (1 ∷ 0 ∷ []) ∷ Does (Accesses 0 Fence) ∷ []) }
    ensures no_go { IsCourse (machine_of (idle ∷ idle ∷ [])) (Does (Accesses 1 Fence) ∷ Does Goes ∷ []) → ⊥ }
    ensures one_takes_not { CanTurn (machine_of (idle ∷ idle ∷ [])) (Updates (bare_file 0x806) (0 ∷ [])) → ⊥ }
    ensures not_accepted { CanTurn (machine_of (idle ∷ idle ∷ [])) (Updates (bare_file 0x802) (0 ∷ 1 ∷ [])) → ⊥ }
{}

/// Processors come up and go in a course, and not while an update is under way.
pub fn worked_coming_turns()
    ensures admitted { IsCourse (alone idle) (ComesUp ∷ Updates (bare_file 0x806) (1 ∷ 0 ∷ []) ∷ GoesDown ∷ []) }
    ensures none_left { CanTurn (machine_of []) GoesDown → ⊥ }
    ensures comes_under_way { IsCourse (machine_of (idle ∷ idle ∷ [])) (Does (Calls (bare_file 0x806)) ∷ ComesUp ∷ []) → ⊥ }
    ensures goes_under_way { IsCourse (machine_of (idle ∷ idle ∷ [])) (Does (Calls (bare_file 0x806)) ∷ GoesDown ∷ []) → ⊥ }
{}

/// A store and a load in a sound state with a line and a buffer.
pub fn worked_flat_laws()
    ensures run { RunsKeepFlat → IsFlatOf (run (alone whole) one_store).system (flat_run (alone whole) one_store (beside (alone whole).system)) }
    ensures answer { CachesAreNeverSeen → IsFlatAnswer (run (alone whole) one_store) (flat_run (alone whole) one_store (beside (alone whole).system)) 0 0x1008 (9, WB) }
    ensures few { PendingStaysFew → AreFew ((flat_run (alone whole) one_store (beside (alone whole).system)).pending 0) }
    ensures no_buffers { NoBuffersIsFlat → IsFlatOf palette.system (record (beside palette.system) { pending = λ k. [] }) }
{}

/// A take and a load while an update is under way.
pub fn worked_laws_under_way()
    ensures event { EventsKeepFlat → IsFlatOf (next called_whole (Steps 0 Take)).system (flat_after called_whole (Steps 0 Take) (beside called_whole.system)) }
    ensures answer { AnswersAreFlat → IsFlatAnswer called_whole (beside called_whole.system) 0 0x1008 (6, WB) }
{}

/// A whole update of two that combine one word.
pub fn worked_laws_of_takes()
    ensures { UpdatedIsFlat → IsFlatOf (updated both_combine.system (1 ∷ 0 ∷ []) (bare_file 0x806)).system (flat_takes (1 ∷ 0 ∷ []) (beside both_combine.system)) }
{}

/// A state in which all have taken: a cancelled update, and the first release.
pub fn worked_laws_of_broadcasts()
    ensures course { CoursesKeepFlat → IsFlatOf (course dirty_taken cancelled_turns).system (flat_course dirty_taken cancelled_turns (beside dirty_taken.system)) }
    ensures answer { CoursesHideCaches → IsFlatAnswer (course dirty_taken cancelled_turns) (flat_course dirty_taken cancelled_turns (beside dirty_taken.system)) 0 0x1008 (6, WB) }
    ensures held { HeldIsFlat → IsHeldFlat (flat_run dirty_taken to_pass (beside dirty_taken.system)) dirty_released [] }
{}

/// Processors come up and go, over systems with lines and buffers.
pub fn worked_flat_comers()
    ensures come { NewcomersKeepFlat → IsFlatOf (reset (alone whole).system) (beside (alone whole).system) }
    ensures admitted { AdmittedIsFlat → IsFlatOf (updated (reset combiner.system) (0 ∷ 1 ∷ []) (bare_file 0x806)).system (flat_takes (0 ∷ 1 ∷ []) (beside combiner.system)) }
    ensures gone { GoneKeepsFlat → IsFlatOf (gone two_values.system) (empty_all 1 (beside two_values.system)) }
{}
