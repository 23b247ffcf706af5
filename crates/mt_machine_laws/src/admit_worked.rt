// Instances of relations that laws speak of, and of the laws. A relation has one that meets it, and for each of its parts one
// that fails in just that, except the blank file of a newcomer whose update was cancelled: what fences leave implies it.
ghost use Rattle.std.specs.Prelude.{◌∷◌, []};
ghost use Rattle.mt_machine.specs.declared.event.Event.TheVariants.{Leave, Take};
ghost use Rattle.mt_machine.specs.declared.phase.Phase.TheVariants.{Restored};
ghost use Rattle.mt_machine.specs.ComingAndGoing.{with_newcomer, without_last};
ghost use Rattle.mt_machine.specs.Machine.{Cancels, Steps, run};
ghost use Rattle.mt_machine.specs.Update.{IsHeld, updated};
ghost use Rattle.mt_machine_laws.specs.MachineWorkedRuns.{alone, bare, bare_file, begun, idle, line_of, machine_of, with_word};
ghost use Rattle.mt_core.specs.Arises.{Arises};
ghost use Rattle.mt_machine_laws.specs.CoreWorkedRuns.{to_first_release};
ghost use Rattle.mt_admit.specs.Admission.{admitted, brought_up};
ghost use Rattle.mt_admit.specs.Laws.{AllAgree, CanGrow, CancelledNewcomersStayBlank, IsGivenUp, NewcomersAgree, NewcomersKeepWords, OthersAreLeft, RetiredLeaveTheOthers, UpsArise};
ghost use Rattle.mt_machine_laws.specs.AdmitWorkedRuns.{before_pass, buffered, given_up, left_of_buffered, released, unlike, without_line};

/// A machine that can grow, and machines that can't for one thing.
pub fn worked_admissions()
    ensures can { CanGrow bare }
    ensures no_start { CanGrow (alone (record idle { phase = Restored })) → ⊥ }
    ensures under_way { CanGrow (begun (bare_file 0x806) bare) → ⊥ }
    ensures no_processor { CanGrow (machine_of []) → ⊥ }
{}

/// All agree once one is admitted, and don't for one thing.
pub fn worked_agreement()
    ensures agree { AllAgree bare (admitted bare).system }
    ensures not_come { AllAgree bare (updated bare.system (0 ∷ []) (bare_file 0x800)).system → ⊥ }
    ensures older { AllAgree bare (machine_of (record idle { lines = line_of 0x4000 0 ∷ [] } ∷ idle ∷ [])).system → ⊥ }
{}

/// What a cancelled update of a newcomer leaves, and what is something else.
pub fn worked_given_up()
    ensures taken { IsGivenUp unlike given_up (0 ∷ []) }
    ensures still_combined { IsGivenUp unlike (with_newcomer unlike) (0 ∷ []) → ⊥ }
{}

/// What one that goes leaves, and what is something else for one thing.
pub fn worked_left()
    ensures left_of_buffered { OthersAreLeft buffered.system left_of_buffered.system }
    ensures buffer_lost { OthersAreLeft buffered.system (with_word 0x100048 0 left_of_buffered).system → ⊥ }
    ensures other_file { OthersAreLeft buffered.system (record left_of_buffered.system { processors = record without_line { file = bare_file 0x800 } ∷ [] }) → ⊥ }
{}

/// The laws speak of such processors.
pub fn worked_laws()
    ensures arise { UpsArise → Arises (brought_up unlike) }
    ensures agree { NewcomersAgree → AllAgree bare (run (brought_up bare) to_first_release).system }
    ensures keep { NewcomersKeepWords → IsHeld before_pass.system released [] }
    ensures blank { CancelledNewcomersStayBlank → IsGivenUp unlike (run (brought_up unlike) (Steps 0 Take ∷ Cancels ∷ Steps 0 Leave ∷ [])) (0 ∷ []) }
    ensures leave { RetiredLeaveTheOthers → OthersAreLeft buffered.system (without_last buffered).system }
{}
