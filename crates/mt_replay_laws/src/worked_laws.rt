// Instances of the laws, one for each law whose premises aren't plainly met.
ghost use Rattle.std.specs.Prelude.{◌≡◌, ◌<◌, ◌∷◌, ◌++◌, ◌+◌, ◌↔◌, ◌⊎◌, [], ℕ, List, None, Ok, Option, Some, codes, length, take, true};
ghost use Rattle.std.specs.List.{All};
ghost use Rattle.mt_dump.specs.Dumps.{Dump, dump_of};
ghost use Rattle.mt_laws.specs.Settled.{IsFirstRelease};
ghost use Rattle.mt_machine_laws.specs.RunWorkedRuns.{pair_order};
ghost use Rattle.mt_machine.specs.ComingAndGoing.{with_newcomer, without_last};
ghost use Rattle.mt_machine.specs.Machine.{Calls, Machine, Order, next};
ghost use Rattle.mt_machine.specs.Memory.{word_at};
ghost use Rattle.mt_machine.specs.System.{now};
ghost use Rattle.mt_machine.specs.Update.{IsSettled};
ghost use Rattle.mt_machine_laws.specs.MachineWorkedRuns.{bare_file};
ghost use Rattle.mt_output.specs.Lines.{accepted_line, dump_refused_line, refused_line};
ghost use Rattle.mt_script.specs.Lines.{offence_line};
ghost use Rattle.mt_ports.specs.declared.status.Status.{Status};
ghost use Rattle.mt_ports.specs.declared.status.Status.TheVariants as status;
ghost use Rattle.mt_regs.specs.Agreement.{IsFirstRefusal};
ghost use Rattle.mt_regs.specs.Faults.{IsAccepted};
ghost use Rattle.mt_regs.specs.declared.fault.Fault.{Fault};
ghost use Rattle.mt_regs.specs.declared.fault.Reason.TheVariants.{UnsupportedType};
ghost use Rattle.mt_script.specs.Commands.{command_of};
ghost use Rattle.mt_script.specs.Numbers.{fault_at};
ghost use Rattle.mt_script.specs.Script.{script_offence};
ghost use Rattle.mt_script.specs.declared.command.Command.TheVariants as asks;
ghost use Rattle.mt_script.specs.declared.command.Section.TheVariants.{End};
ghost use Rattle.mt_script.specs.declared.command.Ask.TheVariants as ask;
ghost use Rattle.mt_script.specs.declared.command.Newcomer.TheVariants.{Join};
ghost use Rattle.mt_script.specs.declared.command.Stage.TheVariants as stage;
ghost use Rattle.mt_script.specs.declared.fault.Offence.{Offence};
ghost use Rattle.mt_script.specs.declared.fault.Offence.TheVariants as offence;
ghost use Rattle.mt_script.specs.declared.fault.ScriptReason.TheVariants.{BadLine};
ghost use Rattle.mt_stream.specs.Transcript.{transcript_with};
ghost use Rattle.mt_text.specs.Text.{lines_of};
ghost use Rattle.mt_replay_laws.specs.Headline.{AcceptedWhereIdleAndWhole, CompleteUpdatesAreKept, GoalsAreOfTheirSections, HasNewcomer, IsCall, JoinsAreKept, NewcomersWhereIdle, RefusedUpdatesChangeNothing, ReleasedUpdatesAreKept, ReplaysAreOfTheCourse, SectionOf, StartsAsTheDumpShows, StatesAreOfTheCourse, StepsAreOfTheirLines, StepsFollow, TranscriptIsOfTheCourse, TranscriptIsOneLine, told_by_course};
ghost use Rattle.mt_replay.specs.Steps.{Beginning, beginning, course, left};
ghost use Rattle.mt_replay.specs.Kept.{CommandsFinishOne, CommandsKeep, HasEras, IsReplayState};
ghost use Rattle.mt_replay_laws.specs.Through.{HoldsThrough, NothingIsStale, ScriptsKeep};
ghost use Rattle.mt_replay_laws.specs.Movers.{RetiresWhereIdle, Stays, StaysAlone, StaysFull, StaysUnderWay};
ghost use Rattle.mt_replay.specs.ReplayState.{command_text, first_file, machine_after, state_after};
ghost use Rattle.mt_output.specs.Ports.{Port, held};
ghost use Rattle.mt_replay.specs.Running.{Replays, ReplaysAs};
ghost use Rattle.mt_replay_laws.specs.Settling.{AbsentProcessorsDoNothing, AcceptedCallsAreUnderWay, AreHeld, CallsUnderWayChangeNothing, CompleteUpdatesSettle, EndsIdle, IsAdmittedAfter, IsSettledAfter, JoinsSettle, RefusedCallsChangeNothing, ReleasedStatesSettle, ReleasedWordsAreHeld, UpdatedWordsAreHeld, emptied_now};
ghost use Rattle.mt_replay.specs.Statuses.{AcceptedFirst, AcceptedUnlessRefused, BadTextEndsWithOffence, BeginsWith, EndsWith, HasRefusedFile, OffenceAlone, OneDumpShown, RefusedAlone, RefusedWhereFileIsRefused, ShowsDump};
ghost use Rattle.mt_replay_laws.specs.Through.{StatesHaveTheShownDump};
ghost use Rattle.mt_replay.specs.Texts.{absent_line, called_line, full_line, no_line, stale_count, under_way_line};
ghost use Rattle.mt_replay.specs.Transcript.{told_offence, transcript};
ghost use Rattle.mt_replay_laws.specs.WorkedScript.{IsReleaseOfUpdate, KeptFrom, bad_script, is_idle, join_at, join_script, joins_at, section_at, section_script, step_at, steps_at};
ghost use Rattle.mt_replay_laws.specs.WorkedStates.{after_join, busy, crowd, crowd_in_update, just_dumped, later_refused, resting, small_dump};
ghost use Rattle.mt_replay_laws.specs.WorkedSteps.{step_of, stores};

/// The headline's laws on updates, at the worked script's complete update, its first release and its refused update.
pub fn worked_laws_of_updates()
    ensures complete { CompleteUpdatesAreKept → KeptFrom (step_at 44).before.goal 2 (emptied_now (step_at 44).before.machine) (step_at 44) (steps_at 45 5) }
    ensures released { ReleasedUpdatesAreKept → IsReleaseOfUpdate }
    ensures refused { RefusedUpdatesChangeNothing → (left (step_at 50)).machine ≡ (step_at 50).before.machine }
{}

/// The laws of sections and steps, at a script that is one section.
pub fn worked_laws_of_sections()
    ensures accepted { AcceptedWhereIdleAndWhole → IsCall (section_at 2) ↔ ((section_at 2).before.machine.order ≡ None) × IsAccepted (section_at 2).before.goal }
    ensures those_registers { GoalsAreOfTheirSections → SectionOf (take 2 (course section_script)) (section_at 2) }
    ensures follow { StepsFollow → (section_at 3).before ≡ left (section_at 2) }
    ensures line { StepsAreOfTheirLines → (above : List (List ℕ)) × (line : List ℕ) × (below : List (List ℕ))
        × (lines_of section_script ≡ above ++ line ∷ below) × ((section_at 2).number ≡ length above + 1) × (command_of (section_at 2).before.now (section_at 2).number line ≡ Ok (asks.Section End)) }
{}

/// The laws of transcripts, at that script and at one whose dump is refused.
pub fn worked_laws_of_transcripts()
    ensures transcript { TranscriptIsOfTheCourse → transcript section_script ≡ told_by_course section_script }
    ensures written { ReplaysAreOfTheCourse → (rest : Option (List ℕ)) (sink : Port) (status : Status) → Replays (held section_script rest) sink status
        → ReplaysAs (told_by_course section_script) (held section_script rest) sink status }
    ensures one_line { TranscriptIsOneLine → ((o : Offence) × (transcript later_refused ≡ told_offence o))
        ⊎ ((version : ℕ) × (k : ℕ) × (fault : Fault) × (transcript later_refused ≡ transcript_with (dump_refused_line version k fault) status.Refused)) }
{}

/// The laws of processors that come and go.
pub fn worked_laws_of_movers()
    ensures joined { JoinsAreKept → HasNewcomer (join_at 1) × KeptFrom (first_file (join_at 1).before) 1 (emptied_now (with_newcomer (join_at 1).before.machine)) (join_at 1) (joins_at 2 3) }
    ensures newcomer { NewcomersWhereIdle → IsCall (join_at 1) ↔ ((join_at 1).before.machine.order ≡ None) × (length (join_at 1).before.machine.system.processors < 16) }
    ensures retires { RetiresWhereIdle → (left (step_of asks.Retire (crowd 2))).machine ≡ without_last (crowd 2).machine }
    ensures under_way { StaysUnderWay → Stays (step_of asks.Retire (crowd_in_update 2)) under_way_line }
    ensures full { StaysFull → Stays (step_of (asks.Newcomer Join) (crowd 16)) full_line }
    ensures alone { StaysAlone → Stays (step_of asks.Retire (crowd 1)) no_line }
{}

/// The laws of the states of a course, at a script in which a processor joins.
pub fn worked_laws_of_beginnings()
    ensures states { StatesAreOfTheCourse → (is_idle (join_at 1).before ≡ true) × (is_idle (left (join_at 1)) ≡ true) }
    ensures first_step { StartsAsTheDumpShows → All IsAccepted (bare_file 0x800 ∷ []) → (b : Beginning) × (beginning join_script ≡ Some b) × ((join_at 0).before ≡ b.state) }
{}

/// The laws of dumps, at one that is accepted and one whose second file is refused.
pub fn worked_laws_of_dumps()
    ensures one { OneDumpShown → (dump : Dump) → ShowsDump small_dump dump → dump ≡ dump_of (bare_file 0x806) }
    ensures states { StatesHaveTheShownDump → HoldsThrough (λ s. s.now.dump ≡ Some (dump_of (bare_file 0x806))) small_dump }
    ensures refused { RefusedWhereFileIsRefused → HasRefusedFile later_refused }
    ensures not_refused { RefusedWhereFileIsRefused → HasRefusedFile small_dump → ⊥ }
    ensures alone { RefusedAlone → (dump : Dump) (k : ℕ) (fault : Fault) → ShowsDump later_refused dump → IsFirstRefusal dump.files k fault
        → transcript later_refused ≡ transcript_with (dump_refused_line dump.version k fault) status.Refused }
    ensures accepted { AcceptedUnlessRefused → All IsAccepted (bare_file 0x806 ∷ []) }
    ensures accepted_first { AcceptedFirst → All IsAccepted (bare_file 0x806 ∷ []) → BeginsWith (transcript small_dump).text accepted_line }
{}

/// The laws of offences, at one behind some commands and at a dump that has no end.
pub fn worked_laws_of_statuses()
    ensures last { BadTextEndsWithOffence → EndsWith (transcript bad_script).text (offence_line (offence.Script (fault_at BadLine (record { line = 9; column = 1 })))) }
    ensures no_dump { OffenceAlone → (o : Offence) × (script_offence (codes "cpus 1\ndump\n0fe 400\n") ≡ Some o) × (transcript (codes "cpus 1\ndump\n0fe 400\n") ≡ told_offence o) }
{}

/// The laws of calls: a goal is refused, an update is under way, a goal is accepted, and a processor is absent.
pub fn worked_laws_of_calls()
    ensures refused { RefusedCallsChangeNothing → EndsIdle (record (resting stage.InBegin) { goal = bare_file 0x803 }) (refused_line (record { msr = 0x2ff; reason = UnsupportedType })) }
    ensures under_way { CallsUnderWayChangeNothing → EndsIdle (busy stage.InUpdate) under_way_line }
    ensures called { AcceptedCallsAreUnderWay → (command_text (resting stage.InBegin) (asks.Section End) ≡ called_line)
        × (machine_after (resting stage.InBegin) (asks.Section End) ≡ next (resting stage.InBegin).machine (Calls (bare_file 0x800))) }
    ensures absent { AbsentProcessorsDoNothing → (command_text (crowd 1) (stores 1 0x1000 7) ≡ absent_line) × (machine_after (crowd 1) (stores 1 0x1000 7) ≡ (crowd 1).machine) }
{}

/// The laws of states after an update, at the worked script's complete update and first release, and after a join.
pub fn worked_laws_of_told_updates()
    ensures complete { CompleteUpdatesSettle → IsSettledAfter (step_at 44).before (left (step_at 44)).machine }
    ensures words { UpdatedWordsAreHeld → AreHeld (word_at (left (step_at 44)).machine.system.memory) (left (step_at 44)) (asks.Ask 0 (ask.Load 0x1000) ∷ []) }
    ensures released { ReleasedStatesSettle → (o : Order) × ((step_at 37).before.machine.order ≡ Some o) × IsSettled (left (step_at 37)).machine.system (o.from_era + 1) o.goal }
    ensures held { ReleasedWordsAreHeld → (p : Machine) × IsFirstRelease p (left (step_at 37)).machine (record pair_order { goal = bare_file 0x800 }) × AreHeld (now p.system) (left (step_at 37)) [] }
    ensures joined { JoinsSettle → IsAdmittedAfter just_dumped (after_join just_dumped) }
{}

/// The laws of each state, at a script's first state and at the one that a join leaves.
pub fn worked_laws_of_states()
    ensures scripts { ScriptsKeep → IsReplayState just_dumped }
    ensures commands { CommandsKeep → IsReplayState just_dumped → IsReplayState (state_after just_dumped (asks.Newcomer Join)) }
    ensures eras { CommandsFinishOne → IsReplayState just_dumped → HasEras 1 (state_after just_dumped (asks.Newcomer Join)) }
    ensures stale { NothingIsStale → IsReplayState just_dumped → All (λ p. stale_count p ≡ 0) just_dumped.machine.system.processors }
{}
