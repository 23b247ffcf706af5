// Instances of the relations that laws cite: what meets each, and for each part what fails in that alone.
// Except: no instance fails in `HasNewcomer.one_more`, `IsAdmittedAfter.line_is` or `IsSettledAfter.risen` alone.
ghost use Rattle.std.specs.Prelude.{◌≡◌, ◌∷◌, [], codes, replicate, false};
ghost use Rattle.mt_kinds.specs.declared.mem_type.MemType.TheVariants.{WB};
ghost use Rattle.mt_dump.specs.Dumps.{dump_of};
ghost use Rattle.mt_machine.specs.declared.done.Done.TheVariants.{Value};
ghost use Rattle.mt_machine.specs.Machine.{Calls, run};
ghost use Rattle.mt_machine.specs.Start.{zero_memory};
ghost use Rattle.mt_machine_laws.specs.MachineWorkedRuns.{bare_file, idle, machine_of, one_window, palette, store};
ghost use Rattle.mt_ports.specs.declared.status.Status.TheVariants.{Done};
ghost use Rattle.mt_script.specs.declared.command.Command.TheVariants as asks;
ghost use Rattle.mt_script.specs.declared.command.Section.TheVariants.{Begin, Register, End};
ghost use Rattle.mt_script.specs.declared.command.Ask.TheVariants as ask;
ghost use Rattle.mt_script.specs.declared.command.Newcomer.TheVariants.{Up, Join};
ghost use Rattle.mt_script.specs.declared.command.Stage.TheVariants as stage;
ghost use Rattle.mt_stream.specs.Transcript.{transcript_with};
ghost use Rattle.mt_replay_laws.specs.Flat.{flat_done, flat_told_in};
ghost use Rattle.mt_replay_laws.specs.Headline.{ComesUp, HasNewcomer, IsCall, IsCalled, IsRefused, Joins, NoneOf, SectionOf, UpdateOf, stored_in};
ghost use Rattle.mt_replay.specs.Steps.{steps_in};
ghost use Rattle.mt_replay_laws.specs.Through.{HoldsAlong, HoldsThrough};
ghost use Rattle.mt_replay_laws.specs.Movers.{Stays};
ghost use Rattle.mt_replay.specs.Newcomers.{early_text};
ghost use Rattle.mt_replay_laws.specs.Settling.{AreHeld, AreWithoutCall, EndsIdle, IsAdmittedAfter, IsSettledAfter, stored_by_all};
ghost use Rattle.mt_replay.specs.Statuses.{BeginsWith, EndsWith, ShowsDump, ShowsNoDump};
ghost use Rattle.mt_replay.specs.Texts.{full_line, no_line, up_line};
ghost use Rattle.mt_replay_laws.specs.WorkedStates.{after_end, after_join, after_rest, at_end, busy, crowd, crowd_in_update, late_after_end, late_at_end, nines, over, painted, painted_by, resting, risen, small_dump, stored, two_processors, unlike_eras, with_first};
ghost use Rattle.mt_replay_laws.specs.WorkedSteps.{IsKept, begins, calls, first_store, is_late, passes, passes_over_a_buffer, releases, second_is_seven, seven_stored, step_of, stores_around_a_mapping, updated_processor, worked_file};

/// What an update keeps, and steps of which none calls.
pub fn worked_refusals()
    ensures kept { IsKept (λ a. 0) [] updated_processor }
    ensures other_register { IsKept (λ a. 0) [] (record updated_processor { file = record worked_file { default_type = 0x800 } }) → ⊥ }
    ensures stored_again { IsKept seven_stored (0x100000 ∷ []) updated_processor }
    ensures other_word_stored { IsKept seven_stored (0x100008 ∷ []) updated_processor → ⊥ }
    ensures second_word_lost { IsKept second_is_seven (0x100000 ∷ []) updated_processor → ⊥ }
    ensures quiet { NoneOf IsCall (passes ∷ releases ∷ []) }
    ensures first_calls { NoneOf IsCall (calls ∷ begins ∷ []) → ⊥ }
    ensures later_call { NoneOf IsCall (begins ∷ calls ∷ []) → ⊥ }
{}

/// Steps that call for an update, by each of the four lines, and steps that don't.
pub fn worked_calling_steps()
    ensures section { IsCall calls }
    ensures complete { IsCall (step_of (asks.Section End) (resting stage.InUpdate)) }
    ensures up { IsCall (step_of (asks.Newcomer Up) (crowd 2)) }
    ensures join { IsCall (step_of (asks.Newcomer Join) (crowd 2)) }
    ensures retire { IsCall (step_of asks.Retire (crowd 2)) → ⊥ }
    ensures other_number { ComesUp (step_of (asks.Newcomer Up) (crowd 2)) 3 → ⊥ }
    ensures other_joined { Joins (step_of (asks.Newcomer Join) (crowd 2)) 3 → ⊥ }
    ensures called { IsCalled (step_of (asks.Newcomer Up) (crowd 2)) }
    ensures joined_not_called { IsCalled (step_of (asks.Newcomer Join) (crowd 2)) → ⊥ }
{}

/// A section and an update of a few steps, and what isn't theirs in one part; and refused steps.
pub fn worked_short_updates()
    ensures section { SectionOf (begins ∷ []) calls }
    ensures section_elsewhere { (u : SectionOf (begins ∷ []) calls) → u.before ≡ begins ∷ [] → ⊥ }
    ensures update { UpdateOf (calls ∷ passes ∷ []) releases }
    ensures update_elsewhere { (u : UpdateOf (calls ∷ passes ∷ []) releases) → u.before ≡ calls ∷ passes ∷ releases ∷ [] → ⊥ }
    ensures call_behind_the_first_release { (u : UpdateOf (calls ∷ passes ∷ releases ∷ calls ∷ passes ∷ []) releases)
        → u.waiting ≡ [] → u.pass ≡ passes → u.between ≡ [] → u.first ≡ releases → u.again ≡ calls ∷ passes ∷ releases ∷ [] → ⊥ }
    ensures store_waits { (u : UpdateOf (calls ∷ passes_over_a_buffer ∷ []) releases) → u.pass ≡ passes_over_a_buffer → ⊥ }
    ensures under_way { IsRefused is_late }
    ensures not_refused { IsRefused calls → ⊥ }
{}

/// The other parts of sections and updates, each with what fails in it.
pub fn worked_updates_of_steps()
    ensures other_goal { (u : SectionOf (begins ∷ []) (step_of (asks.Section End) (record (resting stage.InBegin) { goal = bare_file 0x806 }))) → u.opens ≡ begins → u.lines ≡ [] → ⊥ }
    ensures two_sections { (u : SectionOf (begins ∷ calls ∷ []) calls) → u.lines ≡ calls ∷ [] → ⊥ }
    ensures begun_by_a_fence { (u : SectionOf (step_of (asks.Ask 0 ask.Fence) (resting stage.Commands) ∷ []) calls) → u.opens ≡ step_of (asks.Ask 0 ask.Fence) (resting stage.Commands) → ⊥ }
    ensures ended_by_a_register { SectionOf (begins ∷ []) (step_of (asks.Section (Register 0x2ff 0x806)) (resting stage.InBegin)) → ⊥ }
    ensures no_call { (u : UpdateOf (begins ∷ passes ∷ []) releases) → u.call ≡ begins → ⊥ }
    ensures no_pass { (u : UpdateOf (calls ∷ begins ∷ []) releases) → u.pass ≡ begins → ⊥ }
    ensures no_release { (u : UpdateOf (calls ∷ passes ∷ []) begins) → u.first ≡ begins → ⊥ }
    ensures second_pass { (u : UpdateOf (calls ∷ passes ∷ passes ∷ []) releases) → u.waiting ≡ passes ∷ [] → ⊥ }
    ensures second_release { (u : UpdateOf (calls ∷ passes ∷ releases ∷ []) releases) → u.waiting ≡ [] → u.pass ≡ passes → u.between ≡ releases ∷ [] → ⊥ }
{}

/// Steps with a newcomer, and steps that leave the machine as it was.
pub fn worked_moving_steps()
    ensures newcomer { HasNewcomer (step_of (asks.Newcomer Join) (crowd 2)) }
    ensures only_called { HasNewcomer (step_of (asks.Newcomer Up) (crowd 2)) → ⊥ }
    ensures full { Stays (step_of (asks.Newcomer Up) (crowd 16)) full_line }
    ensures other_line { Stays (step_of (asks.Newcomer Up) (crowd 16)) no_line → ⊥ }
    ensures came { Stays (step_of (asks.Newcomer Up) (crowd 2)) (up_line 2) → ⊥ }
{}

/// Commands of which none calls for an update, and lists in which one does or doesn't fit.
pub fn worked_without_call()
    ensures under_way { AreWithoutCall (busy stage.Commands) (asks.Section Begin ∷ asks.Section End ∷ asks.Report ∷ []) }
    ensures full { AreWithoutCall (crowd 16) (asks.Newcomer Up ∷ asks.Newcomer Join ∷ []) }
    ensures no_such_processor { AreWithoutCall painted (asks.Blank ∷ asks.Ask 2 ask.Fence ∷ []) → ⊥ }
    ensures called { AreWithoutCall (resting stage.InBegin) (asks.Section End ∷ []) → ⊥ }
    ensures up { AreWithoutCall (crowd 2) (asks.Newcomer Up ∷ []) → ⊥ }
    ensures room_again { AreWithoutCall (crowd 16) (asks.Retire ∷ asks.Newcomer Join ∷ []) → ⊥ }
{}

/// What holds of each state that lines lead to, and what doesn't of the first or the last.
pub fn worked_each_state()
    ensures each { HoldsAlong (λ s. s.now.stage ≡ stage.Commands) painted (steps_in 1 (codes "fence 0" ∷ codes "go" ∷ []) painted) }
    ensures not_of_the_first { HoldsAlong (λ s. s.now.stage ≡ stage.InBegin) painted (steps_in 1 (codes "begin" ∷ []) painted) → ⊥ }
    ensures not_of_the_last { HoldsAlong (λ s. s.now.stage ≡ stage.Commands) painted (steps_in 1 (codes "fence 0" ∷ codes "begin" ∷ []) painted) → ⊥ }
{}

/// The words that commands store, and words that aren't held.
pub fn worked_words()
    ensures in_turn { stored_by_all painted stores_around_a_mapping ≡ 0x100010 ∷ 0x100000 ∷ [] }
    ensures stored { stored_in (first_store ∷ step_of (asks.Ask 0 (ask.Load 0x1008)) painted ∷ step_of (asks.Ask 0 (ask.Store 0x6000 1)) painted ∷ []) ≡ 0x100000 ∷ [] }
    ensures emptied_since { AreHeld (λ address. 0) (painted_by (store 0 0x3008 7 ∷ [])) (asks.Ask 0 ask.Fence ∷ []) → ⊥ }
    ensures other_word_stored { AreHeld (λ address. 0) (painted_by (store 0 0x3000 7 ∷ [])) (asks.Ask 0 (ask.Store 0x1008 1) ∷ asks.Ask 0 ask.Fence ∷ []) → ⊥ }
{}

/// What isn't settled after a whole update: `only_called` in two parts, the others in one.
pub fn worked_settled_states()
    ensures only_called { IsSettledAfter (record at_end { now = two_processors stage.InBegin }) after_end → ⊥ }
    ensures other_register { IsSettledAfter at_end (with_first (record idle { file = bare_file 0x806; era = 1 }) after_end) → ⊥ }
    ensures older_processor { IsSettledAfter at_end (with_first idle after_end) → ⊥ }
    ensures newer_entry_since { IsSettledAfter late_at_end late_after_end → ⊥ }
    ensures order_stays { IsSettledAfter at_end (record after_end { order = (run palette (Calls (bare_file 0x800) ∷ [])).order }) → ⊥ }
    ensures windows_lost { IsSettledAfter (resting stage.InUpdate) (over (zero_memory []) after_rest) → ⊥ }
    ensures word_lost { IsSettledAfter at_end (over (zero_memory one_window) after_end) → ⊥ }
{}

/// What isn't so after a processor joined, in one part.
pub fn worked_joined_states()
    ensures none_more { IsAdmittedAfter (crowd 1) (machine_of (risen ∷ [])) → ⊥ }
    ensures older_processors { IsAdmittedAfter (crowd 2) (machine_of (replicate 3 idle)) → ⊥ }
    ensures other_register { IsAdmittedAfter (crowd 2) (machine_of (risen ∷ risen ∷ record risen { file = bare_file 0x806 } ∷ [])) → ⊥ }
    ensures newer_entry_since { IsAdmittedAfter unlike_eras (machine_of (replicate 3 risen)) → ⊥ }
    ensures order_stays { IsAdmittedAfter (crowd 1) (record (after_join (crowd 1)) { order = (crowd_in_update 1).machine.order }) → ⊥ }
    ensures windows_lost { IsAdmittedAfter (crowd 1) (over (zero_memory []) (after_join (crowd 1))) → ⊥ }
    ensures word_lost { IsAdmittedAfter stored (over (zero_memory one_window) (after_join stored)) → ⊥ }
{}

/// What a script's dump shows and doesn't, and what holds from its end on.
pub fn worked_dumps()
    ensures shows { ShowsDump small_dump (dump_of (bare_file 0x806)) }
    ensures shows_no_other { ShowsDump small_dump (dump_of (bare_file 0x800)) → ⊥ }
    ensures no_end { ShowsNoDump (codes "cpus 1\ndump\n0fe 400\n") }
    ensures offence_before_the_end { ShowsNoDump (codes "cpus 1\ndump\n0fe 400\n0fe 400\nend\n") }
    ensures too_few_processors { ShowsNoDump (codes "cpus 1\ndump\nversion 2\ncpu 0\n0fe 400\ncpu 1\nend\n") }
    ensures first_state { HoldsThrough (λ s. s.now.stage ≡ stage.Rams) small_dump }
    ensures not_of_the_first_state { HoldsThrough (λ s. s.now.stage ≡ stage.Commands) small_dump → ⊥ }
{}

/// Texts at the ends of others, and an end of a section that changes nothing.
pub fn worked_line_ends()
    ensures ends { EndsWith (codes "abc") (codes "bc") }
    ensures ends_not { EndsWith (codes "ab") (codes "a") → ⊥ }
    ensures begins { BeginsWith (codes "abc") (codes "ab") }
    ensures begins_not { BeginsWith (codes "abc") (codes "b") → ⊥ }
    ensures idle { EndsIdle (busy stage.InBegin) (codes "under way\n") }
    ensures not_idle { EndsIdle (resting stage.InBegin) (codes "called\n") → ⊥ }
    ensures other_text { EndsIdle (busy stage.InBegin) (codes "called\n") → ⊥ }
{}

/// The flat machine's values in place of the machine's.
#[tactic(auto, unfolding(hex::specs::Hex::encode_with))]
pub fn worked_flat_values()
    ensures value { flat_done palette nines 0 0x1000 (Value 0 WB) ≡ Value 9 WB }
    ensures lines { flat_told_in (record { line = 4; column = 1 }) 1 (codes "store 0 1000 7" ∷ codes "load 0 1000" ∷ codes "load 0 1008" ∷ []) painted nines
        ≡ transcript_with (codes "stored WB\nvalue 0000000000000007 WB\nvalue 0000000000000009 WB\n") Done }
{}

/// The output that may be written when an allocation fails.
pub fn worked_early_texts()
    ensures early { early_text (codes "cpus 1\ndump\n0fe 400\nend\nretire\n") ≡ codes "accepted\n" }
    ensures late { early_text (codes "cpus 1\ndump\n0fe 400\nend\nretire\nup\n") ≡ codes "accepted\nno\nup 1\n" }
{}
