// Words and views that meet the rule of the table, and that fail it in one part; where a store goes to; and what doesn't
// follow on the words and views at the start.
ghost use Rattle.std.specs.Prelude.{◌≡◌, ℕ, [], None, Some};
ghost use mathlib.Core.Option.{none};
ghost use Rattle.atomic_table.specs.Table.{opening, step};
ghost use Rattle.mt_machine.specs.declared.event.Event.TheVariants.{Arrive, Leave, Pass, Release, SetNoFill};
ghost use Rattle.mt_machine.specs.declared.phase.Phase.TheVariants.{Passed};
ghost use Rattle.mt_machine.specs.Machine.{Cancels as CancelsUpdate, Goes, Steps};
ghost use Rattle.mt_rendezvous.specs.declared.view.Added.TheVariants.{Once};
ghost use Rattle.mt_rendezvous.specs.declared.view.Key.{Key};
ghost use Rattle.mt_rendezvous.specs.Station.{Meets, first_view, held, root_left, start_of};
ghost use Rattle.mt_rendezvous.specs.Plays.{GoesTo, Sat, TellsSeatStep};
ghost use Rattle.mt_rendezvous.specs.Laws.{ComesOf, StationFollows};
ghost use Rattle.mt_rendezvous.specs.Calls.{opening_words};
ghost use Rattle.mt_thread_laws.specs.WorkedStations.{at_start, but_word, first, start, zeros};

/// Words and views that meet the rule, and that don't for one thing.
pub fn worked_rule()
    ensures opened { (key : Key) → start_of key ≡ start → Meets key (opening (opening_words 2 zeros) [] (first_view key)) }
    ensures counted { (key : Key) → start_of key ≡ start → Meets key (but_word key 0 1) → ⊥ }
    ensures counted_again { (key : Key) → start_of key ≡ start → Meets key (but_word key 1 1) → ⊥ }
    ensures coded { (key : Key) → start_of key ≡ start → Meets key (but_word key 3 1) → ⊥ }
    ensures short { (key : Key) → start_of key ≡ start → Meets key (opening (opening_words 2 []) [] (first_view key)) → ⊥ }
    ensures missing { (key : Key) → start_of key ≡ start → Meets key (opening (opening_words 2 zeros) [] (root_left (first_view key))) → ⊥ }
{}

/// Where a store goes to, and where it doesn't.
pub fn worked_places()
    ensures own_phase { GoesTo start (held 0 (first Passed) Once) None (step 0 2 1 0 none) }
    ensures other_word { GoesTo start (held 0 (first Passed) Once) None (step 0 3 1 0 none) → ⊥ }
    ensures other_code { GoesTo start (held 0 (first Passed) Once) None (step 0 2 2 0 none) → ⊥ }
    ensures word_back { GoesTo start (held 0 (first Passed) Once) (Some (0x100008, 6)) (step 0 5 6 0 none) }
    ensures other_value { GoesTo start (held 0 (first Passed) Once) (Some (0x100008, 6)) (step 0 5 7 0 none) → ⊥ }
    ensures other_place { GoesTo start (held 0 (first Passed) Once) (Some (0x100008, 6)) (step 0 6 6 0 none) → ⊥ }
{}

/// What doesn't follow on the words and views at the start.
pub fn worked_follows()
    ensures not_kept { (key : Key) → start_of key ≡ start → (m : Meets key (at_start key)) → StationFollows key (at_start key) (but_word key 0 1) m None → ⊥ }
    ensures not_enabled { (key : Key) → start_of key ≡ start → (m : Meets key (at_start key)) → StationFollows key (at_start key) (at_start key) m (Some (Steps 7 Arrive)) → ⊥ }
    ensures not_gone_on { (key : Key) → start_of key ≡ start → (m : Meets key (at_start key)) → StationFollows key (at_start key) (at_start key) m (Some Goes) → ⊥ }
{}

/// Of which steps an event comes, and of which it doesn't.
pub fn worked_steps_of_events()
    ensures released { ComesOf 1 0 (Some (Steps 0 Release)) }
    ensures released_by_addition { ComesOf 1 1 (Some (Steps 0 Release)) → ⊥ }
    ensures released_at_first { ComesOf 0 0 (Some (Steps 0 Release)) → ⊥ }
    ensures passed_by_addition { ComesOf 0 1 (Some (Steps 0 Pass)) → ⊥ }
    ensures left_by_addition { ComesOf 0 1 (Some (Steps 0 Leave)) → ⊥ }
    ensures arrived_by_load { ComesOf 0 0 (Some (Steps 0 Arrive)) → ⊥ }
    ensures stored { ComesOf 2 1 (Some (Steps 0 SetNoFill)) }
    ensures counted { ComesOf 1 1 (Some (Steps 0 SetNoFill)) → ⊥ }
    ensures cancelled_by_one { ComesOf 0 1 (Some CancelsUpdate) → ⊥ }
{}

/// No seat adds more to the second count than 1.
pub fn worked_addition()
    ensures { (me new : Sat) (found : ℕ) → TellsSeatStep (step 0 1 2 0 none) me found new → ⊥ }
{}
