// Instances of relations that laws speak of. Each has a state that meets it, and for each of its parts one that fails in
// just that, except the last event of an update: the other parts imply it.
ghost use Rattle.std.specs.Prelude.{◌∷◌, []};
ghost use Rattle.mt_machine.specs.declared.event.Event.TheVariants.{Release};
ghost use Rattle.mt_machine.specs.declared.op.Op.TheVariants.{Fence};
ghost use Rattle.mt_machine.specs.Machine.{Accesses, Goes, Steps, run};
ghost use Rattle.mt_machine_laws.specs.MachineWorkedRuns.{alone, bare, bare_file, call_order, calling, goal_of, idle, keeper, load, machine_of, mapping, palette, ready, store, with_first_word, with_word};
ghost use Rattle.mt_machine_laws.specs.RunWorkedRuns.{bare_called, pair, pair_order};
ghost use Rattle.mt_core.specs.Headline.{HasRisenByOne, WaitsWhereFor};
ghost use Rattle.mt_core.specs.Rounds.{EndsByRelease, IsUpdateByEvents};
ghost use Rattle.mt_core.specs.Since.{HaveNoBuffers, IsHeldSince, IsSettledSince, KeepsWord};
ghost use Rattle.mt_core.specs.Stops.{StopsWhereOutside};
ghost use Rattle.mt_machine_laws.specs.CoreWorkedRuns.{come, count, events_of_bare, to_first_release, without_arrive};

/// Where a step waits, and doesn't for one thing.
pub fn worked_waits()
    ensures waits { WaitsWhereFor (calling pair_order (come ∷ ready ∷ [])) 0 come (count 2 3) }
    ensures answers_alone { WaitsWhereFor (calling pair_order (come ∷ ready ∷ [])) 0 ready (count 2 3) → ⊥ }
    ensures does_an_event { WaitsWhereFor (calling pair_order (come ∷ ready ∷ [])) 1 come (count 2 3) → ⊥ }
{}

/// Where a step stops, and doesn't for one thing.
pub fn worked_stops()
    ensures stops { StopsWhereOutside bare 0 idle }
    ensures not_running { StopsWhereOutside (alone ready) 0 ready → ⊥ }
    ensures not_outside { StopsWhereOutside (calling (record call_order { from_era = 1 }) (idle ∷ [])) 0 idle → ⊥ }
    ensures does_an_event { StopsWhereOutside bare_called 0 (record idle { era = 1 }) → ⊥ }
{}

/// A whole update by events, and what is none for one thing.
pub fn worked_updates_by_events()
    ensures ends { EndsByRelease (Goes ∷ Steps 1 Release ∷ []) }
    ensures not_last { EndsByRelease (Steps 0 Release ∷ Goes ∷ []) → ⊥ }
    ensures by_events { IsUpdateByEvents bare (bare_file 0x806) events_of_bare }
    ensures not_enabled { IsUpdateByEvents bare (bare_file 0x806) without_arrive → ⊥ }
    ensures access { IsUpdateByEvents bare (bare_file 0x806) (Accesses 0 Fence ∷ events_of_bare) → ⊥ }
    ensures one_alone { IsUpdateByEvents pair (bare_file 0x806) to_first_release → ⊥ }
{}

/// What is settled and held since an update, and what an event keeps, and what isn't for one thing.
pub fn worked_since()
    ensures settled { IsSettledSince (alone keeper) 0 goal_of [] }
    ensures newer_entry_since { IsSettledSince (alone (record keeper { mappings = mapping 1 0x100 0 ∷ []; entries = []; era = 2 })) 0 goal_of (load 0 0x1000 ∷ []) → ⊥ }
    ensures held { IsHeldSince palette (load 0 0x1000 ∷ []) 0x100000 }
    ensures second_word { IsHeldSince (run palette (store 0 0x3008 7 ∷ [])) (Accesses 0 Fence ∷ []) 0x100008 → ⊥ }
    ensures keeps { KeepsWord (with_first_word 7 palette).system (run palette (store 1 0x1000 7 ∷ [])).system 0x100000 }
    ensures changes_the_second { KeepsWord palette.system (with_word 0x100008 7 palette).system 0x100008 → ⊥ }
    ensures no_buffers { HaveNoBuffers (idle ∷ record keeper { buffers = [] } ∷ []) }
    ensures a_buffer { HaveNoBuffers (idle ∷ keeper ∷ []) → ⊥ }
{}

/// Eras that rise by at most one, and that don't for one thing.
pub fn worked_rises()
    ensures risen { HasRisenByOne (machine_of (idle ∷ idle ∷ [])).system (machine_of (record idle { era = 1 } ∷ idle ∷ [])).system }
    ensures by_two { HasRisenByOne (alone idle).system (alone (record idle { era = 2 })).system → ⊥ }
    ensures one_less { HasRisenByOne (machine_of (idle ∷ idle ∷ [])).system (alone idle).system → ⊥ }
{}
