// The laws, each at a state or a run that meets its premises.
ghost use Rattle.std.specs.Prelude.{◌%◌, ◌++◌, ◌<◌, ◌^◌, ◌∷◌, ◌≡◌, ◌⊎◌, [], false, None, Some, true, ℕ};
ghost use Rattle.std.specs.List.{All};
ghost use Rattle.mt_machine.specs.declared.control.Control.TheVariants.{Cr3};
ghost use Rattle.mt_machine.specs.declared.op.Op.TheVariants.{Fence, Load};
ghost use Rattle.mt_machine.specs.declared.phase.Phase.TheVariants.{Taken};
ghost use Rattle.mt_machine.specs.Access.{access};
ghost use Rattle.mt_machine.specs.Bus.{drain};
ghost use Rattle.mt_machine.specs.ComingAndGoing.{gone, reset, with_newcomer, without_last};
ghost use Rattle.mt_machine.specs.Control.{control};
ghost use Rattle.mt_machine.specs.Machine.{Calls, Cancels, first_barrier_count, Machine, next, Reached, run, Steps};
ghost use Rattle.mt_machine.specs.Memory.{place, word_at};
ghost use Rattle.mt_machine.specs.Start.{IsQuiet, start_machine, start_with};
ghost use Rattle.mt_machine.specs.System.{change, IsCoherent, IsSound, now, with_self_snoop};
ghost use Rattle.mt_machine.specs.Update.{emptied, IsHeld, IsSettled, settled_processor, updated};
ghost use Rattle.mt_machine_laws.specs.MachineWorkedRuns.{alone, bare, bare_file, goal_of, idle, load, machine_of, one_window, own, palette, ready, whole};
ghost use Rattle.mt_machine.specs.declared.event.Event.TheVariants.{Arrive, Leave, Release, Take, WriteBack};
ghost use Rattle.mt_laws.specs.Barriers.{IsFull, OpenWhereFull};
ghost use Rattle.mt_laws.specs.ComingAndGoing.{GoneKeepsWords, GoneStaysFresh, GoneStaysQuiet, GoneStaysSound, ResetStaysFresh, ResetStaysQuiet, ResetStaysSound};
ghost use Rattle.mt_laws.specs.Kept.{OrderHolds, OrdersHold, SameHoldings, StepsKeepNow, StillEventsKeep, TakeFences};
ghost use Rattle.mt_laws.specs.Settled.{FirstReleaseFollows, HeldAfterEachFirst, HeldAfterRelease, IsFirstRelease, IsFresh, NoBuffersAtPass, NothingIsStale, SettledAfterEachRelease};
ghost use Rattle.mt_laws.specs.Sound.{AccessKeepsSound, ControlKeepsSound, DrainKeepsSound, LinesAreLow, StaysCoherent, StaysSound, WriteBacksHavePlaces};
ghost use Rattle.mt_laws.specs.Starts.{ErasFit, FlaggedStartIsQuiet, HasEras, ReachedIsQuiet, SnoopingStaysQuiet, SnoopingStaysSound, StartIsQuiet, UpdatedIsQuiet};
ghost use Rattle.mt_laws.specs.Updates.{all_running, BroadcastUpdate, CancelledBroadcast, CancelledUpdate, HoldsNothing, LeadsToBroadcast, LedCancelled, LedEnds, LedNotGiven, LedReleased, LedToSecondBarrier, LedUpdate, TakesBroadcast, UpdatedWords, WholeUpdate};
ghost use Rattle.mt_machine_laws.specs.RunWorkedRuns.{bare_called, between_of_bare, pair_arrived, pair_order, unlike_pair};
ghost use Rattle.mt_laws.specs.Counts.{CountOfSteps, IsCounted, IsEachAtMostOnce, IsEachOnce, TakesAtMostOnce, TakesOnce};
ghost use Rattle.mt_laws.specs.Runs.{LedIsReached};
ghost use Rattle.mt_machine_laws.specs.WorkedUpdates.{at_pass, buffered, by_buffered, dirty_released, dirty_taken, given_order, pair_to_release, ready_pair, to_flush, to_release};

/// What accesses, control instructions and drains leave is sound, and dirty words and lines have their places.
pub fn worked_laws_of_sound_systems()
    ensures access { AccessKeepsSound → IsSound (access (alone whole).system 0 (Load 0x1008)).after }
    ensures control { ControlKeepsSound → IsSound (control (alone whole).system 0 Cr3).after }
    ensures drained { DrainKeepsSound → IsSound (drain 0 (alone whole).system) }
    ensures low { LinesAreLow → All (λ p. All (λ l. l.number < 2 ^ 46) p.lines × All (λ l. l.number < 2 ^ 46) p.buffers) (alone whole).system.processors }
    ensures written_back { WriteBacksHavePlaces → (i : ℕ) × (place (alone whole).system.memory 0x100008 ≡ Some i) × (i < 512) }
    ensures snooping { SnoopingStaysSound → IsSound (with_self_snoop 0 (alone whole).system) }
    ensures words { UpdatedWords → word_at (updated (alone whole).system (0 ∷ []) (bare_file 0x806)).system.memory 0x100010 ≡ now (emptied (alone whole).system (0 ∷ [])) 0x100010 }
{}

/// Two processors at their start, of which one is self-snooping, over memory, and one that holds something.
pub fn worked_laws_of_quiet_machines()
    ensures start { StartIsQuiet → IsQuiet (start_machine (bare_file 0x800 ∷ bare_file 0x801 ∷ []) one_window) }
    ensures flagged { FlaggedStartIsQuiet → IsQuiet (start_with (false ∷ true ∷ []) (bare_file 0x800 ∷ bare_file 0x801 ∷ []) one_window) }
    ensures snooping { SnoopingStaysQuiet → IsQuiet (record (alone whole) { system = with_self_snoop 0 (alone whole).system }) }
    ensures updated { UpdatedIsQuiet → IsQuiet (updated (alone whole).system (0 ∷ []) (bare_file 0x806)) }
{}

/// A processor comes up beside one that holds something. One that holds something goes.
pub fn worked_laws_of_comers_and_goers()
    ensures come { ResetStaysSound → IsSound (reset (alone whole).system) }
    ensures come_quiet { ResetStaysQuiet → IsQuiet (with_newcomer (alone whole)) }
    ensures gone { GoneStaysSound → IsSound (gone (machine_of (idle ∷ whole ∷ [])).system) }
    ensures gone_quiet { GoneStaysQuiet → IsQuiet (without_last (machine_of (idle ∷ whole ∷ []))) }
    ensures words { GoneKeepsWords → now (gone (machine_of (idle ∷ whole ∷ [])).system) 0x100010 ≡ now (drain 1 (machine_of (idle ∷ whole ∷ [])).system) 0x100010 }
{}

/// A processor with a line, a buffer and an entry of its own era, when another comes up, and when it goes.
pub fn worked_fresh_comers_and_goers()
    ensures come { ResetStaysFresh → All IsFresh (reset (alone whole).system).processors }
    ensures gone { GoneStaysFresh → All IsFresh (gone (machine_of (whole ∷ whole ∷ [])).system).processors }
{}

/// Two who have arrived at the first barrier, where the go is given.
pub fn worked_laws_of_barriers()
    ensures { OpenWhereFull → IsFull (first_barrier_count pair_order pair_arrived.system.processors) }
{}

/// A take, a call, and a state that is reached by a call and the go.
pub fn worked_laws_of_steps()
    ensures take { TakeFences → next bare_called (Steps 0 Take) ≡ record bare_called { system = change (λ p. record p { phase = Taken }) 0 (access bare_called.system 0 Fence).after } }
    ensures call { StillEventsKeep → SameHoldings palette.system (next palette (Calls goal_of)).system }
    ensures coherent { StaysCoherent → IsCoherent bare_called.system }
{}

/// A word that is written back, and eras after a take.
pub fn worked_kept_by_steps()
    ensures now { StepsKeepNow → now (next (run dirty_taken to_flush) (Steps 0 (WriteBack 0x100008 6))).system 0x100008 ≡ now (run dirty_taken to_flush).system 0x100008 }
    ensures eras_after_a_take { ErasFit → HasEras (next bare_called (Steps 0 Take)) }
{}

/// An update that is cancelled, and one that goes on to its release.
pub fn worked_laws_of_updates()
    ensures cancelled { CancelledUpdate → run bare (Calls (bare_file 0x806) ∷ Steps 0 Take ∷ Cancels ∷ Steps 0 Leave ∷ []) ≡ record { system = emptied bare.system (0 ∷ []); order = None } }
    ensures takes { TakesAtMostOnce → IsEachAtMostOnce 1 (0 ∷ []) }
    ensures counted { CountOfSteps → IsCounted bare_called 0 between_of_bare }
{}

/// An update that empties a buffer, and one that writes words back, each up to its release.
pub fn worked_whole_updates()
    ensures whole { WholeUpdate → run buffered (Calls (bare_file 0x806) ∷ by_buffered) ≡ updated buffered.system (0 ∷ []) (bare_file 0x806) }
    ensures broadcast { BroadcastUpdate → run dirty_taken (to_release ++ Steps 0 Release ∷ []) ≡ updated dirty_taken.system [] (bare_file 0x806) }
    ensures led { LedUpdate → next (run dirty_taken to_release) (Steps 0 Release) ≡ updated dirty_taken.system [] (bare_file 0x806) }
{}

/// An update of two that is cancelled while one has arrived: before its end and where it ends.
pub fn worked_cancelled_updates()
    ensures broadcast { CancelledBroadcast → run ready_pair (Steps 0 Arrive ∷ Cancels ∷ Steps 1 Leave ∷ Steps 0 Leave ∷ []) ≡ record { system = all_running ready_pair.system; order = None } }
    ensures before { LedNotGiven → all_running (run ready_pair (Steps 0 Arrive ∷ Cancels ∷ Steps 1 Leave ∷ [])).system ≡ all_running ready_pair.system }
    ensures end { LedCancelled → next (run ready_pair (Steps 0 Arrive ∷ Cancels ∷ Steps 1 Leave ∷ [])) (Steps 0 Leave) ≡ record { system = all_running ready_pair.system; order = None } }
{}

/// Between two write-backs, and before the first pass.
pub fn worked_laws_of_reached_states()
    ensures sound { StaysSound → IsSound (run dirty_taken to_flush).system }
    ensures orders { OrdersHold → OrderHolds (run dirty_taken to_flush) given_order }
    ensures stale { NothingIsStale → All IsFresh (run dirty_taken to_flush).system.processors }
    ensures no_buffers { NoBuffersAtPass → All (λ q. q.buffers ≡ []) at_pass.system.processors }
    ensures led { LedIsReached → Reached dirty_taken (run dirty_taken to_release) }
    ensures quiet { ReachedIsQuiet → IsQuiet (run ready_pair (Steps 0 Arrive ∷ Cancels ∷ Steps 1 Leave ∷ Steps 0 Leave ∷ [])) }
{}

/// From a first release on, with a load behind it.
pub fn worked_laws_of_releases()
    ensures settled { SettledAfterEachRelease → IsSettled (run dirty_released (load 0 0x1000 ∷ [])).system 1 (bare_file 0x806) }
    ensures held { HeldAfterRelease → IsHeld at_pass.system dirty_released (load 0 0x1000 ∷ []) }
    ensures first { FirstReleaseFollows → (p : Machine) × Reached dirty_taken p × IsFirstRelease p dirty_released given_order }
    ensures each { HeldAfterEachFirst → (p : Machine) × Reached dirty_taken p × IsFirstRelease p dirty_released given_order × IsHeld p.system dirty_released (load 0 0x1000 ∷ []) }
{}

/// At the second barrier, behind one of two releases, and at the end.
pub fn worked_laws_of_ends()
    ensures barrier { LedToSecondBarrier → All (HoldsNothing (bare_file 0x806)) (run dirty_taken to_release).system.processors
        × ((address : ℕ) → address % 8 ≡ 0 → word_at (run dirty_taken to_release).system.memory address ≡ now dirty_taken.system address) }
    ensures released { LedReleased → own (run ready_pair pair_to_release) 1 ≡ settled_processor (bare_file 0x806) ready }
    ensures end { LedEnds → (dirty_released ≡ updated dirty_taken.system [] (bare_file 0x806)) ⊎ (dirty_released ≡ record { system = all_running dirty_taken.system; order = None }) }
    ensures takes { TakesOnce → IsEachOnce 1 (0 ∷ []) }
    ensures broadcast { TakesBroadcast → LeadsToBroadcast unlike_pair (bare_file 0x806) (1 ∷ 0 ∷ []) }
{}
