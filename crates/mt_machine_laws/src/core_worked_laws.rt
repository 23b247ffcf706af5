// Laws at two processors, most of them in era 3 and of which none is like the other, where the second goes ahead.
ghost use Rattle.std.specs.Prelude.{◌∷◌, [], ℕ, List};
ghost use Rattle.mt_machine.specs.declared.event.Event.TheVariants.{Pass, Release, WriteBack};
ghost use Rattle.mt_machine.specs.Machine.{Machine, MachineEvent, Reached, Steps, next};
ghost use Rattle.mt_machine.specs.Start.{IsQuiet};
ghost use Rattle.mt_machine.specs.Update.{IsHeld, updated};
ghost use Rattle.mt_machine_laws.specs.MachineWorkedRuns.{bare_file, calling, own, ready};
ghost use Rattle.mt_laws.specs.Barriers.{BarriersHold, NoneActsInChange, NoneRunsInChange};
ghost use Rattle.mt_laws.specs.Counts.{IsCounted};
ghost use Rattle.mt_laws.specs.Kept.{OrderHolds};
ghost use Rattle.mt_machine_laws.specs.RunWorkedRuns.{pair_order};
ghost use Rattle.mt_machine_laws.specs.WorkedUpdates.{given_order, two_in_change};
ghost use Rattle.mt_core.specs.Headline.{BarriersHoldThroughout, ErasRise, HasRisenByOne, HeldFromFirstRelease, IsQuietWithoutOrder, NoBuffersWhereOnePasses, NoneActsThroughout, NoneRunsThroughout, OrdersHoldThroughout, SettledFromRelease, StepsCountThroughout, StepsKeepThroughout, WaitsAtBarriers, WaitsWhereFor};
ghost use Rattle.mt_core.specs.Rounds.{IsUpdateByEvents, Rounds, TurnsEnd, UpdatedWordsAreHeld, UpdatesAreReached, UpdatesSettle, with_go_given};
ghost use Rattle.mt_core.specs.Since.{HaveNoBuffers, IsHeldSince, IsSettledSince, KeepsWord};
ghost use Rattle.mt_core.specs.Stops.{StopsOutside, StopsWhereOutside};
ghost use Rattle.mt_machine_laws.specs.CoreWorkedLaws.{behind_release, two_unlike, uncalled, unlike_arrived, unlike_between, unlike_given, unlike_passed, unlike_released};
ghost use Rattle.mt_machine_laws.specs.CoreWorkedRuns.{come, count};

/// From the pass of one behind the other to what comes behind the release of each.
pub fn worked_laws_of_two()
    ensures no_buffers { NoBuffersWhereOnePasses → HaveNoBuffers (next unlike_arrived (Steps 0 Pass)).system.processors }
    ensures exclusive { NoneRunsThroughout → NoneRunsInChange two_in_change }
    ensures busy { NoneActsThroughout → NoneActsInChange two_in_change }
    ensures orders { OrdersHoldThroughout → OrderHolds two_in_change given_order }
    ensures words { StepsKeepThroughout → (address : ℕ) → KeepsWord two_in_change.system (next two_in_change (Steps 1 (WriteBack 0x100008 6))).system address }
    ensures counted { StepsCountThroughout → IsCounted unlike_given 1 unlike_between }
    ensures barriers { BarriersHoldThroughout → BarriersHold unlike_released }
    ensures settled { SettledFromRelease → IsSettledSince unlike_released 3 (bare_file 0x806) behind_release }
    ensures held { HeldFromFirstRelease → IsHeld unlike_arrived.system unlike_released behind_release }
    ensures quiet { IsQuietWithoutOrder → IsQuiet (next unlike_released (Steps 0 Release)) }
{}

/// A release, a wait of the second of three, and turns that begin in the midst of an update.
pub fn worked_laws_of_steps()
    ensures rise { ErasRise → HasRisenByOne unlike_passed.system (next unlike_passed (Steps 1 Release)).system }
    ensures waits { WaitsAtBarriers → WaitsWhereFor (calling pair_order (ready ∷ come ∷ come ∷ [])) 1 come (count 3 4) }
    ensures ends { TurnsEnd → (t : Machine) × Rounds (with_go_given two_in_change) t × Reached two_in_change t }
    ensures stops_not { StopsOutside → StopsWhereOutside two_in_change 0 (own two_in_change 0) }
{}

/// A whole update by events, and what comes behind one, a control instruction included.
pub fn worked_laws_of_whole_updates()
    ensures by_events { UpdatesAreReached → (es : List MachineEvent) × IsUpdateByEvents two_unlike (bare_file 0x806) es }
    ensures settled { UpdatesSettle → IsSettledSince (updated two_unlike.system (0 ∷ 1 ∷ []) (bare_file 0x806)) 3 (bare_file 0x806) uncalled }
    ensures held { UpdatedWordsAreHeld → (address : ℕ) → IsHeldSince (updated two_unlike.system (0 ∷ 1 ∷ []) (bare_file 0x806)) uncalled address }
{}
