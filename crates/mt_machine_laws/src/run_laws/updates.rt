ghost use Rattle.mt_laws.specs.Updates.{BroadcastUpdate, CancelledBroadcast, CancelledUpdate, LedCancelled, LedEnds, LedNotGiven, LedReleased, LedToSecondBarrier, LedUpdate, TakesBroadcast, UpdatedFromBroadcast, UpdatedWords, WholeUpdate};
ghost use Rattle.mt_laws.specs.Counts.{CountOfSteps, TakesAtMostOnce, TakesOnce};

/// A whole update without accesses or controls ends in the state that is given outright, and each
/// processor takes once in it.
pub fn whole_update()
    ensures outright { WholeUpdate }
    ensures takes { TakesOnce }
{}

/// After an accepted call the takes of all processors, once each in any order, lead to a broadcast state, from
/// which the update leads to what it leads to from the quiet one.
pub fn takes_broadcast()
    ensures leads { TakesBroadcast }
    ensures updated { UpdatedFromBroadcast }
{}

/// From a broadcast state, by go and steps alone: an update that ends results in the state that is given outright.
pub fn broadcast_update()
    ensures { BroadcastUpdate }
{}

/// In the state that is given outright each word is in memory as it was once the buffers had been emptied.
pub fn updated_words()
    ensures { UpdatedWords }
{}

/// From a broadcast state, by go, cancel and steps alone: where all have arrived at the second barrier each
/// processor has the goal's registers and holds nothing, and each word is in memory.
pub fn led_to_second_barrier()
    ensures { LedToSecondBarrier }
{}

/// From a broadcast state, by go, cancel and steps alone: the event that ends an update whose go was given leads to the
/// state that is given outright.
pub fn led_update()
    ensures { LedUpdate }
{}

/// From a broadcast state, by cancel and steps alone: an update that ends has changed only phases, and all run.
pub fn cancelled_broadcast()
    ensures { CancelledBroadcast }
{}

/// From a broadcast state, by go, cancel and steps alone: a processor that has released is the one that the
/// update leaves.
pub fn led_released()
    ensures { LedReleased }
{}

/// From a broadcast state, by go, cancel and steps alone: until the go is given only phases change. The event that ends
/// a cancelled update results in all processors running.
pub fn led_cancelled()
    ensures before { LedNotGiven }
    ensures end { LedCancelled }
{}

/// What is led to from a broadcast state and has no order any more is one of two: the state of the whole
/// update, or the state of before with all processors running.
pub fn led_ends()
    ensures { LedEnds }
{}

/// A whole cancelled update without accesses or controls results in the state after fences of those that took, in their
/// order. No processor takes twice in an update.
pub fn cancelled_update()
    ensures fences { CancelledUpdate }
    ensures takes { TakesAtMostOnce }
{}

/// From take to release a processor does an event for each writable register and each word dirty at its pass, and 13
/// more. A self-snooping one does 12 in place of 13.
pub fn count_of_steps()
    ensures { CountOfSteps }
{}
