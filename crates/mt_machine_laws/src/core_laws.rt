ghost use Rattle.mt_core.specs.Headline.{BarriersHoldThroughout, ErasRise, HeldFromFirstRelease, IsQuietWithoutOrder, NoBuffersWhereOnePasses, NoneActsThroughout, NoneRunsThroughout, OrdersHoldThroughout, SettledFromRelease, StepsCountThroughout, StepsKeepThroughout, WaitsAtBarriers};
ghost use Rattle.mt_core.specs.Rounds.{TurnsEnd, UpdatedWordsAreHeld, UpdatesAreReached, UpdatesSettle};
ghost use Rattle.mt_core.specs.Stops.{StopsOutside};

/// In a state that arises a step returns `NoUpdate` if and only if the processor runs outside an update: none is under
/// way, or it is cancelled, or the processor has released already.
pub fn steps_stop()
    ensures { StopsOutside }
{}

/// A step returns `Waits` if and only if the processor waits at a barrier where fewer have arrived than are awaited. It
/// names both. At the first barrier the update isn't cancelled.
pub fn steps_wait()
    ensures { WaitsAtBarriers }
{}

/// From each release on in a state that arises, and up to the next call, each processor has the goal's
/// registers and holds nothing older than the update.
pub fn releases_settle()
    ensures { SettledFromRelease }
{}

/// From the first release of an update on, in a state that arises, each word that no access has stored since
/// is in memory as it was before the first pass. Where some processor may pass, no buffer is left.
pub fn words_are_held()
    ensures held { HeldFromFirstRelease }
    ensures buffers { NoBuffersWhereOnePasses }
{}

/// A state that arises and has no update under way is quiet, so each law on one update holds from it on.
pub fn rests_quiet()
    ensures { IsQuietWithoutOrder }
{}

/// Each state that arises has what the laws say of each reached state. Windows may have been added, and processors may
/// have come up and gone. The barriers hold, and no processor runs or acts while another changes its registers. An
/// order's goal is whole, and the registers before a writer's place have its values. No event of an update but Take
/// changes a word's value, and events are as many as the laws count.
pub fn states_hold()
    ensures barriers { BarriersHoldThroughout }
    ensures exclusive { NoneRunsThroughout }
    ensures busy { NoneActsThroughout }
    ensures orders { OrdersHoldThroughout }
    ensures words { StepsKeepThroughout }
    ensures counts { StepsCountThroughout }
{}

/// An enabled event keeps the number of processors, and raises no era by more than one.
pub fn eras_rise()
    ensures { ErasRise }
{}

/// In each state that arises turns of steps end, once a pending go is given. The state after a whole update is reached
/// by events: the call, the go and steps, the last of which is a release. So each law on reached states holds from a
/// whole update on too.
pub fn updates_are_reached()
    ensures ends { TurnsEnd }
    ensures reached { UpdatesAreReached }
{}

/// From a whole update on, and up to the next call, each processor has the goal's registers and holds
/// nothing of another era, and each word that no access has stored since is in memory as the update
/// left it.
pub fn updates_settle()
    ensures settled { UpdatesSettle }
    ensures held { UpdatedWordsAreHeld }
{}
