ghost use Rattle.mt_laws.specs.Sound.{AccessKeepsSound, ControlKeepsSound, DrainKeepsSound, LinesAreLow, StaysCoherent, StaysSound, WriteBacksHavePlaces};
ghost use Rattle.mt_laws.specs.Kept.{FlagsStay, OrdersHold, StepsKeepNow, StillEventsKeep, TakeFences, UpdatedKeepsFlags};

/// Take is a fence, and the events of the coordinator, Arrive and Leave keep all that is held.
pub fn events_keep()
    ensures take { TakeFences }
    ensures still { StillEventsKeep }
{}

/// No event changes which processors are self-snooping, and no whole update does.
pub fn flags_stay()
    ensures events { FlagsStay }
    ensures updated { UpdatedKeepsFlags }
{}

/// Caches and memory agree in each reached state.
pub fn stays_coherent()
    ensures { StaysCoherent }
{}

/// Each reached state is sound.
pub fn stays_sound()
    ensures { StaysSound }
{}

/// An access, a control instruction that fits and a drain keep every sound system sound.
pub fn accesses_keep_sound()
    ensures access { AccessKeepsSound }
    ensures control { ControlKeepsSound }
    ensures drain { DrainKeepsSound }
{}

/// While an update is under way each processor has registers of the goal's kind, and the goal's values
/// before the place where it is writing.
pub fn orders_hold()
    ensures { OrdersHold }
{}

/// The numbers of the lines and buffers of a sound system are below 2^46.
pub fn lines_are_low()
    ensures { LinesAreLow }
{}

/// The dirty word of a sound system that is written back next has a place in memory.
pub fn write_backs_have_places()
    ensures { WriteBacksHavePlaces }
{}

/// No step of the update but Take changes a word's value.
pub fn steps_keep_now()
    ensures { StepsKeepNow }
{}
