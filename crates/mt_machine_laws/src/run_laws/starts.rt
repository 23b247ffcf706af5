ghost use Rattle.mt_laws.specs.Starts.{ErasFit, FlaggedStartIsQuiet, NoFlagIsTheStart, ReachedIsQuiet, SnoopingStaysQuiet, SnoopingStaysSound, StartIsQuiet, UpdatedIsQuiet};

/// A system at its start is one from which the laws hold, whatever accepted files of one kind its processors have.
pub fn start_is_quiet()
    ensures { StartIsQuiet }
{}

/// A start with some processors self-snooping is quiet. Without any it is the start of `start_is_quiet`.
pub fn flagged_start_is_quiet()
    ensures quiet { FlaggedStartIsQuiet }
    ensures none { NoFlagIsTheStart }
{}

/// When a processor becomes self-snooping, a sound system stays sound, and a quiet machine quiet.
pub fn snooping_stays_quiet()
    ensures sound { SnoopingStaysSound }
    ensures quiet { SnoopingStaysQuiet }
{}

/// A reached state without an update under way is quiet, so the laws on one update hold of each update of a run.
pub fn reached_is_quiet()
    ensures { ReachedIsQuiet }
{}

/// Where an update is called only while the eras have room, no era passes 64 bits.
pub fn eras_fit()
    ensures { ErasFit }
{}

/// The state after a whole update, given outright, is quiet too.
pub fn updated_is_quiet()
    ensures { UpdatedIsQuiet }
{}
