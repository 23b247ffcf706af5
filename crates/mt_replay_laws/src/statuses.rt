ghost use Rattle.mt_replay_laws.specs.Settling.{AbsentProcessorsDoNothing, AbsentWhereNoProcessor, AcceptedCallsAreUnderWay, AcceptedWhereIdle, CallsUnderWayChangeNothing, CompleteUpdatesSettle, JoinsSettle, RefusedCallsChangeNothing, ReleasedStatesSettle, ReleasedWordsAreHeld, UpdatedWordsAreHeld};
ghost use Rattle.mt_replay.specs.Statuses.{AcceptedFirst, AcceptedUnlessRefused, BadTextEndsWithOffence, BadTextWhereOffence, DoneWhereNoOffence, DumpsAreShownInTurn, OffenceAlone, OneDumpShown, OneOfThreeStatuses, RefusedAlone, RefusedWhereFileIsRefused};
ghost use Rattle.mt_replay_laws.specs.Through.{StatesHaveTheShownDump};

/// A text shows no two dumps.
pub fn a_text_shows_one_dump()
    ensures { OneDumpShown }
{}

/// A text shows a dump if and only if each line up to the dump's end is accepted in its turn, and the dump's
/// lines show it, with a file for each processor or in version 1 one for all.
pub fn dumps_are_shown_in_turn()
    ensures { DumpsAreShownInTurn }
{}

/// Each state that a text comes to has the dump that the text shows.
pub fn states_have_the_shown_dump()
    ensures { StatesHaveTheShownDump }
{}

/// A script is refused exactly where its dump is read whole, has a file for each processor or in version 1 one for
/// all, and shows one with a fault. The first such file is then all that is told.
pub fn refused_dumps_are_told_alone()
    ensures exactly { RefusedWhereFileIsRefused }
    ensures alone { RefusedAlone }
{}

/// Where it isn't refused the status says whether it has an offence, which is then the last line.
pub fn statuses_tell_of_offences()
    ensures bad_text { BadTextWhereOffence }
    ensures last { BadTextEndsWithOffence }
    ensures done { DoneWhereNoOffence }
    ensures three { OneOfThreeStatuses }
{}

/// Accepted files are told of first. Where the dump isn't read to its end the offence is all that
/// is told.
pub fn accepted_comes_first()
    ensures exactly { AcceptedUnlessRefused }
    ensures first { AcceptedFirst }
    ensures offence { OffenceAlone }
{}

/// Where a goal has a fault, or an update is under way, the end of its section says so and the
/// machine stays as it is.
pub fn refused_calls_change_nothing()
    ensures refused { RefusedCallsChangeNothing }
    ensures under_way { CallsUnderWayChangeNothing }
{}

/// A goal without a fault is accepted where no update is under way; it is then called for, or, in a
/// section of `update`, each processor has it from then on, up to the next call, and holds nothing of
/// another era, and each word of memory is as it was once the buffers were emptied.
pub fn complete_updates_settle()
    ensures accepted { AcceptedWhereIdle }
    ensures called { AcceptedCallsAreUnderWay }
    ensures settled { CompleteUpdatesSettle }
{}

/// Where a processor joins each processor, the newcomer among them, has the first one's registers from then
/// on, up to the next call, and holds nothing of another era, and each word of memory is as it was once the
/// buffers were emptied.
pub fn processors_join_settled()
    ensures { JoinsSettle }
{}

/// A command on a processor that isn't there does nothing and says so; no other command says so.
pub fn absent_processors_do_nothing()
    ensures nothing { AbsentProcessorsDoNothing }
    ensures exactly { AbsentWhereNoProcessor }
{}

/// From a step that releases on, and up to the next call for an update, each processor has the
/// goal's registers and holds nothing older than the update.
pub fn released_states_settle()
    ensures { ReleasedStatesSettle }
{}

/// From a complete update on, and up to the next call, each word that no command has stored since is
/// in memory as the update left it. From the first release of an update on it is in memory as it was
/// before the first pass, whether in a cache or in memory.
pub fn stored_words_are_held()
    ensures updated { UpdatedWordsAreHeld }
    ensures released { ReleasedWordsAreHeld }
{}
