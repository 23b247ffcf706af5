ghost use Rattle.mt_flat.specs.ComingAndGoing.{AdmittedIsFlat, GoneKeepsFlat, NewcomersKeepFlat};
ghost use Rattle.mt_flat.specs.Courses.{CoursesHideCaches, CoursesKeepFlat};
ghost use Rattle.mt_flat.specs.Seen.{AnswersAreFlat, CachesAreNeverSeen, EventsKeepFlat, HeldIsFlat, NoBuffersIsFlat, PendingStaysFew, RunsKeepFlat, StartIsFlat, UpdatedIsFlat};

/// The flat machine at its start stands beside a machine at its start, and beside each system without
/// buffers stands one with its words and nothing pending.
pub fn starts_are_flat()
    ensures start { StartIsFlat }
    ensures no_buffers { NoBuffersIsFlat }
{}

/// In a sound system each enabled event, and each list of them, keeps the words' values and the pending lines alike.
pub fn events_are_flat()
    ensures event { EventsKeepFlat }
    ensures run { RunsKeepFlat }
{}

/// Each value that a load in a sound system returns is the flat machine's, in a state and after a list of events:
/// caches are never seen.
pub fn caches_are_never_seen()
    ensures answer { AnswersAreFlat }
    ensures run { CachesAreNeverSeen }
{}

/// Beside a sound system, over enabled events, no processor has more than four pending lines.
pub fn pending_stays_few()
    ensures { PendingStaysFew }
{}

/// Of an update that comes to a release: where its first processor passes the first barrier nothing is
/// pending, and after its first release memory has the flat machine's value of then for each word that
/// was not stored since. Beside the state after a whole update stands the flat machine that was given
/// its takes.
pub fn updates_are_flat()
    ensures held { HeldIsFlat }
    ensures outright { UpdatedIsFlat }
{}

/// Courses keep the flat machine alike too, and each load after one returns the flat machine's value. A whole update is
/// one turn of a course, beside events.
pub fn courses_are_flat()
    ensures keep { CoursesKeepFlat }
    ensures answer { CoursesHideCaches }
{}

/// Where a processor comes up the flat machine beside the system stays, and is given the takes where it is admitted.
/// Where the last one goes it empties that one's pending lines.
pub fn comers_and_goers_are_flat()
    ensures come { NewcomersKeepFlat }
    ensures admitted { AdmittedIsFlat }
    ensures gone { GoneKeepsFlat }
{}
