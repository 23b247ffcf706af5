ghost use Rattle.mt_admit.specs.Laws.{CancelledNewcomersStayBlank, NewcomersAgree, NewcomersKeepWords, RetiredLeaveTheOthers, UpsArise};

/// The state after `up` arises, so each law on what arises speaks of all processors, the newcomer among them.
pub fn ups_arise()
    ensures { UpsArise }
{}

/// In the update that `up` calls, over every list of events, each processor has processor 0's registers and holds
/// nothing older than the update from the first release on and up to the next call, the newcomer too: whoever is told
/// of completion knows it.
pub fn newcomers_agree()
    ensures { NewcomersAgree }
{}

/// From the first release in that update on, over every list of events, each word that no access has stored since is in
/// memory as it was before the first pass: whoever is told of completion knows that memory holds each word stored before.
pub fn newcomers_keep_words()
    ensures { NewcomersKeepWords }
{}

/// If that update is cancelled, by its steps and the cancel alone, the state is that after fences of those that took.
/// The newcomer has the blank file.
pub fn cancelled_newcomers_stay_blank()
    ensures { CancelledNewcomersStayBlank }
{}

/// After `retire` each word is as it was once the buffers of the last processor were emptied. The others keep their
/// registers, phases, mappings and entries.
pub fn retired_leave_the_others()
    ensures { RetiredLeaveTheOthers }
{}
