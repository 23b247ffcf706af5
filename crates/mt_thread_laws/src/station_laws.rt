ghost use Rattle.mt_rendezvous.specs.Laws.{BroadcastBegins, EachStepFollows, HoldsWhereFull, IsLedTo, LeftWhereCancelled, ReleasedWhereFull, ShownIsFound, StandsForOne};
ghost use Rattle.mt_rendezvous.specs.Laws.{ArriveAgainFollows, ArriveFollows, CancelFollows, GoFollows, JoinFollows, PassFollows, ReleaseFollows, SplitFollows, WorkFollows};

/// Between any two steps the words and the views stand for one state, to which the broadcast state of what was gathered
/// leads.
pub fn station_is_led()
    ensures led { IsLedTo }
    ensures one { StandsForOne }
{}

/// Nine kinds of step, a clause for each. If words and views meet the rule before it, they meet it after it. It is the
/// event that the clause names, which was enabled, or none.
pub fn each_step_is_one_event()
    ensures split { SplitFollows }
    ensures join { JoinFollows }
    ensures go { GoFollows }
    ensures cancel { CancelFollows }
    ensures arrive { ArriveFollows }
    ensures pass { PassFollows }
    ensures work { WorkFollows }
    ensures arrive_again { ArriveAgainFollows }
    ensures release { ReleaseFollows }
{}

/// Whatever step the one play of a station lets a seat make, it is one event or none. A processor is released by a load
/// of word 1 alone, and passes or leaves the first barrier by a load of word 0 alone. A load of word 1 shows its seat
/// what it found, and no other step shows it anything.
pub fn every_step_is_one_event()
    ensures events { EachStepFollows }
    ensures shown { ShownIsFound }
{}

/// Where all have arrived again each processor has the goal's registers and holds nothing. Each word of the gathered
/// memory has its value of the broadcast state.
pub fn full_station_holds()
    ensures { HoldsWhereFull }
{}

/// If a seat's one processor runs again after one addition of its pass, the update is cancelled and word 0 shows it.
/// After two the go is given and word 1 shows all.
pub fn ended_seats_tell_of_the_station()
    ensures left { LeftWhereCancelled }
    ensures released { ReleasedWhereFull }
{}

/// Each broadcast state whose era may rise is one from which a station can be gathered, where it has
/// 1 to 16 processors.
pub fn broadcast_begins()
    ensures { BroadcastBegins }
{}
