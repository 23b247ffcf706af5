// Laws on yards: what each step of a seat makes of the machine that words and views stand for.
ghost use Rattle.mt_private.specs.Visitors.{EndsOneByOne};
ghost use Rattle.mt_private.specs.YardLaws.{AdditionArrives, AdditionArrivesAgain, AdditionDecides, EachStepFollows, IsOneMachine, IsReached, JoinIsNone, LeftWhereCancelled, LoadLeaves, LoadPasses, LoadReleases, LoadStays, LoadTakes, MoveIsOneEvent, ReleasedWhereFull, DecisionIsOneEvent, ShownIsFound, SplitIsNone, StartMeetsRule, StoreAccesses, StoreWorks, YardsSettle};

/// An addition to one of the two counts, and a load of one, is the event that the count tells of, or none: a processor
/// takes, arrives, passes, leaves, arrives again and is released by what it finds there alone.
pub fn counts_tell_of_the_machine()
    ensures takes { LoadTakes }
    ensures stays { LoadStays }
    ensures arrives { AdditionArrives }
    ensures passes { LoadPasses }
    ensures leaves { LoadLeaves }
    ensures decides { AdditionDecides }
    ensures arrives_again { AdditionArrivesAgain }
    ensures releases { LoadReleases }
{}

/// A processor that runs accesses its own pages while others wait or are on their way, and the whole machine does the
/// same access.
pub fn accesses_go_on()
    ensures { StoreAccesses }
{}

/// What a processor does between the barriers it does to its own words, and the whole machine does the same.
pub fn words_are_written_alone()
    ensures { StoreWorks }
{}

/// Between any two steps of a yard its words and views stand for one machine, which the state after the call reaches, from
/// the start on.
pub fn yard_is_reached()
    ensures reached { IsReached }
    ensures one { IsOneMachine }
    ensures start { StartMeetsRule }
{}

/// Each step that the one play lets a seat make, whatever its word and operands, keeps the rule of the table, and is one
/// event of its machine, which was enabled, or none. A processor takes, passes and leaves by a load of the first count
/// alone, and is released by a load of the second alone, which the seat then shows. So does each move by which residents
/// and counts follow; and a seat that is given away or taken back is none.
pub fn each_yard_step_is_one_event()
    ensures steps { EachStepFollows }
    ensures shown { ShownIsFound }
    ensures moves { MoveIsOneEvent }
    ensures decides { DecisionIsOneEvent }
    ensures split { SplitIsNone }
    ensures join { JoinIsNone }
{}

/// If a seat's resident runs again after one addition, the update is cancelled. After two the go is given. The count
/// shows it.
pub fn runners_tell_of_the_yard()
    ensures left { LeftWhereCancelled }
    ensures released { ReleasedWhereFull }
{}

/// From the first release on, the machine that words and views stand for is settled: each processor has the goal's
/// registers and holds nothing of another era. And each word that no access stored since is in memory as it was before
/// the first pass.
pub fn yards_settle()
    ensures { YardsSettle }
{}

/// Where every visitor came back and the go was given, the system that the yard leaves and all answers are those of the
/// accesses before, processor by processor, the whole update, and the accesses after, processor by processor.
pub fn yards_end_one_by_one()
    ensures { EndsOneByOne }
{}
