ghost use Rattle.mt_replay_laws.specs.Headline.{AcceptedWhereIdleAndWhole, CompleteUpdatesAreKept, GoalsAreOfTheirSections, JoinsAreKept, NewcomersWhereIdle, RefusedUpdatesChangeNothing, ReleasedUpdatesAreKept, ReplaysAreOfTheCourse, StartsAsTheDumpShows, StatesAreOfTheCourse, StepsAreOfTheirLines, StepsFollow, TranscriptIsOfTheCourse, TranscriptIsOneLine};
ghost use Rattle.mt_replay_laws.specs.Movers.{RetiresWhereIdle, StaysAlone, StaysFull, StaysUnderWay};

/// The headline: whatever bytes a script has, its transcript is what the steps of its course write.
/// In whatever order the processors step, once any of them is told that an accepted update is
/// complete, and until the next is called, every processor holds those register values, no cache,
/// buffer or TLB entry is older than the update, and memory holds every store cached before it, save
/// words stored again since. A refused update changes no processor.
pub fn the_headline_holds()
    ensures transcript { TranscriptIsOfTheCourse }
    ensures written { ReplaysAreOfTheCourse }
    ensures one_line { TranscriptIsOneLine }
    ensures lines { StepsAreOfTheirLines }
    ensures starts { StartsAsTheDumpShows }
    ensures follow { StepsFollow }
    ensures states { StatesAreOfTheCourse }
    ensures accepted { AcceptedWhereIdleAndWhole }
    ensures newcomers { NewcomersWhereIdle }
    ensures those_registers { GoalsAreOfTheirSections }
    ensures complete { CompleteUpdatesAreKept }
    ensures joined { JoinsAreKept }
    ensures released { ReleasedUpdatesAreKept }
    ensures refused { RefusedUpdatesChangeNothing }
{}

/// A processor is retired exactly where no update is under way and another stands; it is the last. A
/// newcomer, or a processor to retire, that is refused leaves the machine as it was: while an update is under
/// way, else beside sixteen processors, or as the only one.
pub fn processors_come_and_go_by_lines()
    ensures retired { RetiresWhereIdle }
    ensures under_way { StaysUnderWay }
    ensures full { StaysFull }
    ensures alone { StaysAlone }
{}
