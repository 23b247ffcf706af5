ghost use Rattle.mt_memory.specs.MapText.{WrittenReadsBack};
ghost use Rattle.mt_memory.specs.Maps.{JoinedIsSame, LaterCounts, MapsAreGiven, MapsAreShown, ReturnsChangeNothing, SpareHeads, SpareLines};
ghost use Rattle.mt_memory.specs.Outcome.{MapsArePrinted, ReasonsComeAlone};
ghost use Rattle.mt_memory.specs.Pages.{PagesAreGiven, PagesAreOfKinds};

/// If a log has a map, no line of the wanted map has a fault, and a byte has the kind of the last of these lines that shows it. The
/// ranges ascend, and are the longest. A line that shows bytes of an earlier one is named if there is one, with that one, and so is
/// a line that breaks off.
pub fn maps_are_shown_by_lines()
    ensures { MapsAreShown }
{}

/// A log has a map if the lines of the wanted one show up to 512 ranges in ascending order: these, joined where those of one kind touch.
pub fn maps_are_given()
    ensures { MapsAreGiven }
{}

/// At status 0 a log's map is printed, and what is told of it. At any other status no map is.
pub fn maps_are_printed()
    ensures printed { MapsArePrinted }
    ensures alone { ReasonsComeAlone }
{}

/// Where ranges of lines share bytes, the later line counts.
pub fn the_later_line_counts()
    ensures { LaterCounts }
{}

/// Joined ranges give each byte the kind that it had.
pub fn joined_ranges_give_the_same_kinds()
    ensures { JoinedIsSame }
{}

/// The pages of ranges in ascending order are longest runs, in which each page has the kind that it is of.
pub fn pages_are_of_kinds()
    ensures { PagesAreOfKinds }
{}

/// Ranges in ascending order, of which there are at most 512, have pages.
pub fn pages_are_given()
    ensures { PagesAreGiven }
{}

/// A line that begins no map, shows nothing and doesn't break off changes nothing.
pub fn spare_lines_change_nothing()
    ensures { SpareLines }
{}

/// Nor does one that tells no format, while none is known.
pub fn spare_heads_change_nothing()
    ensures { SpareHeads }
{}

/// A CR at a line's end changes nothing. Except: the line ends with one already, or has 4,096 bytes.
pub fn returns_change_nothing()
    ensures { ReturnsChangeNothing }
{}

/// What is written of a map reads back as its ranges.
pub fn what_is_written_reads_back()
    ensures { WrittenReadsBack }
{}
