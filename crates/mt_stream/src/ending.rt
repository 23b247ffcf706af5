use mt_text::FeedFault;

/// How a text ends whose lines were all taken.
#[derive(Clone, Copy)]
pub enum End {
    Done,
    BadText,
}

/// How a line ends a run.
#[derive(Clone, Copy, PartialEq, Eq)]
pub enum Stop {
    Refused,
    BadText,
    NoMemory,
}

/// How a run ends if no port fails and the input isn't too long.
#[derive(Clone, Copy)]
pub enum Ended {
    /// All of its lines were taken.
    Text(End),
    /// A line ended it.
    Line(Stop),
}

/// Why a run is cut off: the source failed or gave too much, or the sink failed.
#[derive(Clone, Copy)]
pub enum Cut {
    Feed(FeedFault),
    Write,
}
