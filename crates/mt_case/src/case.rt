ghost use Rattle.std.specs.Prelude.{◌≤◌, length};

use mt_dump::DumpReason;
use mt_output::dump_reason_text;
use mt_ports::NoMemory;
use mt_procedure::{Case, State, Turn};
use mt_script::{Offence, ScriptFault, ScriptReason, script_reason_text};
use mt_text::Place;

/// Why a text is no case.
#[derive(Clone, Copy)]
pub enum Reason {
    /// A line has this fault, as a script's line may have it.
    Line(ScriptReason),
    /// A line of the dump has this fault.
    Dump(DumpReason),
    /// The registers of the dump or of the goal are refused.
    Refused,
}

impl Reason {
    /// The words that are printed.
    pub fn text(self) -> &'static [u8]
        ensures { length result.now ≤ 20 }
    {
        match self {
            Reason::Line(reason) => script_reason_text(reason),
            Reason::Dump(reason) => dump_reason_text(reason),
            Reason::Refused => b"refused registers",
        }
    }
}

/// Why no case was read.
#[derive(Clone, Copy)]
pub enum Trouble {
    NoMemory,
    Bad { place: Place, reason: Reason },
}

impl From<NoMemory> for Trouble {
    fn from(_: NoMemory) -> Trouble {
        Trouble::NoMemory
    }
}

impl From<ScriptFault> for Trouble {
    fn from(fault: ScriptFault) -> Trouble {
        Trouble::Bad {
            place: fault.place,
            reason: Reason::Line(fault.reason),
        }
    }
}

impl From<Offence> for Trouble {
    fn from(offence: Offence) -> Trouble {
        match offence {
            Offence::Script(fault) => Trouble::from(fault),
            Offence::Dump(fault) => Trouble::Bad {
                place: fault.place,
                reason: Reason::Dump(fault.reason),
            },
        }
    }
}

/// A part of a run that is asked for.
#[derive(Clone, Copy)]
pub enum Part {
    /// This turn, if it may be taken.
    Turn(Turn),
    /// Each processor's step in ascending order, again and again until none can go on.
    Turns,
}

/// What is asked for.
#[derive(Drop)]
pub enum Ask {
    /// One run.
    Run(Vec<Part>),
    /// All interleavings, up to so many states.
    All(u32),
}

/// A case, the state in which it starts, and what is asked for.
#[derive(Drop)]
pub struct Input {
    pub case: Case,
    pub start: State,
    pub ask: Ask,
}
