//! How stations and yards end.

use mt_gates::AllBut;
use std::time::Clock;

/// What the coordinator says, and when. The last processors are started first.
#[derive(Clone, Copy)]
pub(crate) enum Ending {
    /// It gives the go once all are started.
    Go,
    /// It cancels once all are started.
    Cancel,
    /// It cancels once the gate was told of so many. The others are started after that.
    CancelAfter(u32),
}

impl Ending {
    /// How many of so many are started before the coordinator's word.
    pub(crate) fn early(self, count: u32) -> u32 {
        match self {
            Ending::CancelAfter(early) => early.min(count),
            _ => count,
        }
    }

    /// Whether it gives the go.
    pub(crate) fn is_go(self) -> bool {
        matches!(self, Ending::Go)
    }

    /// Waits for those that have to arrive before a cancel. Returns whether the gate was told of each in time.
    pub(crate) fn hears<C: Clock>(self, clock: &C, gate: &AllBut, count: u32) -> bool {
        match self {
            Ending::CancelAfter(early) => gate.hears_of(clock, count.saturating_sub(early)..count),
            _ => true,
        }
    }
}
