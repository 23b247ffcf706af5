ghost use Rattle.std.specs.Prelude.{◌≡◌, ◌==◌, length};
ghost use Rattle.mt_memory.specs.Laying.{joined, ranges_of};
ghost use Rattle.mt_memory.specs.Log.{nothing_settled, settled_with, with_claim};

use crate::Ranges;
use crate::format::{Claim, MapFault, Overlap, Shown};
use crate::kind::MOST_RANGES;
use crate::laying::{Pieces, joined, laid, overlapped, ranges_of};
use arrayvec::ArrayVec;
use std::marker::Model;

/// What the lines of one map come to.
#[derive(Drop)]
pub struct Settled {
    pieces: Pieces,
    overlap: Option<Overlap>,
    // the first fault, behind which nothing is taken
    fault: Option<MapFault>,
}

impl Model for Settled {
    ghost use Rattle.std.specs.Prelude.{◌≤◌, length};
    ghost use Rattle.mt_memory.specs.Log.{Settled as Ranges};

    ghost Value = { Ranges };

    ghost view = { λ s. record { pieces = s.pieces.items; overlap = s.overlap; fault = s.fault } };

    ghost invariant = { λ s. length s.pieces.items ≤ 512 };
}

impl Settled {
    pub(crate) fn new() -> Settled
        ensures { result ≡ nothing_settled }
    {
        Settled {
            pieces: ArrayVec::new(),
            overlap: None,
            fault: None,
        }
    }

    // Lays the range of a line over those before it.
    fn lay(&mut self, claim: &Claim)
        ensures { self.new ≡ with_claim self.old claim.now }
    {
        let pieces = laid(claim, self.pieces.as_slice());
        if pieces.len() > MOST_RANGES {
            self.fault = Some(MapFault::TooManyRanges(claim.place));
            return;
        }
        if self.overlap.is_none() {
            self.overlap = overlapped(claim, self.pieces.as_slice());
        }
        self.pieces = pieces;
    }

    /// Takes what one more line of the map shows.
    pub(crate) fn take(&mut self, shown: &Shown)
        ensures { self.new ≡ settled_with self.old shown.now }
    {
        if self.fault.is_some() {
            return;
        }
        match shown {
            Shown::Nothing => {}
            Shown::Range(claim) => self.lay(claim),
            Shown::Fault(fault) => self.fault = Some(*fault),
        }
    }

    pub(crate) fn fault(&self) -> Option<MapFault>
        ensures { result ≡ self.now.fault }
    {
        self.fault
    }

    pub(crate) fn overlap(&self) -> Option<Overlap>
        ensures { result ≡ self.now.overlap }
    {
        self.overlap
    }

    pub(crate) fn is_empty(&self) -> bool
        ensures { result ≡ (length self.now.pieces == 0) }
    {
        self.pieces.is_empty()
    }

    /// The ranges of the map.
    pub(crate) fn ranges(&self) -> Ranges
        ensures { result.items ≡ joined (ranges_of self.now.pieces) }
    {
        joined(ranges_of(self.pieces.as_slice()).as_slice())
    }
}
