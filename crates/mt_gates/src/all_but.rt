use crate::counts::Counts;
use mt_ports::Gate;
use std::ops::Range;
use std::time::Clock;

/// Lets every thread start except that of one processor, and counts of whom it is asked and told. A call about a number above
/// 15 counts too: each comparison below then fails.
#[derive(Drop)]
pub struct AllBut {
    processor: u32,
    asked: Counts,
    told: Counts,
}

impl AllBut {
    /// A gate that refuses this processor. 16 refuses none.
    pub fn new(processor: u32) -> AllBut {
        AllBut {
            processor,
            asked: Counts::new(),
            told: Counts::new(),
        }
    }

    /// Whether it was asked so often of each of these processors, and of no other.
    pub fn asked_each(&self, processors: Range<u32>, times: u64) -> bool {
        self.asked.are(&processors, times)
    }

    /// Whether it was told so often of each of these processors, and of no other.
    pub fn told_each(&self, processors: Range<u32>, times: u64) -> bool {
        self.told.are(&processors, times)
    }

    /// Whether it was told so often at most of each of these processors, and of no other.
    pub fn told_at_most(&self, processors: Range<u32>, times: u64) -> bool {
        self.told.are_at_most(&processors, times)
    }

    /// Waits until it was told of each of these processors, at least ten seconds for each. Returns whether it was.
    pub fn hears_of<C: Clock>(&self, clock: &C, processors: Range<u32>) -> bool {
        self.told.come(clock, &processors)
    }
}

impl Gate for AllBut {
    fn may_start(&self, k: u32) -> bool {
        self.asked.add(k);
        k != self.processor
    }

    fn arrived(&self, k: u32) {
        self.told.add(k);
    }
}
