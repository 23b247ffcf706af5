use crate::waiting::{PATIENCE, reaches};
use std::array;
use std::ops::Range;
use std::sync::atomic::{AtomicU64, Ordering};
use std::time::Clock;

/// The processors that have a count of their own.
const PROCESSORS: u32 = 16;

/// How often something was counted of each of the processors 0 to 15, and of all other numbers.
#[derive(Drop)]
pub(crate) struct Counts {
    each: [AtomicU64; PROCESSORS as usize],
    others: AtomicU64,
}

impl Counts {
    pub(crate) fn new() -> Counts {
        Counts {
            each: array::from_fn(|_| AtomicU64::new(0)),
            others: AtomicU64::new(0),
        }
    }

    fn word(&self, k: u32) -> &AtomicU64 {
        if k < PROCESSORS {
            &self.each[k as usize]
        } else {
            &self.others
        }
    }

    /// Counts one of processor k. Returns the count before.
    pub(crate) fn add(&self, k: u32) -> u64 {
        self.word(k).fetch_add(1, Ordering::SeqCst)
    }

    /// Whether each of these processors was counted from least to most times, and no other number.
    fn lie(&self, processors: &Range<u32>, least: u64, most: u64) -> bool {
        for k in 0..PROCESSORS {
            let count = self.word(k).load(Ordering::SeqCst);
            let is_one = processors.start <= k && k < processors.end;
            let fits = if is_one {
                least <= count && count <= most
            } else {
                count == 0
            };
            if !fits {
                return false;
            }
        }
        self.others.load(Ordering::SeqCst) == 0
    }

    /// Whether each of these processors was counted so often, and no other number.
    pub(crate) fn are(&self, processors: &Range<u32>, times: u64) -> bool {
        self.lie(processors, times, times)
    }

    /// Whether each of these processors was counted so often at most, and no other number.
    pub(crate) fn are_at_most(&self, processors: &Range<u32>, times: u64) -> bool {
        self.lie(processors, 0, times)
    }

    /// Waits until each of these processors was counted, at least ten seconds for each. Returns whether each was.
    pub(crate) fn come<C: Clock>(&self, clock: &C, processors: &Range<u32>) -> bool {
        for k in processors.start..processors.end {
            if !reaches(clock, self.word(k), 1, PATIENCE) {
                return false;
            }
        }
        true
    }
}
