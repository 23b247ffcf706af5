use crate::counts::Counts;
use crate::waiting::{PATIENCE, reaches};
use mt_ports::Gate;
use std::ops::Range;
use std::sync::atomic::{AtomicU64, Ordering};
use std::time::Clock;

/// Lets every thread start. Each of the processors below a number says that it has arrived, and at its first arrival waits for
/// the others. So one thread that arrives for all, in any order and how often it likes, is seen once at most.
#[derive(Drop)]
pub struct Meets<C> {
    clock: C,
    count: u32,
    looks: u32,
    told: Counts,
    present: AtomicU64,
    saw: AtomicU64,
}

impl<C: Clock> Meets<C> {
    /// A gate at which so many processors meet. Each waits for the others at least ten seconds.
    pub fn of(clock: C, count: u32) -> Meets<C> {
        Meets::within(clock, count, PATIENCE)
    }

    /// The same with waits of at least so many milliseconds.
    pub fn within(clock: C, count: u32, milliseconds: u32) -> Meets<C> {
        Meets {
            clock,
            count,
            looks: milliseconds,
            told: Counts::new(),
            present: AtomicU64::new(0),
            saw: AtomicU64::new(0),
        }
    }

    /// How many of them saw all others. All did only if as many threads ran at once.
    pub fn seen(&self) -> u64 {
        self.saw.load(Ordering::SeqCst)
    }

    /// Whether it was told so often of each of these processors, and of no other.
    pub fn told_each(&self, processors: Range<u32>, times: u64) -> bool {
        self.told.are(&processors, times)
    }
}

impl<C: Clock + Sync> Gate for Meets<C> {
    fn may_start(&self, _k: u32) -> bool {
        true
    }

    fn arrived(&self, k: u32) {
        if self.told.add(k) > 0 || k >= self.count {
            return;
        }
        self.present.fetch_add(1, Ordering::SeqCst);
        if reaches(&self.clock, &self.present, self.count as u64, self.looks) {
            self.saw.fetch_add(1, Ordering::SeqCst);
        }
    }
}
