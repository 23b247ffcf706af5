use crate::waiting::{PATIENCE, reaches};
use mt_ports::Gate;
use std::sync::atomic::{AtomicU64, Ordering};
use std::time::Clock;

/// Lets processor 0 start once it was told of processor 1, for which it waits at least ten seconds.
#[derive(Drop)]
pub struct OneFirst<C> {
    clock: C,
    arrived: AtomicU64,
    seen: AtomicU64,
}

impl<C: Clock> OneFirst<C> {
    pub fn new(clock: C) -> OneFirst<C> {
        OneFirst {
            clock,
            arrived: AtomicU64::new(0),
            seen: AtomicU64::new(0),
        }
    }

    /// Whether it was told of processor 1 before it let processor 0 start.
    pub fn has_seen(&self) -> bool {
        self.seen.load(Ordering::SeqCst) == 1
    }
}

impl<C: Clock + Sync> Gate for OneFirst<C> {
    fn may_start(&self, k: u32) -> bool {
        if k == 0 && reaches(&self.clock, &self.arrived, 1, PATIENCE) {
            self.seen.store(1, Ordering::SeqCst);
        }
        true
    }

    fn arrived(&self, k: u32) {
        if k == 1 {
            self.arrived.store(1, Ordering::SeqCst);
        }
    }
}
