//! Waits for another thread, of which each ends.
use std::sync::atomic::{AtomicU64, Ordering};
use std::thread;
use std::time::{Clock, Duration};

/// So many looks wait at least ten seconds.
pub(crate) const PATIENCE: u32 = 10_000;

/// Looks up to so many times whether the word is at least this number. After each look that finds less it sleeps for a
/// millisecond, so that other threads run on a busy machine too. Returns whether a look found it.
pub(crate) fn reaches<C: Clock>(clock: &C, word: &AtomicU64, least: u64, looks: u32) -> bool {
    for _ in 0..looks {
        if word.load(Ordering::SeqCst) >= least {
            return true;
        }
        thread::sleep(clock, Duration::from_millis(1));
    }
    false
}
