use crate::all_but::AllBut;
use crate::thread_number::thread_number;
use crate::waiting::reaches;
use mt_ports::Gate;
use std::array;
use std::rt::Files;
use std::sync::atomic::{AtomicU64, Ordering};
use std::time::Clock;

/// How many milliseconds it takes over a question at least.
const PAUSE: u32 = 3;

/// Lets every thread start except that of one processor, and sees on which threads, and in which order, it is asked and told.
/// A fault is:
///
/// - a question that doesn't come on the thread of the first one,
/// - a second question about a processor that it let start, without an arrival or a no between,
/// - an arrival on the thread that asks, of a processor that it let start,
/// - an arrival of any other processor on another thread, or without a no since the last question. So each processor that it
///   doesn't let start, or isn't asked about, leaves on the calling thread.
///
/// It takes a while over each question, in which it is a fault if the processor arrives. So it sees a thread that is started
/// before the question, if that arrives within the while. It knows threads by their numbers in `/proc` of Linux. If these
/// can't be read, that is a fault too.
#[derive(Drop)]
pub struct InOrder<R> {
    rt: R,
    starts: AllBut,
    asking: AtomicU64,
    allowed: [AtomicU64; 16],
    refused: AtomicU64,
    faults: AtomicU64,
}

// Sets the word, and returns whether it was set.
fn set(word: &AtomicU64) -> bool {
    word.swap(1, Ordering::SeqCst) == 1
}

// Clears the word, and returns whether it was set.
fn clear(word: &AtomicU64) -> bool {
    word.swap(0, Ordering::SeqCst) == 1
}

impl<R> InOrder<R> {
    /// A gate that refuses this processor. 16 refuses none.
    pub fn new(rt: R, processor: u32) -> InOrder<R> {
        InOrder {
            rt,
            starts: AllBut::new(processor),
            asking: AtomicU64::new(0),
            allowed: array::from_fn(|_| AtomicU64::new(0)),
            refused: AtomicU64::new(0),
            faults: AtomicU64::new(0),
        }
    }

    /// What it refuses, and what it was asked and told.
    pub fn starts(&self) -> &AllBut {
        &self.starts
    }

    /// Whether it saw no fault.
    pub fn is_kept(&self) -> bool {
        self.faults.load(Ordering::SeqCst) == 0
    }

    fn expect(&self, is_so: bool) {
        if !is_so {
            self.faults.fetch_add(1, Ordering::SeqCst);
        }
    }

    // The first question after a no is of the next update.
    fn forget(&self) {
        if clear(&self.refused) {
            for word in self.allowed.iter() {
                clear(word);
            }
        }
    }

    // Takes back the leave to start, and returns whether it was given.
    fn take_leave(&self, k: u32) -> bool {
        match self.allowed.get(k as usize) {
            Some(word) => clear(word),
            None => false,
        }
    }

    // Lets the processor start, or not.
    fn answer(&self, k: u32, may: bool) {
        if !may {
            set(&self.refused);
            return;
        }
        match self.allowed.get(k as usize) {
            Some(word) => self.expect(!set(word)),
            None => self.expect(false),
        }
    }
}

impl<R: Files + Alloc> InOrder<R> {
    // Whether this is the thread that asks, which the first question decides.
    fn is_asking(&self) -> bool {
        let Some(number) = thread_number(&self.rt) else {
            self.expect(false);
            return false;
        };
        match self
            .asking
            .compare_exchange(0, number, Ordering::SeqCst, Ordering::SeqCst)
        {
            Ok(_) => true,
            Err(first) => first == number,
        }
    }
}

impl<R: Files + Alloc + Clock + Sync> Gate for InOrder<R> {
    fn may_start(&self, k: u32) -> bool {
        self.expect(self.is_asking());
        self.forget();
        reaches(&self.rt, &self.faults, 1, PAUSE);
        let may = self.starts.may_start(k);
        self.answer(k, may);
        may
    }

    fn arrived(&self, k: u32) {
        self.starts.arrived(k);
        let is_asking = self.is_asking();
        let is_started = self.take_leave(k);
        let is_refused = self.refused.load(Ordering::SeqCst) == 1;
        self.expect(if is_started {
            !is_asking
        } else {
            is_asking && is_refused
        });
    }
}
