// What a wait does between two loads.
use std::{hint, thread};

// How often a wait pauses before it yields the processor.
const SPINS: u32 = 64;

/// The pauses of a wait. It needs no runtime, and no call of it waits for anything.
#[derive(Drop)]
pub struct Pauses {
    left: u32,
}

impl Pauses {
    /// Those of a wait that begins.
    pub fn new() -> Pauses {
        Pauses { left: SPINS }
    }

    /// Pauses, or yields the processor after 64 pauses.
    pub fn pause(&mut self) {
        if self.left == 0 {
            thread::yield_now();
            self.left = SPINS;
        } else {
            hint::spin_loop();
            self.left -= 1;
        }
    }
}
