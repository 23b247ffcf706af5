use crate::slots::SLOTS;

/// Guesses at the places of lines, which are compared before use.
#[derive(Drop)]
pub(crate) struct Hints {
    // by a number's low bits, the slot of such a line: the one that was added or written last
    slots: [u8; 256],
    // of the line in each slot its place plus `dropped`, modulo 256
    places: [u8; SLOTS],
    // how often the first line was dropped: then all places fall, and none is written
    dropped: u8,
}

// What is kept of a place, after a line is dropped at another one.
fn lowered(kept: u8, dropped: u8, place: u8) -> u8 {
    if kept.wrapping_sub(dropped) > place {
        kept.wrapping_sub(1)
    } else {
        kept
    }
}

impl Hints {
    /// The first slot and the first place for each line.
    pub(crate) fn new() -> Self {
        Hints {
            slots: [0; 256],
            places: [0; SLOTS],
            dropped: 0,
        }
    }

    /// The place at which to look.
    pub(crate) fn guess(&self, number: u64) -> usize {
        let slot = self.slots[(number % 256) as usize] as usize % SLOTS;
        self.places[slot].wrapping_sub(self.dropped) as usize
    }

    /// Keeps the slot of a line.
    pub(crate) fn keep(&mut self, number: u64, slot: u8) {
        self.slots[(number % 256) as usize] = slot;
    }

    /// Keeps the place of the line in a slot.
    pub(crate) fn keep_place(&mut self, slot: u8, place: usize) {
        self.places[slot as usize % SLOTS] = self.dropped.wrapping_add((place % 256) as u8);
    }

    /// The line at a place is dropped, and those behind it move down.
    pub(crate) fn drop_at(&mut self, place: usize) {
        if place == 0 {
            self.dropped = self.dropped.wrapping_add(1);
            return;
        }
        for i in 0..SLOTS {
            self.places[i] = lowered(self.places[i], self.dropped, (place % 256) as u8);
        }
    }
}
