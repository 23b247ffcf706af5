ghost use Rattle.std.specs.Prelude.{◌≡◌, ℕ, ◌<◌, ◌≤◌, List, [], ◌∷◌, ◌++◌, length, slice_get, Some};
ghost use Rattle.std.specs.List.{position, remove};
ghost use Rattle.mt_cache.specs.declared.line.CacheLine.{CacheLine};
ghost use Rattle.mt_cache.specs.Lines.{clean_line, clean_word, has_number};
ghost use Rattle.mt_cache.specs.Slots.{IsOrder, in_order};
ghost use Rattle.mt_cache.specs.Calls.{AreLines, change_at, has_dirty_word, write_word};

use crate::line::CacheLine;
use crate::words::{clean, clean_all, first_word, put};
use std::marker::Model;

/// As many slots as a cache has lines.
pub(crate) const SLOTS: usize = 64;

const IN_TURN: [u8; 64] = [
    0, 1, 2, 3, 4, 5, 6, 7, 8, 9, 10, 11, 12, 13, 14, 15, 16, 17, 18, 19, 20, 21, 22, 23, 24, 25,
    26, 27, 28, 29, 30, 31, 32, 33, 34, 35, 36, 37, 38, 39, 40, 41, 42, 43, 44, 45, 46, 47, 48, 49,
    50, 51, 52, 53, 54, 55, 56, 57, 58, 59, 60, 61, 62, 63,
];

/// A list of at most 64 lines, each in a slot. A line that is taken out moves no other line: only
/// the order of the slots changes.
#[derive(Drop)]
pub(crate) struct Slots {
    slots: [CacheLine; 64],
    // the slots of the lines, and then the free ones
    order: [u8; 64],
    count: usize,
}

impl Model for Slots {
    ghost Value = { List CacheLine };

    ghost view = { λ s. in_order s.count s.order s.slots };

    ghost invariant = { λ s. IsOrder s.order × (length s.slots ≡ 64) × (s.count ≤ 64) };
}

impl Slots {
    /// No line.
    pub(crate) fn new() -> Self
        ensures { result ≡ [] }
    {
        Slots {
            slots: [CacheLine::default(); 64],
            order: IN_TURN,
            count: 0,
        }
    }

    /// The number of lines.
    pub(crate) fn len(&self) -> usize
        ensures count { result ≡ length self.now }
        ensures room { length self.now ≤ 64 }
    {
        self.count
    }

    /// The line at a place.
    pub(crate) fn get(&self, i: usize) -> &CacheLine
        requires { i < length self.now }
        ensures { slice_get self.now i ≡ Some result.now }
    {
        &self.slots[self.order[i] as usize]
    }

    /// The slot of the line at a place.
    pub(crate) fn slot(&self, i: usize) -> u8
        requires { i < length self.now }
    {
        self.order[i]
    }

    /// The place of the line of this number.
    pub(crate) fn place_of(&self, number: u64) -> Option<usize>
        ensures { result ≡ position (has_number number) self.now }
    {
        for i in 0..self.count {
            if self.slots[self.order[i] as usize].number == number {
                return Some(i);
            }
        }
        None
    }

    /// The place of the first line that has a dirty word.
    pub(crate) fn first_with_dirty(&self) -> Option<usize>
        ensures { result ≡ position has_dirty_word self.now }
    {
        for i in 0..self.count {
            if first_word(self.slots[self.order[i] as usize].dirty).is_some() {
                return Some(i);
            }
        }
        None
    }

    /// Adds a line, for which there is room, and returns its slot.
    pub(crate) fn push(&mut self, line: CacheLine) -> u8
        requires { length self.old < 64 }
        ensures { self.new ≡ self.old ++ line ∷ [] }
    {
        let slot = self.order[self.count];
        self.slots[slot as usize] = line;
        self.count += 1;
        slot
    }

    /// Takes out the line at a place.
    pub(crate) fn remove(&mut self, i: usize)
        requires { i < length self.old }
        ensures { self.new ≡ remove self.old i }
    {
        self.order[i..].rotate_left(1);
        self.count -= 1;
    }

    /// Takes out all lines.
    pub(crate) fn clear(&mut self)
        ensures { self.new ≡ [] }
    {
        self.count = 0;
    }

    /// Writes a word of the line at a place, and its dirty bit.
    pub(crate) fn put(&mut self, i: usize, word: u8, v: u64, dirty: bool)
        requires kept { AreLines self.old }
        requires place { i < length self.old }
        requires word { word < 8 }
        ensures lines { self.new ≡ change_at i (write_word word v dirty) self.old }
        ensures kept { AreLines self.new }
    {
        put(&mut self.slots[self.order[i] as usize], word, v, dirty);
    }

    /// Clears the dirty bit of a word of the line at a place.
    pub(crate) fn clean(&mut self, i: usize, word: u8)
        requires kept { AreLines self.old }
        requires place { i < length self.old }
        requires word { word < 8 }
        ensures lines { self.new ≡ change_at i (clean_word word) self.old }
        ensures kept { AreLines self.new }
    {
        clean(&mut self.slots[self.order[i] as usize], word);
    }

    /// Clears all dirty bits of the line at a place.
    pub(crate) fn clean_all(&mut self, i: usize)
        requires kept { AreLines self.old }
        requires place { i < length self.old }
        ensures lines { self.new ≡ change_at i clean_line self.old }
        ensures kept { AreLines self.new }
    {
        clean_all(&mut self.slots[self.order[i] as usize]);
    }
}
