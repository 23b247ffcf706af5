ghost use Rattle.std.specs.Prelude.{◌≡◌, ℕ, ◌<◌, ◌≤◌, List, [], length, drop, slice_get, None, Some};
ghost use Rattle.std.specs.List.{All, position};
ghost use Rattle.mt_cache.specs.declared.line.CacheLine.{CacheLine};
ghost use Rattle.mt_cache.specs.Lines.{AreDistinct, IsLine, find_line, without_line};
ghost use Rattle.mt_cache.specs.Calls.{AreLines, handed_back, left_by_combine};

use crate::line::CacheLine;
use crate::places::{add, place_of, put_at, take_at};
use crate::words::{first_written, has_all_words};
use arrayvec::ArrayVec;
use std::marker::Model;

/// The write-combining buffers of a processor, the oldest first. No two have one number, and a
/// dirty bit says that the word was written.
#[derive(Drop)]
pub struct Buffers {
    pub lines: ArrayVec<CacheLine, 4>,
}

impl Model for Buffers {
    ghost Value = { List CacheLine };

    ghost view = { λ b. b.lines.items };

    ghost invariant = { λ b. AreLines b.lines.items };
}

impl Buffers {
    /// No buffer.
    pub fn new() -> Self
        ensures { result ≡ [] }
    {
        Buffers {
            lines: ArrayVec::new(),
        }
    }

    /// The buffers, the oldest first.
    pub fn lines(&self) -> &[CacheLine]
        ensures value { result.now ≡ self.now }
        ensures distinct { AreDistinct self.now }
        ensures room { length self.now ≤ 4 }
        ensures whole { All IsLine self.now }
    {
        self.lines.as_slice()
    }

    /// Writes a word into the buffer of its line, which is added where there is none, and hands
    /// back a buffer that must be emptied: the oldest of four where one is added, or the one that
    /// now has all eight words.
    pub fn combine(&mut self, number: u64, word: u8, v: u64, era: u64) -> Option<CacheLine>
        requires { word < 8 }
        ensures out { result ≡ handed_back number word v era self.old }
        ensures lines { self.new ≡ left_by_combine number word v era self.old }
    {
        let Some(i) = place_of(self.lines.as_slice(), number) else {
            return add(&mut self.lines, first_written(number, word, v, era));
        };
        put_at(&mut self.lines, i, word, v, true);
        if has_all_words(self.lines.as_slice()[i].dirty) {
            Some(take_at(&mut self.lines, i))
        } else {
            None
        }
    }

    /// Takes out the buffer of a line.
    pub fn take(&mut self, number: u64) -> Option<CacheLine>
        ensures out { result ≡ find_line number self.old }
        ensures lines { self.new ≡ without_line number self.old }
    {
        let Some(i) = place_of(self.lines.as_slice(), number) else {
            return None;
        };
        Some(take_at(&mut self.lines, i))
    }

    /// Takes out the oldest buffer.
    pub fn take_oldest(&mut self) -> Option<CacheLine>
        ensures out { result ≡ slice_get self.old 0 }
        ensures lines { self.new ≡ drop 1 self.old }
    {
        self.lines.pop_at(0)
    }
}
