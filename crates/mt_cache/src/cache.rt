ghost use Rattle.std.specs.Prelude.{◌≡◌, ℕ, ◌<◌, ◌≤◌, ◌%◌, ◌==◌, not, List, [], ◌∷◌, ◌++◌, length, slice_get, None, Some, IfSome, IfNone, MatchOption};
ghost use Rattle.std.specs.List.{All, count_by, position};
ghost use Rattle.std.specs.Option.{option_map};
ghost use Rattle.mt_cache.specs.declared.line.CacheLine.{CacheLine};
ghost use Rattle.mt_cache.specs.Lines.{AreDistinct, IsLine, clean_line, clean_word, find_line, first_dirty_line, first_dirty_word, has_number, oldest_of_full};
ghost use Rattle.mt_cache.specs.Counts.{AreCounted, has_residue};
ghost use Rattle.mt_cache.specs.Calls.{AreLines, change_at, clean_line_of, has_dirty_word, with_room, without_at, write_word};

use crate::counts::LineCounts;
use crate::hints::Hints;
use crate::line::CacheLine;
use crate::slots::{SLOTS, Slots};
use crate::words::first_word;
use std::marker::Model;

/// The lines of a cache, the oldest first. No two have one number.
///
/// The counts answer most searches for a line that isn't there without a look at the lines, and the
/// hints say where to look first for one that is.
#[derive(Drop)]
pub struct Cache {
    lines: Slots,
    counts: LineCounts,
    hints: Hints,
}

impl Model for Cache {
    ghost Value = { List CacheLine };

    ghost view = { λ c. c.lines };

    ghost invariant = { λ c. AreLines c.lines × AreCounted c.lines c.counts.counts };
}

// The place of the line of this number, which is looked for at a guess first.
fn place_near(lines: &Slots, number: u64, guess: usize) -> Option<usize>
    requires { AreDistinct lines.now }
    ensures { result ≡ position (has_number number) lines.now }
{
    if guess < lines.len() && lines.get(guess).number == number {
        Some(guess)
    } else {
        lines.place_of(number)
    }
}

impl Cache {
    /// A cache without lines.
    pub fn new() -> Self
        ensures { result ≡ [] }
    {
        Cache {
            lines: Slots::new(),
            counts: LineCounts::new(),
            hints: Hints::new(),
        }
    }

    /// The number of lines.
    pub fn len(&self) -> usize
        ensures count { result ≡ length self.now }
        ensures distinct { AreDistinct self.now }
        ensures room { length self.now ≤ 64 }
        ensures whole { All IsLine self.now }
    {
        self.lines.len()
    }

    /// The line at a place. The oldest line is at place 0.
    pub fn nth(&self, i: usize) -> &CacheLine
        requires { i < length self.now }
        ensures { slice_get self.now i ≡ Some result.now }
    {
        self.lines.get(i)
    }

    /// Whether a line has a number with the low twelve bits of this one.
    #[inline(always)]
    pub fn may_have(&self, number: u64) -> bool
        ensures { result ≡ not (count_by (has_residue (number % 4096)) self.now == 0) }
    {
        self.counts.may_have(number)
    }

    /// The place of the line of this number.
    pub fn find(&self, number: u64) -> Option<usize>
        ensures value { result ≡ position (has_number number) self.now }
        ensures place { IfSome result (λ i. i < length self.now) }
        ensures line { IfSome result (λ i. slice_get self.now i ≡ find_line number self.now) }
        ensures absent { IfNone result (find_line number self.now ≡ None) }
        ensures distinct { AreDistinct self.now }
    {
        if self.counts.may_have(number) {
            place_near(&self.lines, number, self.hints.guess(number))
        } else {
            None
        }
    }

    /// The line that the next fill pushes out: the oldest of 64.
    pub fn oldest_of_full(&self) -> Option<&CacheLine>
        ensures { MatchOption result (oldest_of_full 64 self.now ≡ None) (λ l. oldest_of_full 64 self.now ≡ Some l.now) }
    {
        if self.lines.len() < SLOTS {
            None
        } else {
            Some(self.lines.get(0))
        }
    }

    // Drops the oldest of 64 lines.
    fn make_room(&mut self)
        ensures lines { self.new ≡ with_room 64 self.old }
        ensures room { length self.new < 64 }
    {
        if self.lines.len() == SLOTS {
            self.invalidate(0);
        }
    }

    // Adds a line.
    fn push(&mut self, line: CacheLine)
        requires absent { find_line line.number self.old ≡ None }
        requires whole { IsLine line }
        requires room { length self.old < 64 }
        ensures { self.new ≡ self.old ++ line ∷ [] }
    {
        let place = self.lines.len();
        let slot = self.lines.push(line);
        self.counts.add(line.number);
        self.hints.keep(line.number, slot);
        self.hints.keep_place(slot, place);
    }

    /// Adds a clean line. Where 64 lines stood, it first drops the oldest.
    pub fn fill(&mut self, number: u64, words: [u64; 8], era: u64)
        requires { find_line number self.old ≡ None }
        ensures { self.new ≡ with_room 64 self.old ++ clean_line_of number words era ∷ [] }
    {
        self.make_room();
        self.push(CacheLine {
            number,
            words,
            dirty: 0,
            era,
        });
    }

    /// Writes a word of the line at a place, and its dirty bit.
    pub fn write(&mut self, i: usize, word: u8, v: u64, dirty: bool)
        requires place { i < length self.old }
        requires word { word < 8 }
        ensures { self.new ≡ change_at i (write_word word v dirty) self.old }
    {
        self.hints
            .keep(self.lines.get(i).number, self.lines.slot(i)); // another line may have taken the hint
        self.lines.put(i, word, v, dirty);
    }

    /// Clears the dirty bit of a word of the line at a place.
    pub fn clean_word(&mut self, i: usize, word: u8)
        requires place { i < length self.old }
        requires word { word < 8 }
        ensures { self.new ≡ change_at i (clean_word word) self.old }
    {
        self.lines.clean(i, word);
    }

    /// Clears the dirty bits of all words of the line at a place.
    pub fn clean(&mut self, i: usize)
        requires { i < length self.old }
        ensures { self.new ≡ change_at i clean_line self.old }
    {
        self.lines.clean_all(i);
    }

    /// Drops the line at a place.
    pub fn invalidate(&mut self, i: usize)
        requires { i < length self.old }
        ensures { self.new ≡ without_at i self.old }
    {
        let number = self.lines.get(i).number;
        self.lines.remove(i);
        self.counts.remove(number);
        self.hints.drop_at(i);
    }

    /// The first dirty word of the first line that has one: the place of the line, and the word.
    pub fn first_dirty(&self) -> Option<(usize, u8)>
        ensures place { IfSome result (λ found. position has_dirty_word self.now ≡ Some found.0) }
        ensures line { IfSome result (λ found. slice_get self.now found.0 ≡ first_dirty_line self.now) }
        ensures word { IfSome result (λ found. option_map first_dirty_word (first_dirty_line self.now) ≡ Some (Some found.1)) }
        ensures within { IfSome result (λ found. (found.0 < length self.now) × (found.1 < 8)) }
        ensures clean { IfNone result (first_dirty_line self.now ≡ None) }
    {
        let Some(i) = self.lines.first_with_dirty() else {
            return None;
        };
        let Some(word) = first_word(self.lines.get(i).dirty) else {
            return None;
        };
        Some((i, word))
    }

    /// Drops all lines, of which none has a dirty word.
    pub fn empty(&mut self)
        requires { first_dirty_line self.old ≡ None }
        ensures { self.new ≡ [] }
    {
        self.lines.clear();
        self.counts.clear();
    }
}
