ghost use Rattle.std.specs.Prelude.{◌≡◌, ◌<◌, ◌^◌, [], MatchOption};
ghost use Rattle.mt_text.specs.Lines.{TakesFirst, all_lines};

use crate::Line;
use crate::line::next_line;
use std::marker::Model;

/// The lines of a text, one after the other, however long each is.
#[derive(Drop)]
pub struct Lines<'a> {
    source: &'a [u8],
    // where the next line begins, and its number
    at: usize,
    number: u64,
}

impl<'a> Model for Lines<'a> {
    ghost use Rattle.mt_text.specs.Lines.{AreLinesInside, LinesLeft, lines_seen};

    ghost Value = { LinesLeft };

    ghost view = { lines_seen };

    ghost invariant = { AreLinesInside };
}

impl<'a> Lines<'a> {
    /// All lines of a text.
    pub fn of(source: &'a [u8]) -> Lines<'a>
        ensures { result ≡ all_lines source.now }
    {
        Lines {
            source,
            at: 0,
            number: 1,
        }
    }

    /// Moves on to the next line, and returns it if there is one.
    #[inline(always)]
    pub fn next_line(&mut self) -> Option<Line<'a>>
        ensures first { MatchOption result ((self.old.bytes ≡ []) × (self.new ≡ self.old)) (TakesFirst self.old self.new) }
        ensures few { self.new.number < 2 ^ 64 }
    {
        let Some(line) = next_line(self.source, self.at, self.number) else {
            return None;
        };
        self.at = line.next;
        self.number += 1;
        Some(line)
    }
}
