ghost use Rattle.std.specs.Prelude.{◌≡◌, [], length, map, take};
ghost use Rattle.std.specs.List.{AllByRecursion};
ghost use Rattle.mt_text.specs.Text.{before_comment, words_from};
ghost use Rattle.mt_text.specs.Words.{AreBounds, first_words, place_of, text_of, word_between};

use crate::words::{next_word, without_ending};
use crate::{Line, Place};
use arrayvec::ArrayVec;
use std::marker::Model;

const MOST: usize = 7;

/// The words at the front of a line, seven at most. Each is found once.
#[derive(Drop)]
pub struct Words<'a> {
    // the line without a CR at its end
    text: &'a [u8],
    number: u64,
    // where each word begins and ends in the text
    bounds: ArrayVec<(usize, usize), 7>,
}

impl<'a> Model for Words<'a> {
    ghost use Rattle.mt_text.specs.Words.{FirstWords, HasBounds, words_seen};

    ghost Value = { FirstWords };

    ghost view = { words_seen };

    ghost invariant = { HasBounds };
}

// Finds where each of the first seven words of a text without CR begins and ends.
#[inline(always)] // so that `first_words` needs no room for a line without words
fn find_bounds(text: &[u8], bounds: &mut ArrayVec<(usize, usize), 7>)
    requires none { bounds.old.items ≡ [] }
    ensures words { map (word_between text.now) bounds.new.items ≡ take 7 (words_from 0 (before_comment text.now)) }
    ensures within { AllByRecursion (AreBounds text.now) bounds.new.items }
{
    let mut at = 0;
    'words: for _ in 0..MOST {
        let Some((start, end)) = next_word(text, at) else {
            return;
        };
        bounds.push((start, end));
        at = end;
    }
}

impl<'a> Line<'a> {
    /// The words at the front of the line, seven at most.
    #[inline(always)]
    pub fn first_words(&self) -> Words<'a>
        ensures { result ≡ first_words self.now.number self.now.bytes.now }
    {
        let text = without_ending(self.bytes, b'\r');
        let mut bounds = ArrayVec::new();
        find_bounds(text, &mut bounds);
        Words {
            text,
            number: self.number,
            bounds,
        }
    }

    /// Replaces these words by the words at the front of the line, seven at most. This is faster than `first_words`, since
    /// nothing is moved.
    #[inline(always)]
    pub fn find_words(&self, words: &mut Words<'a>)
        ensures { words.new ≡ first_words self.now.number self.now.bytes.now }
    {
        words.text = without_ending(self.bytes, b'\r');
        words.number = self.number;
        words.bounds.clear();
        find_bounds(words.text, &mut words.bounds);
    }
}

impl<'a> Words<'a> {
    /// No words.
    #[inline(always)]
    pub fn new() -> Words<'a>
        ensures { result ≡ first_words 0 [] }
    {
        Words {
            text: b"",
            number: 0,
            bounds: ArrayVec::new(),
        }
    }

    /// How many words there are, seven at most.
    pub fn count(&self) -> usize
        ensures { result ≡ length self.now.words }
    {
        self.bounds.len()
    }

    /// The text of a word. It is empty if there is no such word.
    pub fn text(&self, i: usize) -> &'a [u8]
        ensures { result.now ≡ text_of self.now.words i }
    {
        match self.bounds.get(i) {
            Some(bounds) => &self.text[bounds.0..bounds.1],
            None => b"",
        }
    }

    /// The place of a word. It is the line's first column if there is no such word.
    pub fn place(&self, i: usize) -> Place
        ensures { result ≡ place_of self.now.number self.now.words i }
    {
        let start = match self.bounds.get(i) {
            Some(bounds) => bounds.0,
            None => 0,
        };
        Place {
            line: self.number,
            column: start as u64 + 1,
        }
    }
}
