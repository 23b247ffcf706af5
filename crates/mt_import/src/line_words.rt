ghost use Rattle.std.specs.Prelude.{◌≡◌, ◌≤◌, ◌-◌, drop, length, take};
ghost use Rattle.mt_text.specs.Text.{words_of};
ghost use Rattle.mt_text.specs.Words.{place_of, text_of};
ghost use Rattle.mt_import.specs.Pieces.{is_text};
ghost use Rattle.mt_import.specs.LineWords.{behind_facility, behind_log, behind_stamp, head_end, is_bracket, is_closed, is_iso, is_level, is_opened, kernel_end, words_behind};

use crate::pieces::{is_text, word_is, word_place, word_text};
use mt_text::{Line, Place};
use std::cmp::min;
use std::marker::Model;

/// The words of a line behind what a log puts in front of it. Each call looks for its word from the
/// line's start on, so that a line's cost is that of a few words.
#[derive(Drop)]
pub(crate) struct LineWords<'a> {
    line: Line<'a>,
    // the number of the first of them in the line
    first: u8,
}

impl<'a> Model for LineWords<'a> {
    ghost use Rattle.mt_text.specs.Words.{FirstWords};
    ghost use Rattle.mt_import.specs.LineWords.{words_behind as behind_first};

    ghost Value = { FirstWords };

    ghost view = { λ w. record { number = w.line.number; words = behind_first w.first w.line.bytes.now } };
}

fn is_bracket(word: &[u8]) -> bool
    ensures { result ≡ is_bracket word.now }
{
    matches!(word, [b'[', ..])
}

// The bytes between two offsets, where a word has them.
fn between(first: usize, end: usize, word: &[u8]) -> &[u8]
    requires order { first ≤ end }
    requires small { end ≤ 64 }
    ensures { result.now ≡ take (end - first) (drop first word.now) }
{
    let first = min(first, word.len());
    let end = min(end, word.len());
    &word[first..end]
}

// Behind the `<` of a level.
fn is_level(rest: &[u8]) -> bool
    ensures { result ≡ is_level rest.now }
{
    is_text(b">[", between(1, 3, rest)) || is_text(b">[", between(2, 4, rest))
}

fn is_opened(word: &[u8]) -> bool
    ensures { result ≡ is_opened word.now }
{
    if is_bracket(word) {
        return true;
    }
    match word.split_first() {
        Some((first, rest)) => *first == b'<' && is_level(rest),
        None => false,
    }
}

fn is_closed(word: &[u8]) -> bool
    ensures { result ≡ is_closed word.now }
{
    match word.last() {
        Some(byte) => *byte == b']',
        None => false,
    }
}

/// The number of the first word behind a stamp that begins at the word of this number.
pub(crate) fn behind_stamp(at: u8, line: &Line<'_>) -> u8
    requires { at ≤ 5 }
    ensures end { result ≡ behind_stamp at (words_of line.now.bytes.now) }
    ensures few { result ≤ 10 }
{
    let k = at as usize;
    if !is_opened(word_text(line, k)) {
        at
    } else if is_closed(word_text(line, k)) {
        at + 1
    } else if is_closed(word_text(line, k + 1)) {
        at + 2
    } else if is_closed(word_text(line, k + 2)) {
        at + 3
    } else if is_closed(word_text(line, k + 3)) {
        at + 4
    } else if is_closed(word_text(line, k + 4)) {
        at + 5
    } else {
        at
    }
}

fn is_iso(word: &[u8]) -> bool
    ensures { result ≡ is_iso word.now }
{
    is_text(b"-", between(4, 5, word)) && is_text(b"T", between(10, 11, word))
}

fn behind_facility(line: &Line<'_>) -> u8
    ensures end { result ≡ behind_facility (words_of line.now.bytes.now) }
    ensures few { result ≤ 5 }
{
    let is_facility = word_is(line, 0, b"kern") && is_text(b":", between(0, 1, word_text(line, 1)));
    if !is_facility {
        0
    } else if word_is(line, 2, b":") {
        3
    } else {
        2
    }
}

fn behind_log(line: &Line<'_>) -> u8
    ensures end { result ≡ behind_log (words_of line.now.bytes.now) }
    ensures few { result ≤ 5 }
{
    if word_is(line, 2, b"kernel:") {
        3
    } else if word_is(line, 4, b"kernel:") {
        5
    } else if is_iso(word_text(line, 0)) {
        1
    } else {
        behind_facility(line)
    }
}

/// The number of the first word behind what a log puts in front of a kernel's line.
pub(crate) fn head_end(line: &Line<'_>) -> u8
    ensures { result ≡ head_end (words_of line.now.bytes.now) }
{
    behind_stamp(behind_log(line), line)
}

/// The number of the first word behind what Linux's log or Xen's console puts in front of a line.
pub(crate) fn kernel_end(line: &Line<'_>) -> u8
    ensures { result ≡ kernel_end (words_of line.now.bytes.now) }
{
    if word_is(line, 0, b"(XEN)") {
        behind_stamp(1, line)
    } else {
        head_end(line)
    }
}

impl<'a> LineWords<'a> {
    /// The words of a line from the word of this number on.
    pub(crate) fn behind(first: u8, line: &Line<'a>) -> LineWords<'a>
        ensures { result ≡ record { number = line.now.number; words = words_behind first line.now.bytes.now } }
    {
        LineWords { line: *line, first }
    }

    /// How many words there are.
    pub(crate) fn count(&self) -> usize
        ensures { result ≡ length self.now.words }
    {
        self.line.words().saturating_sub(self.first as usize)
    }

    /// The text of a word, which is empty where the line doesn't have the word.
    pub(crate) fn text(&self, i: u8) -> &'a [u8]
        ensures { result.now ≡ text_of self.now.words i }
    {
        word_text(&self.line, self.first as usize + i as usize)
    }

    /// Whether a word is this text.
    pub(crate) fn is(&self, i: u8, text: &[u8]) -> bool
        ensures { result ≡ is_text text.now (text_of self.now.words i) }
    {
        is_text(text, self.text(i))
    }

    /// The place of a word, which is the line's first column where the line doesn't have the word.
    pub(crate) fn place(&self, i: u8) -> Place
        ensures { result ≡ place_of self.now.number self.now.words i }
    {
        word_place(&self.line, self.first as usize + i as usize)
    }
}
