ghost use Rattle.std.specs.Prelude.{◌≡◌, ◌≤◌, ◌<◌, ◌+◌, ◌-◌, [], ◌∷◌, length, drop, take, MatchOption, IfSome, Some, None, slice_get};
ghost use Rattle.std.specs.List.{position_or_len};
ghost use Rattle.mt_text.specs.Text.{is_blank, is_word_byte, ends_word, before_comment, without_ending, without_return, words_at, words_from, words_of};

use crate::{Line, Place};

/// A word of a line, and where it begins.
#[derive(Clone, Copy)]
pub struct Word<'a> {
    pub text: &'a [u8],
    pub offset: usize,
    pub place: Place,
}

fn is_blank(byte: u8) -> bool
    ensures { result ≡ is_blank byte }
{
    byte == b' ' || byte == b'\t'
}

fn ends_word(byte: u8) -> bool
    ensures { result ≡ ends_word byte }
{
    is_blank(byte) || byte == b'#'
}

// The offset of the first byte from `from` on that isn't a blank, or the length.
fn past_blanks(text: &[u8], from: usize) -> usize
    requires { from ≤ length text.now }
    ensures within { result ≤ length text.now }
    ensures offset { result ≡ from + position_or_len is_word_byte (drop from text.now) }
{
    let mut at = from;
    'blanks: while at < text.len() && is_blank(text[at]) {
        at += 1;
    }
    at
}

// The offset of the first blank or `#` from `from` on, or the length.
fn past_word(text: &[u8], from: usize) -> usize
    requires { from ≤ length text.now }
    ensures within { result ≤ length text.now }
    ensures offset { result ≡ from + position_or_len ends_word (drop from text.now) }
{
    let mut at = from;
    'word: while at < text.len() && !ends_word(text[at]) {
        at += 1;
    }
    at
}

/// A text without one such byte at its end.
pub fn without_ending(text: &[u8], ending: u8) -> &[u8]
    ensures { result.now ≡ without_ending ending text.now }
{
    if text.is_empty() {
        return text;
    }
    let (front, last) = text.split_at(text.len() - 1);
    if last[0] == ending { front } else { text }
}

// Where the first word from an offset on begins and ends, in a line without CR.
pub(crate) fn next_word(text: &[u8], from: usize) -> Option<(usize, usize)>
    requires { from ≤ length text.now }
    ensures bounds { IfSome result (λ x. (from ≤ x.0) × (x.0 < x.1) × (x.1 ≤ length text.now)) }
    ensures word { MatchOption result
        (words_from from (before_comment (drop from text.now)) ≡ [])
        (λ x. words_from from (before_comment (drop from text.now)) ≡ (x.0, take (x.1 - x.0) (drop x.0 text.now)) ∷ words_from x.1 (before_comment (drop x.1 text.now))) }
{
    let start = past_blanks(text, from);
    let end = past_word(text, start);
    if end == start {
        None
    } else {
        Some((start, end))
    }
}

// Where the word of this number begins and ends.
fn word_at(text: &[u8], i: usize) -> Option<(usize, usize)>
    ensures bounds { IfSome result (λ x. (x.0 < x.1) × (x.1 ≤ length text.now)) }
    ensures word { MatchOption result
        (slice_get (words_from 0 (before_comment text.now)) i ≡ None)
        (λ x. slice_get (words_from 0 (before_comment text.now)) i ≡ Some (x.0, take (x.1 - x.0) (drop x.0 text.now))) }
{
    let mut at = 0;
    'words: for _ in 0..i {
        let Some((_, end)) = next_word(text, at) else {
            return None;
        };
        at = end;
    }
    next_word(text, at)
}

fn count(text: &[u8]) -> usize
    ensures { result ≡ length (words_from 0 (before_comment text.now)) }
{
    let mut at = 0;
    let mut count = 0;
    'words: while let Some((_, end)) = next_word(text, at) {
        at = end;
        count += 1;
    }
    count
}

impl<'a> Line<'a> {
    /// How many words the line has.
    pub fn words(&self) -> usize
        ensures { result ≡ length (words_of self.now.bytes.now) }
    {
        count(without_ending(self.bytes, b'\r'))
    }

    // The word between two offsets of the line.
    fn word_between(&self, start: usize, end: usize) -> Word<'a>
        requires some { start < end }
        requires within { end ≤ length (without_return self.now.bytes.now) }
        ensures text { result.text.now ≡ take (end - start) (drop start (without_return self.now.bytes.now)) }
        ensures offset { result.offset ≡ self.now.offset + start }
        ensures place { result.place ≡ record { line = self.now.number; column = start + 1 } }
    {
        let text = without_ending(self.bytes, b'\r');
        Word {
            text: &text[start..end],
            offset: self.offset + start,
            place: Place {
                line: self.number,
                column: start as u64 + 1,
            },
        }
    }

    /// The i-th word, as it stands in the source.
    pub fn word(&self, i: usize) -> Option<Word<'a>>
        ensures word { MatchOption result
            (slice_get (words_at self.now.offset self.now.bytes.now) i ≡ None)
            (λ word. slice_get (words_at self.now.offset self.now.bytes.now) i ≡ Some (word.offset, word.text.now)) }
        ensures place { IfSome result (λ word. word.place ≡ record { line = self.now.number; column = word.offset - self.now.offset + 1 }) }
    {
        let Some((start, end)) = word_at(without_ending(self.bytes, b'\r'), i) else {
            return None;
        };
        Some(self.word_between(start, end))
    }
}
