ghost use Rattle.std.specs.Prelude.{◌≡◌, ◌≤◌, ◌<◌, ◌+◌, ◌^◌, ◌↔◌, ◌∷◌, length, drop, take, min, IsNone, IfSome, IsTrue, position};
ghost use Rattle.std.specs.List.{before_first, position_or_len};

use crate::Place;
use memchr::memchr;

/// One line of a source, without its LF.
#[derive(Clone, Copy)]
pub struct Line<'a> {
    pub bytes: &'a [u8],
    pub offset: usize,
    pub number: u64,
    pub next: usize,
    pub ghost within: { offset + length bytes.now ≤ next },
}

ghost use Rattle.mt_text.specs.Text.{is_line_end, lines_of, longest_line, past_limit, end_of, place_behind, words_at, StandInOrder};

/// The bytes of the longest line that is read.
pub const LONGEST: usize = 4096;

/// Where the first LF of a text stands.
#[inline(always)]
pub(crate) fn line_end(text: &[u8]) -> Option<usize>
    ensures { result ≡ position is_line_end text.now }
{
    memchr(b'\n', text)
}

/// The line that begins at an offset. There is none exactly at the end.
pub fn next_line<'a>(source: &'a [u8], from: usize, number: u64) -> Option<Line<'a>>
    requires { from ≤ length source.now }
    ensures none { IsNone result ↔ (from ≡ length source.now) }
    ensures bytes { IfSome result (λ line. line.bytes.now ≡ before_first is_line_end (drop from source.now)) }
    ensures slice { IfSome result (λ line. line.bytes.now ≡ take (length line.bytes.now) (drop from source.now)) }
    ensures next { IfSome result (λ line. line.next ≡ min (from + length line.bytes.now + 1) (length source.now)) }
    ensures lines { IfSome result (λ line. lines_of (drop from source.now) ≡ line.bytes.now ∷ lines_of (drop line.next source.now)) }
    ensures words { IfSome result (λ line. StandInOrder source.now from (words_at from line.bytes.now)) }
    ensures rest { IfSome result (λ line. (line.offset ≡ from) × (line.number ≡ number) × (from < line.next) × (line.next ≤ length source.now)) }
{
    let (_, text) = source.split_at(from);
    if text.is_empty() {
        return None;
    }
    match line_end(text) {
        Some(at) => {
            let (bytes, _) = text.split_at(at);
            Some(Line {
                bytes,
                offset: from,
                number,
                next: from + at + 1,
            })
        }
        None => Some(Line {
            bytes: text,
            offset: from,
            number,
            next: source.len(),
        }),
    }
}

/// The place after bytes that begin at this place.
pub(crate) fn place_behind(start: Place, bytes: &[u8]) -> Place
    requires lines { start.line + length bytes.now < 2 ^ 64 }
    requires columns { start.column + length bytes.now < 2 ^ 64 }
    ensures value { result ≡ place_behind start bytes.now }
    ensures lines { result.line ≤ start.line + length bytes.now }
    ensures columns { result.column ≤ start.column + length bytes.now }
{
    let mut place = start;
    for byte in bytes {
        place = if *byte == b'\n' {
            Place {
                line: place.line + 1,
                column: 1,
            }
        } else {
            Place {
                line: place.line,
                column: place.column + 1,
            }
        };
    }
    place
}

/// The place after the last byte.
pub fn end_place(source: &[u8]) -> Place
    ensures { result ≡ end_of source.now }
{
    place_behind(Place { line: 1, column: 1 }, source)
}

impl<'a> Line<'a> {
    /// Whether the line has more bytes than a line may have.
    pub fn too_long(&self) -> bool
        ensures { IsTrue result ↔ (longest_line < length self.now.bytes.now) }
    {
        self.bytes.len() > LONGEST
    }

    /// Where the offence of a line that is too long stands: just past the longest.
    pub fn past_limit(&self) -> Place
        ensures { result ≡ past_limit self.now.number }
    {
        Place {
            line: self.number,
            column: LONGEST as u64 + 1,
        }
    }

    /// The line, or if it is too long its first 4,097 bytes, as a feed lends it.
    pub(crate) fn front(&self) -> Line<'a>
        ensures bytes { result.bytes.now ≡ take (longest_line + 1) self.now.bytes.now }
        ensures number { result.number ≡ self.now.number }
    {
        if self.bytes.len() <= LONGEST {
            return *self;
        }
        let (bytes, _) = self.bytes.split_at(LONGEST + 1);
        Line {
            bytes,
            offset: self.offset,
            number: self.number,
            next: self.next,
        }
    }
}
