ghost use Rattle.std.specs.Prelude.{◌≡◌, ◌↔◌, ◌<◌, ℕ, List, [], length, None, Some, Err, Result, IfErr, IfOk, IsErrOf, MatchResult};
ghost use Rattle.std.specs.Io.KnownBytes.{IsAtEnd};
ghost use Rattle.mt_ports.specs.Causes.{Rose};
ghost use Rattle.mt_text.specs.Feed.{GaveTooMuch, IsLong, TakesMore, at_start, drawn, taken};
ghost use Rattle.mt_text.specs.Reader.{Course, TakesLine};
ghost use Rattle.mt_text.specs.Text.{end_of, lines_of, longest_input};
ghost use Rattle.mt_text.specs.declared.fault.FeedFault.{FeedFault};

use crate::{Feed, FeedFault, Line, Lines, Place, end_place};
use mt_ports::Source;

/// A reader of the lines of a text, as it is between two of them.
pub trait LineReader: Drop {
    type Answer;

    type Fault: Drop;

    /// The lines that follow, of which the first has this number, lead to this.
    ghost at: { Self → ℕ → Course (Result Self.Answer Self.Fault) → Type 0 };

    /// This holds of each result.
    ghost fits: { Result Self.Answer Self.Fault → Type 0 };

    /// Takes one line.
    fn take_line(&mut self, line: &Line<'_>) -> Result<(), Self::Fault>
        ensures takes { TakesLine at self.old self.new line.now result }
        ensures fits { IfErr result (λ fault. fits (Err fault)) };

    /// Returns the result of all lines. The text ends at this place.
    fn finish_at(self, end: Place) -> Result<Self::Answer, Self::Fault>
        ensures value { (number : ℕ) (course : Course (Result Self.Answer Self.Fault)) → at self number course → result ≡ course [] end }
        ensures fits { fits result };
}

// Reads all lines through a feed that has taken nothing. Behind a fault of a line the rest is read too.
fn read_from<R: LineReader, S: Source>(
    mut reader: R,
    feed: &mut Feed,
    source: &mut S,
) -> Result<Result<R::Answer, R::Fault>, FeedFault>
    requires { feed.old ≡ at_start }
    ensures answer { (course : Course (Result R.Answer R.Fault)) (bytes : List ℕ) → R.at reader 1 course → S.left source.old ≡ Some bytes
        → IfOk result (λ answer. answer ≡ course (lines_of bytes) (end_of bytes)) }
    ensures fits { IfOk result R.fits }
    ensures end { IfOk result (λ _. IsAtEnd (S.left source.new)) }
    ensures fault { MatchResult result (λ _. feed.new.fault ≡ None) (λ fault. feed.new.fault ≡ Some fault) }
    ensures bytes { TakesMore (drawn S.left S.given source.old source.new) (λ more. taken feed.new ≡ length more) }
    ensures long { IsLong feed.new }
    ensures failed { IsErrOf result FeedFault.ReadFault → Rose (S.faults source.old) (S.faults source.new) }
    ensures stands { (IsErrOf result FeedFault.ReadFault → ⊥) → S.faults source.new ≡ S.faults source.old }
{
    'lines: while let Some(line) = feed.line(source)? {
        if let Err(fault) = reader.take_line(&line) {
            feed.drain(source)?;
            return Ok(Err(fault));
        }
    }
    Ok(reader.finish_at(feed.end()))
}

/// Reads the lines of a source, one after the other, out of one buffer, and returns the reader's result. Behind a fault
/// of a line the rest is read too, since a failed read and too many bytes take precedence over it.
pub fn read_lines<R: LineReader, S: Source>(
    reader: R,
    source: &mut S,
) -> Result<Result<R::Answer, R::Fault>, FeedFault>
    ensures answer { (course : Course (Result R.Answer R.Fault)) (bytes : List ℕ) → R.at reader 1 course → S.left source.old ≡ Some bytes
        → IfOk result (λ answer. answer ≡ course (lines_of bytes) (end_of bytes)) }
    ensures fits { IfOk result R.fits }
    ensures end { (bytes : List ℕ) → S.left source.old ≡ Some bytes → IfOk result (λ _. S.left source.new ≡ Some []) }
    ensures too_long { IsErrOf result FeedFault.TooLong ↔ GaveTooMuch (S.given source.old) (S.given source.new) }
    ensures long { (bytes : List ℕ) → S.left source.old ≡ Some bytes → IsErrOf result FeedFault.TooLong → longest_input < length bytes }
    ensures failed { IsErrOf result FeedFault.ReadFault → Rose (S.faults source.old) (S.faults source.new) }
    ensures stands { (IsErrOf result FeedFault.ReadFault → ⊥) → S.faults source.new ≡ S.faults source.old }
{
    read_from(reader, &mut Feed::new(), source)
}

/// Reads the lines of a text, one after the other, and returns the reader's result.
pub fn read_slice<R: LineReader>(mut reader: R, source: &[u8]) -> Result<R::Answer, R::Fault>
    ensures answer { (course : Course (Result R.Answer R.Fault)) → R.at reader 1 course → result ≡ course (lines_of source.now) (end_of source.now) }
    ensures fits { R.fits result }
{
    let mut lines = Lines::of(source);
    'lines: while let Some(line) = lines.next_line() {
        if let Err(fault) = reader.take_line(&line.front()) {
            return Err(fault);
        }
    }
    reader.finish_at(end_place(source))
}
