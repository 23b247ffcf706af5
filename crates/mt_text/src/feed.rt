ghost use Rattle.std.specs.Prelude.{◌≡◌, ◌≤◌, ◌<◌, ◌↔◌, ℕ, Bool, [], length, Some, None, Err, IsErrOf, IfErr, IfOk};
ghost use Rattle.std.specs.Borrow.{sem};
ghost use Rattle.std.specs.Io.KnownBytes.{IsAtEnd};
ghost use Rattle.std.specs.Io.BufRead.{Rests};
ghost use Rattle.mt_ports.specs.Causes.{Rose};
ghost use Rattle.mt_text.specs.Feed.{Advances, Drops, Fills, IsLong, Lines, MovesPending, PassesOver, TakesMore, at_start, drawn, is_last, known_front, moved_on, taken, with_end};
ghost use Rattle.mt_text.specs.Text.{longest_input, longest_line};
ghost use Rattle.mt_text.specs.contracts.feed.Feed.{the_row};
ghost use Rattle.mt_text.specs.declared.fault.FeedFault.{FeedFault};

use crate::buffer::Buffer;
use crate::line::{LONGEST, line_end, place_behind};
use crate::{FeedFault, Line, Place};
use mt_ports::Source;
use std::marker::Model;

/// The bytes of the longest input that is read.
pub const LONGEST_INPUT: usize = 16_777_216;

/// The lines of a source, out of one buffer.
#[derive(Drop)]
pub struct Feed {
    buffer: Buffer,
    // the line that was lent last: where it began, and its number
    from: usize,
    number: u64,
    // where the pending bytes begin
    offset: usize,
    place: Place,
    fault: Option<FeedFault>,
}

impl Model for Feed {
    ghost use Rattle.mt_text.specs.Feed.{Feeding, IsFeedingInside, feed_seen};

    ghost Value = { Feeding };

    ghost view = { feed_seen };

    ghost invariant = { IsFeedingInside };
}

// How many bytes of the first line are lent, and whether an LF ends them, where these bytes tell it.
#[inline(always)]
fn known_front(bytes: &[u8]) -> Option<(usize, bool)>
    ensures { result ≡ known_front bytes.now }
{
    match line_end(bytes) {
        Some(at) if at > LONGEST => Some((LONGEST + 1, false)),
        Some(at) => Some((at, true)),
        None if bytes.len() > LONGEST => Some((LONGEST + 1, false)),
        None => None,
    }
}

impl Feed {
    /// A feed that has taken nothing.
    pub fn new() -> Feed
        ensures { result ≡ at_start }
    {
        Feed {
            buffer: Buffer::new(),
            from: 0,
            number: 1,
            offset: 0,
            place: Place { line: 1, column: 1 },
            fault: None,
        }
    }

    /// How many bytes it has taken.
    pub fn taken(&self) -> u64
        ensures { result ≡ taken self.now }
    {
        (self.offset + self.buffer.pending().len()) as u64
    }

    /// The fault that a call has returned.
    pub fn fault(&self) -> Option<FeedFault>
        ensures value { result ≡ self.now.fault }
        ensures long { (result ≡ Some FeedFault.TooLong) ↔ (longest_input < taken self.now) }
    {
        self.fault
    }

    /// The place of the first pending byte. It is the place after the last byte of the source once `line` has returned
    /// that there is no line, or `drain` has returned without a fault.
    pub fn end(&self) -> Place
        ensures { result ≡ self.now.place }
    {
        self.place
    }

    // Passes over a front of the pending bytes.
    fn pass(&mut self, count: usize, ended: bool)
        requires { with_end (count, ended) ≤ length self.old.pending }
        ensures { self.new ≡ moved_on self.old (count, ended) }
    {
        self.from = self.offset;
        self.number = self.place.line;
        if ended {
            self.buffer.pass(count, 1);
            self.offset += count + 1;
            self.place = Place {
                line: self.place.line + 1,
                column: 1,
            };
        } else {
            self.buffer.pass(count, 0);
            self.offset += count;
            self.place = Place {
                line: self.place.line,
                column: self.place.column + count as u64,
            };
        }
    }

    // Passes over all pending bytes, and the lines in them.
    fn pass_all(&mut self)
        ensures passes { PassesOver self.old self.new self.old.pending }
        ensures pending { self.new.pending ≡ [] }
        ensures counts { taken self.new ≡ taken self.old }
        ensures fault { self.new.fault ≡ self.old.fault }
    {
        let pending = self.buffer.pending();
        let (count, place) = (pending.len(), place_behind(self.place, pending));
        self.pass(count, false);
        self.place = place;
    }

    // Takes more bytes, and says whether there were any.
    #[inline(never)] // one call a buffer, and each line is read around it
    fn fill<S: Source>(&mut self, source: &mut S) -> Result<bool, FeedFault>
        requires fault { self.old.fault ≡ None }
        requires room { length self.old.pending ≤ longest_line }
        ensures bytes { TakesMore (drawn S.left S.given source.old source.new) (λ more. Fills self.old self.new more (S.left source.new) result) }
        ensures long { IsLong self.new }
        ensures failed { IsErrOf result FeedFault.ReadFault → Rose (S.faults source.old) (S.faults source.new) × (self.new.pending ≡ self.old.pending) }
        ensures stands { (IsErrOf result FeedFault.ReadFault → ⊥) → S.faults source.new ≡ S.faults source.old }
    {
        match self.buffer.take_from(source) {
            Ok(count) => {
                if self.offset + self.buffer.pending().len() > LONGEST_INPUT {
                    self.fault = Some(FeedFault::TooLong);
                    return Err(FeedFault::TooLong);
                }
                Ok(count > 0)
            }
            Err(_) => {
                self.fault = Some(FeedFault::ReadFault);
                Err(FeedFault::ReadFault)
            }
        }
    }

    /// Moves on to the next line where the pending bytes tell its end, and says whether they do. The
    /// source isn't asked.
    pub fn advance_pending(&mut self) -> bool
        ensures moves { MovesPending self.old self.new result }
        ensures long { IsLong self.new }
    {
        if self.fault.is_some() {
            return false;
        }
        match known_front(self.buffer.pending()) {
            Some((count, ended)) => {
                self.pass(count, ended);
                true
            }
            None => false,
        }
    }

    /// Moves on to the next line, and says whether there is one. After a fault each call returns that
    /// fault, and the source isn't asked.
    #[inline(always)]
    pub fn advance<S: Source>(&mut self, source: &mut S) -> Result<bool, FeedFault>
        ensures bytes { TakesMore (drawn S.left S.given source.old source.new) (λ more. Advances self.old self.new more (S.left source.new) result) }
        ensures long { IsLong self.new }
        ensures stays { (fault : FeedFault) → self.old.fault ≡ Some fault → (result ≡ Err fault) × (self.new ≡ self.old) × (source.new ≡ source.old) }
        ensures unasked { (front : ℕ × Bool) → known_front self.old.pending ≡ Some front → source.new ≡ source.old }
        ensures failed { IsErrOf result FeedFault.ReadFault → self.old.fault ≡ None → Rose (S.faults source.old) (S.faults source.new) }
        ensures stands { (IsErrOf result FeedFault.ReadFault → ⊥) → S.faults source.new ≡ S.faults source.old }
    {
        if let Some(fault) = self.fault {
            return Err(fault);
        }
        'pieces: loop {
            if let Some((count, ended)) = known_front(self.buffer.pending()) {
                self.pass(count, ended);
                return Ok(true);
            }
            if !self.fill(source)? {
                let count = self.buffer.pending().len();
                self.pass(count, false);
                return Ok(count > 0);
            }
        }
    }

    /// The next line, which lies in the buffer. A line of more than 4,096 bytes is lent in its first
    /// 4,097, and the next call goes on behind them under the same number. After a fault each call
    /// returns that fault, and the source isn't asked.
    #[inline(always)]
    pub fn line<S: Source>(&mut self, source: &mut S) -> Result<Option<Line<'_>>, FeedFault>
        ensures* after_borrow { sem 𝓛 (Rests the_row self.entry (λ new. Lines self.old new (drawn S.left S.given source.old source.new) result)) }
        ensures stays { (fault : FeedFault) → self.old.fault ≡ Some fault → (result ≡ Err fault) × (source.new ≡ source.old) }
        ensures unasked { (front : ℕ × Bool) → known_front self.old.pending ≡ Some front → source.new ≡ source.old }
        ensures failed { IsErrOf result FeedFault.ReadFault → self.old.fault ≡ None → Rose (S.faults source.old) (S.faults source.new) }
        ensures stands { (IsErrOf result FeedFault.ReadFault → ⊥) → S.faults source.new ≡ S.faults source.old }
    {
        if self.advance(source)? {
            Ok(Some(self.current()))
        } else {
            Ok(None)
        }
    }

    /// Drops the pending bytes and all that the source has left. If that succeeds, `end` returns the place after them.
    pub fn drain<S: Source>(&mut self, source: &mut S) -> Result<(), FeedFault>
        ensures bytes { TakesMore (drawn S.left S.given source.old source.new) (Drops self.old self.new) }
        ensures end { IfOk result (λ _. IsAtEnd (S.left source.new) × (self.new.pending ≡ []) × (self.new.fault ≡ None)) }
        ensures fault { IfErr result (λ fault. self.new.fault ≡ Some fault) }
        ensures long { IsLong self.new }
        ensures stays { (fault : FeedFault) → self.old.fault ≡ Some fault → (result ≡ Err fault) × (self.new ≡ self.old) × (source.new ≡ source.old) }
        ensures failed { IsErrOf result FeedFault.ReadFault → self.old.fault ≡ None → Rose (S.faults source.old) (S.faults source.new) }
        ensures stands { (IsErrOf result FeedFault.ReadFault → ⊥) → S.faults source.new ≡ S.faults source.old }
    {
        if let Some(fault) = self.fault {
            return Err(fault);
        }
        'pieces: loop {
            self.pass_all();
            if !self.fill(source)? {
                return Ok(());
            }
        }
    }

    /// Whether the input ends with the line that was moved on to: no LF ends it, and it isn't too
    /// long.
    pub fn is_last(&self) -> bool
        ensures { result ≡ is_last self.now }
    {
        let line = self.current();
        line.bytes.len() <= LONGEST && line.next == line.offset + line.bytes.len()
    }

    /// The line that was moved on to last, which lies in the buffer.
    pub fn current(&self) -> Line<'_>
        ensures bytes { result.bytes.now ≡ self.now.line.bytes }
        ensures offset { result.offset ≡ self.now.line.offset }
        ensures number { result.number ≡ self.now.line.number }
        ensures next { result.next ≡ self.now.offset }
    {
        Line {
            bytes: self.buffer.lent(),
            offset: self.from,
            number: self.number,
            next: self.offset,
        }
    }
}
