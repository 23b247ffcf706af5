ghost use Rattle.std.specs.Prelude.{◌≡◌, ◌<◌, ◌↔◌, ◌-◌, ℕ, List, [], length, Some, IfOk, IsErrOf};
ghost use Rattle.mt_ports.specs.Causes.{Rose, one_more};
ghost use Rattle.mt_text.specs.Feed.{GaveTooMuch};
ghost use Rattle.mt_text.specs.Text.{longest_input};
ghost use Rattle.mt_text.specs.declared.fault.FeedFault.{FeedFault};
ghost use Rattle.mt_memory.specs.Showing.{chosen};
ghost use Rattle.mt_memory.specs.Steps.{Becomes};
ghost use Rattle.mt_memory.specs.Log.{begun_behind, begun_with, finished, headed, is_last, is_sole, log_map, none_begun, number_of, opened, starts, taken, taken_shown};

use crate::format::{Format, MapFault, MapsBegun, MemoryMap, Shown, WhichMap};
use crate::settled::Settled;
use crate::showing::{begins_map, breaks_off, chosen, low_behind, shown_in};
use mt_ports::Source;
use mt_text::{FeedFault, Line, LineReader, Place, read_lines};
use std::marker::Model;

/// Gathers the ranges that the lines of a log show.
#[derive(Drop)]
pub struct LogReader {
    which: WhichMap,
    // the format, if it is known
    format: Option<Format>,
    begun: MapsBegun,
    // no range was shown since the last map ended
    between: bool,
    // the first byte of the last range
    low: u64,
    // how many maps end up to the end of the wanted one, unless that is the last
    ahead: u64,
    wanted: Settled,
}

impl Model for LogReader {
    ghost use Rattle.mt_memory.specs.Log.{State};

    ghost Value = { State };

    ghost view = { λ r. record { which = r.which; format = r.format; begun = r.begun; between = r.between; low = r.low; ahead = r.ahead; wanted = r.wanted } };
}

impl WhichMap {
    fn is_sole(self) -> bool
        ensures { result ≡ is_sole self }
    {
        matches!(self, WhichMap::Sole)
    }

    fn is_last(self) -> bool
        ensures { result ≡ is_last self }
    {
        matches!(self, WhichMap::Last)
    }

    // How many maps begin up to it.
    fn number(self) -> u64
        ensures { result ≡ number_of self }
    {
        match self {
            WhichMap::Sole => 1,
            WhichMap::Last => 0,
            WhichMap::Number(number) => number,
        }
    }
}

impl MapsBegun {
    fn none() -> MapsBegun
        ensures { result ≡ none_begun }
    {
        MapsBegun {
            count: 0,
            first: 0,
            last: 0,
            broken: 0,
        }
    }

    // Those behind one more that begins in a line.
    fn with(self, line: u64) -> MapsBegun
        ensures { result ≡ begun_with self line }
    {
        MapsBegun {
            count: one_more(self.count),
            first: if self.count == 0 { line } else { self.first },
            last: line,
            broken: self.broken,
        }
    }

    // Those behind a line of a format.
    fn behind(self, format: Format, line: &Line<'_>) -> MapsBegun
        ensures { result ≡ begun_behind self format line.now.number line.now.bytes.now }
    {
        if self.broken == 0 && breaks_off(format, line) {
            MapsBegun {
                broken: line.number,
                ..self
            }
        } else {
            self
        }
    }
}

fn one_more(count: u64) -> u64
    ensures { result ≡ one_more count }
{
    if count < u64::MAX { count + 1 } else { count }
}

fn one_less(count: u64) -> u64
    ensures { result ≡ count - 1 }
{
    if count > 0 { count - 1 } else { 0 }
}

impl LogReader {
    /// A reader that has read nothing. Without a format, the first line that tells one does.
    pub fn new(format: Option<Format>, which: WhichMap) -> LogReader
        ensures { result ≡ starts format which }
    {
        LogReader {
            which,
            format,
            begun: MapsBegun::none(),
            between: true,
            low: 0,
            ahead: which.number(),
            wanted: Settled::new(),
        }
    }

    // Begins a map at a line. The last map takes the place of those before it.
    fn open(&mut self, line: u64)
        ensures { self.new ≡ opened self.old line }
    {
        if self.begun.count > 0 {
            self.ahead = one_less(self.ahead);
        }
        self.begun = self.begun.with(line);
        self.between = false;
        if self.which.is_last() {
            self.wanted = Settled::new();
        }
    }

    // Takes what a line shows, if that isn't nothing.
    fn take_shown(&mut self, shown: &Shown, line: u64)
        ensures { self.new ≡ taken_shown self.old shown.now line }
    {
        if matches!(shown, Shown::Nothing) {
            return;
        }
        if self.between {
            self.open(line);
        }
        if self.which.is_last() || self.ahead == 1 {
            self.wanted.take(shown);
        }
    }

    // Takes the format of a line, whether a map begins there, and whether it breaks off.
    fn head(&mut self, format: Format, line: &Line<'_>, shown: &Shown)
        ensures { self.new ≡ headed self.old format line.now.number line.now.bytes.now shown.now }
    {
        self.format = Some(format);
        self.between = begins_map(format, self.low, line, shown) || self.between;
        self.low = low_behind(self.low, shown);
        self.begun = self.begun.behind(format, line);
    }

    fn format_of(&self, line: &Line<'_>) -> Option<Format>
        ensures { result ≡ chosen self.now.format line.now.number line.now.bytes.now }
    {
        chosen(self.format, line)
    }

    /// Takes one line.
    pub fn take(&mut self, line: &Line<'_>) -> Result<(), MapFault>
        ensures { Becomes (taken self.old line.now.number line.now.bytes.now) self.new result }
    {
        if line.too_long() {
            return Err(MapFault::LongLine(line.past_limit()));
        }
        if let Some(format) = self.format_of(line) {
            let shown = shown_in(format, line);
            self.head(format, line, &shown);
            self.take_shown(&shown, line.number);
        }
        Ok(())
    }

    /// The map that the lines show.
    pub fn finish(&self) -> Result<MemoryMap, MapFault>
        ensures { result ≡ finished self.now }
    {
        if let Some(fault) = self.wanted.fault() {
            return Err(fault);
        }
        if self.which.is_sole() && self.begun.count > 1 {
            return Err(MapFault::SeveralMaps(self.begun));
        }
        match self.format {
            Some(format) if !self.wanted.is_empty() => Ok(MemoryMap {
                format,
                ranges: self.wanted.ranges(),
                overlap: self.wanted.overlap(),
                broken: self.begun.broken,
            }),
            _ => Err(MapFault::NoMap(self.begun)),
        }
    }
}

impl LineReader for LogReader {
    type Answer = MemoryMap;

    type Fault = MapFault;

    ghost use Rattle.std.specs.Prelude.{⊤};
    ghost use Rattle.mt_memory.specs.Log.{ended, taken};
    ghost use Rattle.mt_memory.specs.Steps.{Leads};

    ghost at = { Leads taken ended };

    ghost fits = { λ _. ⊤ };

    fn take_line(&mut self, line: &Line<'_>) -> Result<(), MapFault> {
        self.take(line)
    }

    fn finish_at(self, _end: Place) -> Result<MemoryMap, MapFault> {
        self.finish()
    }
}

/// The map that a log shows, or its first fault, line by line out of one buffer. Without a format, it is that of the first line
/// that tells one. Behind a fault the rest is read too, since a failed read and too many bytes take precedence over it.
pub fn read_log<S: Source>(
    format: Option<Format>,
    which: WhichMap,
    source: &mut S,
) -> Result<Result<MemoryMap, MapFault>, FeedFault>
    ensures answer { (bytes : List ℕ) → S.left source.old ≡ Some bytes → IfOk result (λ answer. answer ≡ log_map format which bytes) }
    ensures end { (bytes : List ℕ) → S.left source.old ≡ Some bytes → IfOk result (λ _. S.left source.new ≡ Some []) }
    ensures too_long { IsErrOf result FeedFault.TooLong ↔ GaveTooMuch (S.given source.old) (S.given source.new) }
    ensures long { (bytes : List ℕ) → S.left source.old ≡ Some bytes → IsErrOf result FeedFault.TooLong → longest_input < length bytes }
    ensures failed { IsErrOf result FeedFault.ReadFault → Rose (S.faults source.old) (S.faults source.new) }
    ensures stands { (IsErrOf result FeedFault.ReadFault → ⊥) → S.faults source.new ≡ S.faults source.old }
{
    read_lines(LogReader::new(format, which), source)
}
