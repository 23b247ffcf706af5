ghost use Rattle.std.specs.Prelude.{◌≡◌, ◌≤◌, ◌<◌, ◌+◌, ◌↔◌, ◌++◌, ◌∷◌, ℕ, List, [], length, Some, IfOk, IsErrOf};
ghost use Rattle.mt_dump.specs.Line.{is_word};
ghost use Rattle.mt_ports.specs.Causes.{Rose};
ghost use Rattle.mt_rows.specs.Scan.{scanned};
ghost use Rattle.mt_text.specs.Feed.{GaveTooMuch};
ghost use Rattle.mt_text.specs.Text.{longest_input};
ghost use Rattle.mt_text.specs.declared.fault.FeedFault.{FeedFault};
ghost use Rattle.mt_memory.specs.MapText.{added, by_fields, by_words, fault_at, follows, kind_name, kind_of, line_range, map_of, map_text, range_line, range_row, reads_nothing, taken};
ghost use Rattle.mt_memory.specs.Steps.{Becomes};

use crate::map_fault::{MapTextFault, MapTextReason};
use crate::{MOST_RANGES, MemoryKind, MemoryRange, Ranges};
use arrayvec::ArrayVec;
use mt_dump::value_text;
use mt_ports::Source;
use mt_rows::{Fields, HEX, Part, scanned};
use mt_text::{FeedFault, Line, LineReader, Place, Words, read_lines, read_slice};

/// The first word of a line: `0000000000000000-000000000009fbff`.
pub const RANGE: [Part<'static>; 2] = [(b"", HEX), (b"-", HEX)];

/// Room for the longest line: two numbers of sixteen digits, three bytes and eight letters.
type LineText = ArrayVec<u8, 48>;

/// Room for the text of any map.
pub type MapBuffer = ArrayVec<u8, 24_576>;

fn is_word(name: &[u8], word: &[u8]) -> bool
    ensures { result ≡ is_word name.now word.now }
{
    word == name
}

/// The name of a kind in a map's text.
pub fn kind_name(kind: MemoryKind) -> &'static [u8]
    ensures name { result.now ≡ kind_name kind }
    ensures few { length result.now ≤ 8 }
{
    match kind {
        MemoryKind::Ram => b"ram",
        MemoryKind::Reserved => b"reserved",
        MemoryKind::Device => b"device",
        MemoryKind::Acpi => b"acpi",
        MemoryKind::Nvs => b"nvs",
        MemoryKind::Unusable => b"unusable",
    }
}

/// The kind of this name.
pub fn kind_of(word: &[u8]) -> Option<MemoryKind>
    ensures { result ≡ kind_of word.now }
{
    if is_word(b"ram", word) {
        Some(MemoryKind::Ram)
    } else if is_word(b"reserved", word) {
        Some(MemoryKind::Reserved)
    } else if is_word(b"device", word) {
        Some(MemoryKind::Device)
    } else if is_word(b"acpi", word) {
        Some(MemoryKind::Acpi)
    } else if is_word(b"nvs", word) {
        Some(MemoryKind::Nvs)
    } else if is_word(b"unusable", word) {
        Some(MemoryKind::Unusable)
    } else {
        None
    }
}

// ---- writing

fn put(text: &mut LineText, bytes: &[u8])
    requires { length text.old.items + length bytes.now ≤ 48 }
    ensures { text.new.items ≡ text.old.items ++ bytes.now }
{
    match text.try_extend_from_slice(bytes) {
        Ok(()) => {}
        Err(_) => unreachable!(),
    }
}

// A range's line with its LF.
fn range_line(range: &MemoryRange) -> LineText
    ensures line { result.items ≡ range_line range.now ++ 10 ∷ [] }
    ensures few { length result.items ≤ 48 }
{
    let mut text = ArrayVec::new();
    put(&mut text, &value_text(range.first));
    text.push(b'-');
    put(&mut text, &value_text(range.last));
    text.push(b' ');
    put(&mut text, kind_name(range.kind));
    text.push(b'\n');
    text
}

fn add_line(text: &mut MapBuffer, range: &MemoryRange)
    requires { length text.old.items + 48 ≤ 24576 }
    ensures text { text.new.items ≡ text.old.items ++ (range_line range.now ++ 10 ∷ []) }
    ensures few { length text.new.items ≤ length text.old.items + 48 }
{
    match text.try_extend_from_slice(range_line(range).as_slice()) {
        Ok(()) => {}
        Err(_) => unreachable!(),
    }
}

/// The text of ranges: a line for each, with the first and the last byte in sixteen hexadecimal digits, and the kind.
pub fn map_text(ranges: &[MemoryRange]) -> MapBuffer
    requires { length ranges.now ≤ 512 }
    ensures { result.items ≡ map_text ranges.now }
{
    let mut text = ArrayVec::new();
    'lines: for range in ranges {
        add_line(&mut text, range);
    }
    text
}

// ---- reading

fn fault_at(reason: MapTextReason, place: Place) -> MapTextFault
    ensures { result ≡ fault_at reason place }
{
    MapTextFault { reason, place }
}

// The numbers of a word of two, if it is one.
fn range_numbers(word: &[u8]) -> Option<Fields>
    ensures { result ≡ scanned range_row word.now }
{
    scanned(&RANGE, word)
}

// The range of a line with these numbers in its first word.
fn by_fields(words: &Words<'_>, fields: Option<Fields>) -> Result<MemoryRange, MapTextFault>
    ensures { result ≡ by_fields words.now.number words.now.words fields }
{
    let Some(fields) = fields else {
        return Err(fault_at(MapTextReason::BadRange, words.place(0)));
    };
    let (first, last) = (fields.second_last.value, fields.last.value);
    if last < first {
        return Err(fault_at(MapTextReason::Backward, words.place(0)));
    }
    if words.count() == 1 {
        return Err(fault_at(MapTextReason::NoKind, words.place(0)));
    }
    let Some(kind) = kind_of(words.text(1)) else {
        return Err(fault_at(MapTextReason::BadKind, words.place(1)));
    };
    if words.count() > 2 {
        return Err(fault_at(MapTextReason::ExtraWord, words.place(2)));
    }
    Ok(MemoryRange { first, last, kind })
}

// The range of a line that has words.
fn line_range(words: &Words<'_>) -> Result<MemoryRange, MapTextFault>
    ensures { result ≡ line_range words.now.number words.now.words }
{
    by_fields(words, range_numbers(words.text(0)))
}

/// A reader of a map's text.
#[derive(Drop)]
struct MapReader {
    ranges: Ranges,
    // the last byte of the last range
    last: Option<u64>,
}

// Whether a byte lies above all ranges up to one that ends there.
fn follows(last: Option<u64>, first: u64) -> bool
    ensures { result ≡ follows last first }
{
    match last {
        Some(last) => last < first,
        None => true,
    }
}

impl MapReader {
    fn new() -> MapReader
        ensures { result ≡ reads_nothing }
    {
        MapReader {
            ranges: ArrayVec::new(),
            last: None,
        }
    }

    // Takes the range of a line, whose first word is here.
    fn add(&mut self, range: MemoryRange, place: Place) -> Result<(), MapTextFault>
        ensures { Becomes (added self.old range place) self.new result }
    {
        if !follows(self.last, range.first) {
            return Err(fault_at(MapTextReason::NotAscending, place));
        }
        if self.ranges.len() == MOST_RANGES {
            return Err(fault_at(MapTextReason::TooManyRanges, place));
        }
        self.ranges.push(range);
        self.last = Some(range.last);
        Ok(())
    }

    fn take_words(&mut self, words: &Words<'_>) -> Result<(), MapTextFault>
        ensures { Becomes (by_words self.old words.now.number words.now.words) self.new result }
    {
        if words.count() == 0 {
            return Ok(());
        }
        match line_range(words) {
            Ok(range) => self.add(range, words.place(0)),
            Err(fault) => Err(fault),
        }
    }

    fn take(&mut self, line: &Line<'_>) -> Result<(), MapTextFault>
        ensures { Becomes (taken self.old line.now.number line.now.bytes.now) self.new result }
    {
        if line.too_long() {
            return Err(fault_at(MapTextReason::LongLine, line.past_limit()));
        }
        self.take_words(&line.first_words())
    }
}

impl LineReader for MapReader {
    type Answer = Ranges;

    type Fault = MapTextFault;

    ghost use Rattle.std.specs.Prelude.{⊤};
    ghost use Rattle.mt_memory.specs.MapText.{finished, taken};
    ghost use Rattle.mt_memory.specs.Steps.{Leads};

    ghost at = { Leads taken finished };

    ghost fits = { λ _. ⊤ };

    fn take_line(&mut self, line: &Line<'_>) -> Result<(), MapTextFault> {
        self.take(line)
    }

    fn finish_at(self, _end: Place) -> Result<Ranges, MapTextFault> {
        Ok(self.ranges)
    }
}

/// The ranges of a map's text, or its first fault.
pub fn read_map(text: &[u8]) -> Result<Ranges, MapTextFault>
    ensures { result ≡ map_of text.now }
{
    read_slice(MapReader::new(), text)
}

/// The ranges of the map's text that a source gives, or its first fault. Behind a fault the rest is read too, since a failed read
/// and too many bytes take precedence over it.
pub fn read_map_from<S: Source>(source: &mut S) -> Result<Result<Ranges, MapTextFault>, FeedFault>
    ensures answer { (bytes : List ℕ) → S.left source.old ≡ Some bytes → IfOk result (λ answer. answer ≡ map_of bytes) }
    ensures end { (bytes : List ℕ) → S.left source.old ≡ Some bytes → IfOk result (λ _. S.left source.new ≡ Some []) }
    ensures too_long { IsErrOf result FeedFault.TooLong ↔ GaveTooMuch (S.given source.old) (S.given source.new) }
    ensures long { (bytes : List ℕ) → S.left source.old ≡ Some bytes → IsErrOf result FeedFault.TooLong → longest_input < length bytes }
    ensures failed { IsErrOf result FeedFault.ReadFault → Rose (S.faults source.old) (S.faults source.new) }
    ensures stands { (IsErrOf result FeedFault.ReadFault → ⊥) → S.faults source.new ≡ S.faults source.old }
{
    read_lines(MapReader::new(), source)
}
