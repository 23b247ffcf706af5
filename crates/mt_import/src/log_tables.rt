ghost use Rattle.std.specs.Prelude.{◌≡◌, ◌≤◌, ◌<◌, ◌+◌, ◌++◌, codes, length};
ghost use Rattle.arrayvec.specs.ArrayVec.{array_vec_len};
ghost use Rattle.mt_import.specs.declared.shape.Pick.{Pick};
ghost use Rattle.mt_import.specs.declared.shape.Tables.{Tables as Begun};
ghost use Rattle.mt_import.specs.LogTables.{are_some_bits, begins_table, between, has_picked, is_between_lines, is_in_table, is_part, is_read, is_region, missing_table, no_tables, pick_text, shown_at, shows_default, shows_part, table_hint, tables_text, tables_with, told_by, way_behind};

use crate::format::{said_in, unmarked};
use crate::line_words::{LineWords, head_end};
use crate::pieces::count_on;
use crate::shape::{Failure, Pick, Shown, Tables, Told, Way};
use crate::{Format, ImportFault, LineSays, Rival, Shows};
use arrayvec::ArrayVec;
use mt_output::{LineBuffer, append, append_decimal};
use mt_regs::{CAPABILITIES, DEFAULT_TYPE, PAT};
use mt_text::Line;

const ALL_BITS: u64 = u64::MAX;

fn shown_at(shows: &Shows, i: usize) -> Option<Shown>
    requires { i < 11 }
    ensures { result ≡ shown_at shows.now i }
{
    shows[i]
}

// Whether a line shows the default type first, as the heading of EDK2's table does.
fn shows_default(shown: Option<Shown>) -> bool
    ensures { result ≡ shows_default shown }
{
    match shown {
        Some(shown) => shown.number == DEFAULT_TYPE,
        None => false,
    }
}

/// Whether a table begins at a line.
pub(crate) fn begins_table(told: &Told) -> bool
    ensures { result ≡ begins_table told.now }
{
    match &told.said {
        LineSays::Begins(_) => true,
        LineSays::Shows(_, shows) => {
            matches!(told.format, Some(Format::Edk2)) && shows_default(shown_at(shows, 0))
        }
        _ => false,
    }
}

// Whether a line of Linux is one of `/proc/mtrr` or of the cleanup.
fn is_region(line: &Line<'_>) -> bool
    ensures { result ≡ is_region line.now.bytes.now }
{
    let words = LineWords::behind(head_end(line), line);
    words.text(0).strip_prefix(b"reg").is_some()
}

// Whether a kernel's table may show this register first.
fn is_in_table(shown: Option<Shown>) -> bool
    ensures { result ≡ is_in_table shown }
{
    match shown {
        Some(shown) => shown.number != PAT && shown.number != CAPABILITIES,
        None => true,
    }
}

// Whether these are bits of a register, and not all of them.
fn are_some_bits(shown: Option<Shown>) -> bool
    ensures { result ≡ are_some_bits shown }
{
    match shown {
        Some(shown) => shown.bits != ALL_BITS,
        None => false,
    }
}

// Whether a line that shows these registers is of a table.
fn shows_part(format: Option<Format>, line: &Line<'_>, shows: &Shows) -> bool
    ensures { result ≡ shows_part format line.now.bytes.now shows.now }
{
    let first = shown_at(shows, 0);
    match format {
        Some(Format::Edk2 | Format::Xen) => true,
        Some(Format::Linux) => !is_region(line) && is_in_table(first),
        Some(Format::Coreboot) => shown_at(shows, 1).is_some() || are_some_bits(first),
        _ => false,
    }
}

// Whether a line is of a table.
fn is_part(format: Option<Format>, line: &Line<'_>, said: &LineSays) -> bool
    ensures { result ≡ is_part format line.now.bytes.now said.now }
{
    match said {
        LineSays::Begins(_) | LineSays::FixedRanges(..) | LineSays::VariableRanges(..) => true,
        LineSays::Shows(_, shows) => shows_part(format, line, shows),
        _ => false,
    }
}

/// What a line says in this format.
pub(crate) fn told_by(format: Option<Format>, line: &Line<'_>) -> Told
    ensures { result ≡ told_by format line.now.number line.now.bytes.now }
{
    let said = said_in(format, line);
    Told {
        number: line.number,
        format,
        said,
        is_part: is_part(format, &unmarked(line), &said),
    }
}

impl Tables {
    pub(crate) fn none() -> Tables
        ensures { result ≡ no_tables }
    {
        Tables {
            count: 0,
            first: 0,
            last: 0,
        }
    }

    // Those behind a line of this number that is the heading of one more.
    fn with(&self, number: u64) -> Tables
        ensures { result ≡ tables_with self.now number }
    {
        Tables {
            count: count_on(self.count),
            first: if self.count == 0 { number } else { self.first },
            last: number,
        }
    }

    /// Whether there is the table that is asked for.
    pub(crate) fn have(&self, pick: Pick) -> bool
        ensures { result ≡ has_picked pick self.now }
    {
        match pick {
            Pick::Each => true,
            Pick::Number(number) => number <= self.count,
            Pick::Last => 0 < self.count,
        }
    }
}

impl Way {
    /// What is known behind one more line.
    pub(crate) fn behind(&self, told: &Told) -> Way
        ensures { result ≡ way_behind self.now told.now }
    {
        let tables = if begins_table(told) {
            self.tables.with(told.number)
        } else {
            self.tables
        };
        Way {
            format: told.format,
            tables,
        }
    }
}

impl Pick {
    /// Whether the table that has begun last is read, where of the last one every table is until the next begins.
    pub(crate) fn reads(self, tables: &Tables) -> bool
        ensures { (whole : Begun) → (self ≡ Pick.Last → tables.now.last ≡ whole.last) → result ≡ is_read self whole tables.now }
    {
        match self {
            Pick::Number(number) => tables.count == number,
            Pick::Each | Pick::Last => true,
        }
    }
}

// `2 tables, at lines 1 and 18`
fn append_tables(line: &mut LineBuffer, tables: &Tables)
    requires { array_vec_len line.old ≤ 64 }
    ensures text { line.new.items ≡ line.old.items ++ tables_text tables.now }
    ensures short { array_vec_len line.new ≤ array_vec_len line.old + 85 }
{
    match tables.count {
        0 => append(line, b"no tables"),
        1 => {
            append(line, b"1 table, at line ");
            append_decimal(line, tables.first);
        }
        count => {
            append_decimal(line, count);
            append(line, b" tables, at lines ");
            append_decimal(line, tables.first);
            append(line, between(count));
            append_decimal(line, tables.last);
        }
    }
}

// What is between the lines of the first and the last of so many tables.
fn between(count: u64) -> &'static [u8]
    ensures text { result.now ≡ between count }
    ensures short { length result.now ≤ 6 }
{
    if count == 2 { b" and " } else { b", .., " }
}

fn append_pick(line: &mut LineBuffer, pick: Pick)
    requires { array_vec_len line.old ≤ 32 }
    ensures text { line.new.items ≡ line.old.items ++ pick_text pick }
    ensures short { array_vec_len line.new ≤ array_vec_len line.old + 20 }
{
    match pick {
        Pick::Each => append(line, b"all"),
        Pick::Number(number) => append_decimal(line, number),
        Pick::Last => append(line, b"last"),
    }
}

/// The line on a table that the log doesn't have.
pub(crate) fn missing_table(pick: Pick, tables: &Tables) -> LineBuffer
    ensures text { result.items ≡ missing_table pick tables.now }
    ensures short { array_vec_len result ≤ 0x7000 }
{
    let mut line = ArrayVec::new();
    append(&mut line, b"missing table=");
    append_pick(&mut line, pick);
    append(&mut line, b": ");
    append_tables(&mut line, tables);
    append(&mut line, b"\n");
    line
}

// Whether lines contradict each other in a register that tables show.
fn is_between_lines(fault: &ImportFault) -> bool
    ensures { result ≡ is_between_lines fault.now }
{
    match fault {
        ImportFault::Contradiction(
            _,
            number,
            Rival::Line(_) | Rival::CapabilityLine(_) | Rival::RegisterLine(_),
        ) => *number != PAT,
        _ => false,
    }
}

/// What is told of a log's tables behind a fault, if they may contradict each other.
pub(crate) fn table_hint(pick: Pick, failure: &Failure) -> LineBuffer
    ensures text { result.items ≡ table_hint pick failure.now }
    ensures short { array_vec_len result ≤ 224 }
{
    let mut line = ArrayVec::new();
    if matches!(pick, Pick::Each)
        && failure.tables.count > 1
        && is_between_lines(&failure.stop.fault)
    {
        append_tables(&mut line, &failure.tables);
        append(&mut line, b": table=last takes the last\n");
    }
    line
}
