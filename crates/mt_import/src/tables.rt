ghost use Rattle.std.specs.Prelude.{◌≡◌};
ghost use Rattle.mt_import.specs.Tables.{bare_place, each_said, halves_value, listed, place_of, processor_in, rows_at, said_in, says_of, turned_from, width_in};

use crate::pieces::{UNREAD_PROCESSOR, count_on, register_in, shows_one};
use crate::reading::is_register;
use crate::{LineSays, Reason, Shown, Turn};
use mt_rows::{Field, Fields, MARKS, Part, scanned};
use mt_text::{Line, Place};

const HALF: u64 = 0x1_0000_0000;

// A processor's number is below this.
const PROCESSORS: u64 = 0x1_0000;

/// What the lines of a row say of their numbers.
#[derive(Clone, Copy)]
pub enum Says {
    /// A register by its number and its value, each behind `0x`.
    Register,
    /// A register by its number and the halves of its value, the upper first, each behind `0x`.
    Halves,
    /// The lines behind it are of a processor, counted from this number.
    Turn(u64),
    /// The lines behind it are of processor 0.
    TurnToFirst,
    /// The lines behind it are of a processor whose number can't be read.
    TurnToUnread,
    /// The same, and only this format has such a line.
    UnreadPrompt,
    /// A register by its number and its value.
    Bare,
    /// A register by its number and the halves of its value, the upper first.
    BareHalves,
    /// A processor, a register by its number, and its value.
    OfProcessor,
    /// A value behind `0x`, its register's number, and a processor.
    ValueFirst,
    /// A line of a list: a register by its number and its value.
    Lists,
    /// The same behind a processor.
    ListsProcessor,
    /// The same behind a processor whose number can't be read.
    ListsUnread,
    /// The address width, in bits.
    Width,
    /// It isn't read, since its last number can't be.
    Bad(Reason),
}

/// A kind of line: what it has, and what it says.
pub type Row<'a> = (&'a [Part<'a>], Says);

// The place of a number behind `0x`, which is that of the 0.
fn place_of(line: u64, field: Field) -> Place
    ensures { result ≡ place_of line field }
{
    Place {
        line,
        column: (field.column as u64).saturating_sub(1),
    }
}

// The place of a number.
fn bare_place(line: u64, field: Field) -> Place
    ensures { result ≡ bare_place line field }
{
    Place {
        line,
        column: count_on(field.column as u64),
    }
}

// A processor of this number.
fn processor_in(number: u64) -> u32
    ensures { result ≡ processor_in number }
{
    if number < PROCESSORS {
        number as u32
    } else {
        UNREAD_PROCESSOR
    }
}

// A line of a list, of this processor. Registers that no dump has are passed over.
fn listed(line: u64, processor: Option<u32>, fields: Fields) -> LineSays
    ensures { result ≡ listed line processor fields }
{
    let Some(number) = register_in(Ok(fields.second_last.value)) else {
        return LineSays::Nothing;
    };
    if !is_register(number as u64) {
        return LineSays::Nothing;
    }
    let shown = Shown {
        number,
        bits: u64::MAX,
        value: fields.last.value,
        place: bare_place(line, fields.last),
    };
    LineSays::Lists(processor, shown)
}

fn width_in(line: u64, field: Field) -> LineSays
    ensures { result ≡ width_in line field }
{
    if field.value < 256 {
        LineSays::Width(field.value, bare_place(line, field))
    } else {
        LineSays::Nothing
    }
}

fn halves_value(high: u64, low: u64) -> Option<u64>
    ensures { result ≡ halves_value high low }
{
    if high < HALF && low < HALF {
        Some(high * HALF + low)
    } else {
        None
    }
}

fn turned_from(first: u64, number: u64) -> Turn
    ensures { result ≡ turned_from first number }
{
    if first <= number && number - first < PROCESSORS {
        Turn::To((number - first) as u32)
    } else {
        Turn::Unread
    }
}

fn says_of(says: Says, line: u64, fields: Fields) -> LineSays
    ensures { result ≡ says_of says line fields }
{
    match says {
        Says::Register => shows_one(
            None,
            register_in(Ok(fields.second_last.value)),
            Some(fields.last.value),
            place_of(line, fields.last),
        ),
        Says::Halves => shows_one(
            None,
            register_in(Ok(fields.third_last.value)),
            halves_value(fields.second_last.value, fields.last.value),
            place_of(line, fields.second_last),
        ),
        Says::Turn(first) => LineSays::Turns(turned_from(first, fields.last.value)),
        Says::TurnToFirst => LineSays::Turns(Turn::To(0)),
        Says::TurnToUnread => LineSays::Turns(Turn::Unread),
        Says::UnreadPrompt => LineSays::Turns(Turn::UnreadCall),
        Says::Bare => shows_one(
            None,
            register_in(Ok(fields.second_last.value)),
            Some(fields.last.value),
            bare_place(line, fields.last),
        ),
        Says::BareHalves => shows_one(
            None,
            register_in(Ok(fields.third_last.value)),
            halves_value(fields.second_last.value, fields.last.value),
            bare_place(line, fields.second_last),
        ),
        Says::OfProcessor => shows_one(
            Some(processor_in(fields.third_last.value)),
            register_in(Ok(fields.second_last.value)),
            Some(fields.last.value),
            bare_place(line, fields.last),
        ),
        Says::ValueFirst => shows_one(
            Some(processor_in(fields.last.value)),
            register_in(Ok(fields.second_last.value)),
            Some(fields.third_last.value),
            place_of(line, fields.third_last),
        ),
        Says::Lists => listed(line, None, fields),
        Says::ListsProcessor => {
            listed(line, Some(processor_in(fields.third_last.value)), fields)
        }
        Says::ListsUnread => listed(line, Some(UNREAD_PROCESSOR), fields),
        Says::Width => width_in(line, fields.last),
        Says::Bad(why) => LineSays::Bad(why, bare_place(line, fields.last)),
    }
}

/// What a line says, by the first row that reads it.
pub(crate) fn said_in(rows: &[Row<'_>], line: &Line<'_>) -> LineSays
    ensures { result ≡ said_in (rows_at rows.now) line.now.number line.now.bytes.now }
{
    'rows: for row in rows {
        if let Some(fields) = scanned(row.0, line.bytes) {
            return says_of(row.1, line.number, fields);
        }
    }
    LineSays::Nothing
}

/// The lines that each format has: those of UTF-16.
#[rattlefmt::skip]
pub const EACH: [Row<'static>; 2] = [
    (&[(b"\xff\xfe", MARKS)], Says::Bad(Reason::Utf16)),
    (&[(b"\xfe\xff", MARKS)], Says::Bad(Reason::Utf16)),
];

/// What a line says in each format, by the table of all.
pub(crate) fn each_said(line: &Line<'_>) -> LineSays
    ensures { result ≡ each_said line.now.number line.now.bytes.now }
{
    said_in(&EACH, line)
}
