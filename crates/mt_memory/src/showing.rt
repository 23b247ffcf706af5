ghost use Rattle.std.specs.Prelude.{◌≡◌, ◌≤◌, ◌<◌, ◌-◌, ◌^◌, length, IfSome};
ghost use Rattle.mt_rows.specs.Scan.{parts_at};
ghost use Rattle.mt_memory.specs.Finding.{form_at, forms_at, names_at, table_at};
ghost use Rattle.mt_memory.specs.Showing.{bare, begins_map, bounded, breaks_off, chosen, closed, format_told, front_at, half_open, has_front, has_title, is_shown, is_utf16, low_behind, name_text, named_range};
ghost use Rattle.mt_memory.specs.Showing.{numbers_of, place_at, range_shown, seen_by, seen_by_form, shown_in, shown_of, starts_over, table_of, told_in};

use crate::coreboot::COREBOOT;
use crate::e820::E820;
use crate::efi::EFI;
use crate::finding::{behind, first_named, has_heading, next_word, stands};
use crate::format::{Claim, Format, MapFault, Shown};
use crate::iomem::IOMEM;
use crate::table::{Ends, Form, Front, Name, Named, Seen, Table};
use crate::{MemoryKind, MemoryRange};
use mt_rows::{Fields, Part, scanned};
use mt_text::{Line, Place, without_ending};

fn place_at(line: u64, before: usize) -> Place
    requires { before < 2 ^ 64 - 1 }
    ensures { result ≡ place_at line before }
{
    Place {
        line,
        column: before as u64 + 1,
    }
}

// A range of a kind from one byte up to another.
fn range_shown(first: u64, last: u64, kind: MemoryKind, place: Place) -> Shown
    ensures { result ≡ range_shown first last kind place }
{
    Shown::Range(Claim {
        range: MemoryRange { first, last, kind },
        place,
    })
}

// What two numbers show, of which the second is that of the last byte.
fn closed(first: u64, last: u64, kind: MemoryKind, place: Place) -> Shown
    ensures { result ≡ closed first last kind place }
{
    if first <= last {
        range_shown(first, last, kind, place)
    } else if first - last == 1 {
        Shown::Nothing
    } else {
        Shown::Fault(MapFault::Backward(place))
    }
}

// What two numbers show, of which the second is that of the byte behind the last.
fn half_open(first: u64, end: u64, kind: MemoryKind, place: Place) -> Shown
    ensures { result ≡ half_open first end kind place }
{
    if first < end {
        range_shown(first, end - 1, kind, place)
    } else if first == end {
        Shown::Nothing
    } else {
        Shown::Fault(MapFault::Backward(place))
    }
}

fn bounded(ends: Ends, first: u64, second: u64, kind: MemoryKind, place: Place) -> Shown
    ensures { result ≡ bounded ends first second kind place }
{
    match ends {
        Ends::Last | Ends::LastBeforeSize | Ends::LastBeforeTwo => {
            closed(first, second, kind, place)
        }
        Ends::Behind => half_open(first, second, kind, place),
        Ends::LastOrHidden => {
            if second == 0 {
                Shown::Fault(MapFault::Hidden(place))
            } else {
                closed(first, second, kind, place)
            }
        }
    }
}

fn numbers_of(ends: Ends, fields: Fields) -> (u64, u64)
    ensures { result ≡ numbers_of ends fields }
{
    match ends {
        Ends::LastBeforeSize => (fields.third_last.value, fields.second_last.value),
        Ends::LastBeforeTwo => (fields.fourth_last.value, fields.third_last.value),
        _ => (fields.second_last.value, fields.last.value),
    }
}

// What the numbers of a range show.
fn named_range(ends: Ends, fields: Fields, kind: Option<MemoryKind>, place: Place) -> Shown
    ensures { result ≡ named_range ends fields kind place }
{
    match kind {
        Some(kind) => {
            let (first, second) = numbers_of(ends, fields);
            bounded(ends, first, second, kind, place)
        }
        None => Shown::Fault(MapFault::UnknownKind(place)),
    }
}

// How many bytes stand before the front of a form, and its numbers.
fn front_at(front: Front, parts: &[Part<'_>], line: &[u8]) -> Option<(usize, Fields)>
    ensures value { result ≡ front_at front (parts_at parts.now) line.now }
    ensures within { IfSome result (λ found. found.0 ≤ length line.now) }
{
    match front {
        Front::Word => stands(parts, line),
        Front::Start => match scanned(parts, line) {
            Some(fields) => Some((0, fields)),
            None => None,
        },
    }
}

// Where the kind is named.
fn name_text<'a>(named: Named, rest: &'a [u8], front: Fields, range: (usize, Fields)) -> &'a [u8]
    ensures { result.now ≡ name_text named rest.now front range }
{
    match named {
        Named::AtFront => rest,
        Named::BehindFront => next_word(behind(front.last.column, rest)),
        Named::BehindRange => next_word(behind(range.1.last.column, behind(range.0, rest))),
    }
}

// What a form reads in a line.
fn seen_by_form(form: &Form<'_>, names: &[Name<'_>], line: &[u8]) -> Option<Seen>
    ensures value { result ≡ seen_by_form (form_at form.now) (names_at names.now) line.now }
    ensures within { IfSome result (λ seen. seen.before ≤ length line.now) }
{
    let Some((before, front)) = front_at(form.1, form.0, line) else {
        return None;
    };
    let rest = behind(before, line);
    match stands(form.2, rest) {
        Some((at, fields)) => Some(Seen {
            ends: form.3,
            fields,
            kind: first_named(names, name_text(form.4, rest, front, (at, fields))),
            before: before + at,
        }),
        None => None,
    }
}

// What the first form reads that reads a range.
fn seen_by(forms: &[Form<'_>], names: &[Name<'_>], line: &[u8]) -> Option<Seen>
    ensures value { result ≡ seen_by (forms_at forms.now) (names_at names.now) line.now }
    ensures within { IfSome result (λ seen. seen.before ≤ length line.now) }
{
    'forms: for form in forms {
        if let Some(seen) = seen_by_form(form, names, line) {
            return Some(seen);
        }
    }
    None
}

fn has_front(forms: &[Form<'_>], line: &[u8]) -> bool
    ensures { result ≡ has_front (forms_at forms.now) line.now }
{
    'forms: for form in forms {
        if front_at(form.1, form.0, line).is_some() {
            return true;
        }
    }
    false
}

fn table_of(format: Format) -> Table<'static>
    ensures { table_at result ≡ table_of format }
{
    match format {
        Format::E820 => E820,
        Format::Efi => EFI,
        Format::Coreboot => COREBOOT,
        Format::Iomem => IOMEM,
    }
}

// The line without a byte-order mark of UTF-8 at its front, and without a CR at its end.
fn bare<'a>(line: &'a [u8]) -> &'a [u8]
    ensures { result.now ≡ bare line.now }
{
    match without_ending(line, b'\r') {
        [0xef, 0xbb, 0xbf, rest @ ..] => rest,
        text => text,
    }
}

fn is_utf16(line: &[u8]) -> bool
    ensures { result ≡ is_utf16 line.now }
{
    match line {
        [first, second, ..] => matches!((*first, *second), (255, 254) | (254, 255)),
        _ => false,
    }
}

// What a line shows that is bare.
fn shown_of(table: &Table<'_>, number: u64, line: &[u8]) -> Shown
    ensures { result ≡ shown_of (table_at table.now) number line.now }
{
    if is_utf16(line) {
        return Shown::Fault(MapFault::Utf16(place_at(number, 0)));
    }
    match seen_by(table.0, table.1, line) {
        Some(seen) => named_range(
            seen.ends,
            seen.fields,
            seen.kind,
            place_at(number, seen.before),
        ),
        None => Shown::Nothing,
    }
}

/// What a line shows.
pub(crate) fn shown_in(format: Format, line: &Line<'_>) -> Shown
    ensures { result ≡ shown_in format line.now.number line.now.bytes.now }
{
    shown_of(&table_of(format), line.number, bare(line.bytes))
}

/// Whether a range begins in a line and isn't whole.
pub(crate) fn breaks_off(format: Format, line: &Line<'_>) -> bool
    ensures { result ≡ breaks_off format line.now.bytes.now }
{
    let table = table_of(format);
    let text = bare(line.bytes);
    has_front(table.0, text) && seen_by(table.0, table.1, text).is_none()
}

fn has_title(format: Format, line: &Line<'_>) -> bool
    ensures { result ≡ has_title format line.now.bytes.now }
{
    has_heading(table_of(format).2, bare(line.bytes))
}

fn starts_over(ascends: bool, low: u64, shown: &Shown) -> bool
    ensures { result ≡ starts_over ascends low shown.now }
{
    match shown {
        Shown::Range(claim) => ascends && claim.range.first <= low,
        _ => false,
    }
}

/// Whether a map begins behind the lines before this one, of which the last range has this first byte.
pub(crate) fn begins_map(format: Format, low: u64, line: &Line<'_>, shown: &Shown) -> bool
    ensures { result ≡ begins_map format low line.now.bytes.now shown.now }
{
    has_title(format, line) || starts_over(table_of(format).3, low, shown)
}

/// The first byte of the last range behind a line that shows this.
pub(crate) fn low_behind(low: u64, shown: &Shown) -> u64
    ensures { result ≡ low_behind low shown.now }
{
    match shown {
        Shown::Range(claim) => claim.range.first,
        _ => low,
    }
}

fn is_shown(shown: &Shown) -> bool
    ensures { result ≡ is_shown shown.now }
{
    !matches!(shown, Shown::Nothing)
}

fn told_in(format: Format, line: &Line<'_>) -> bool
    ensures { result ≡ told_in format line.now.number line.now.bytes.now }
{
    has_title(format, line) || is_shown(&shown_in(format, line))
}

fn format_told(line: &Line<'_>) -> Option<Format>
    ensures { result ≡ format_told line.now.number line.now.bytes.now }
{
    if told_in(Format::E820, line) {
        Some(Format::E820)
    } else if told_in(Format::Efi, line) {
        Some(Format::Efi)
    } else if told_in(Format::Coreboot, line) {
        Some(Format::Coreboot)
    } else if told_in(Format::Iomem, line) {
        Some(Format::Iomem)
    } else {
        None
    }
}

/// The format that is known behind a line, if it was known before or the line tells it.
pub(crate) fn chosen(format: Option<Format>, line: &Line<'_>) -> Option<Format>
    ensures { result ≡ chosen format line.now.number line.now.bytes.now }
{
    match format {
        Some(format) => Some(format),
        None => format_told(line),
    }
}
