ghost use Rattle.std.specs.Prelude.{◌≡◌, ◌≤◌, drop, length, IfSome};
ghost use Rattle.mt_text.specs.Number.{decimal_number, hex_number};
ghost use Rattle.mt_text.specs.Text.{ends_word, is_blank};
ghost use Rattle.mt_rows.specs.Scan.{has, is_digit, is_empty, is_marked, is_end, is_within, part_read, parts_at, push, pushed, pushed_number, read_by, run_read, run_size, scanned};

use crate::row::{Field, Fields, Kind, Part, Run};
use mt_text::{NumberFault, decimal, hex64, without_ending};

fn is_blank(byte: u8) -> bool
    ensures { result ≡ is_blank byte }
{
    byte == b' ' || byte == b'\t'
}

fn ends_word(byte: u8) -> bool
    ensures { result ≡ ends_word byte }
{
    is_blank(byte) || byte == b'#'
}

fn is_digit(byte: u8) -> bool
    ensures { result ≡ is_digit byte }
{
    matches!(byte, b'0'..=b'9' | b'a'..=b'f' | b'A'..=b'F')
}

fn has(kind: Kind, byte: u8) -> bool
    ensures { result ≡ has kind byte }
{
    match kind {
        Kind::Blank => is_blank(byte),
        Kind::Mark => !ends_word(byte),
        Kind::Ex => byte == b'x' || byte == b'X',
        Kind::Hexadecimal => is_digit(byte),
        Kind::Decimal => b'0' <= byte && byte <= b'9',
        Kind::Between => is_blank(byte) || matches!(byte, b'=' | b':' | b',' | b';'),
        Kind::Number => is_digit(byte) || matches!(byte, b'x' | b'X'),
        Kind::Figure => is_digit(byte) || matches!(byte, b'x' | b'X' | b'h' | b'H'),
    }
}

// How many bytes of a kind stand in front.
fn run_size(kind: Kind, rest: &[u8]) -> usize
    ensures size { result ≡ run_size kind rest.now }
    ensures within { result ≤ length rest.now }
{
    for (i, byte) in rest.iter().enumerate() {
        if !has(kind, *byte) {
            return i;
        }
    }
    rest.len()
}

fn is_within(least: usize, most: usize, size: usize) -> bool
    ensures { result ≡ is_within least most size }
{
    least <= size && size <= most
}

fn is_empty(rest: &[u8]) -> bool
    ensures { result ≡ is_empty rest.now }
{
    matches!(rest, [])
}

fn is_end(rest: &[u8]) -> bool
    ensures { result ≡ is_end rest.now }
{
    match rest {
        [] => true,
        [byte, ..] => ends_word(*byte),
    }
}

fn push(fields: Fields, value: u64, column: usize) -> Fields
    ensures { result ≡ push fields value column }
{
    Fields {
        eighth_last: fields.seventh_last,
        seventh_last: fields.sixth_last,
        sixth_last: fields.fifth_last,
        fifth_last: fields.fourth_last,
        fourth_last: fields.third_last,
        third_last: fields.second_last,
        second_last: fields.last,
        last: Field { value, column },
    }
}

fn pushed_number(number: Result<u64, NumberFault>, column: usize, fields: Fields) -> Option<Fields>
    ensures { result ≡ pushed_number number column fields }
{
    match number {
        Ok(number) => Some(push(fields, number, column)),
        Err(_) => None,
    }
}

// Whether `0d` stands in front, as of a decimal number.
fn is_marked(text: &[u8]) -> bool
    ensures { result ≡ is_marked text.now }
{
    matches!(text, [b'0', b'd', ..])
}

// The numbers behind a run.
fn pushed(kind: Kind, column: usize, text: &[u8], fields: Fields) -> Option<Fields>
    ensures { result ≡ pushed kind column text.now fields }
{
    match kind {
        Kind::Blank | Kind::Mark | Kind::Ex | Kind::Between | Kind::Figure => Some(fields),
        Kind::Number if is_marked(text) => None,
        Kind::Number => pushed_number(hex64(text), column, fields),
        Kind::Hexadecimal => pushed_number(hex64(text), column, fields),
        Kind::Decimal => pushed_number(decimal(text, u64::MAX), column, fields),
    }
}

// What stands behind so many bytes.
fn behind(taken: usize, rest: &[u8]) -> &[u8]
    requires { taken ≤ length rest.now }
    ensures { result.now ≡ drop taken rest.now }
{
    &rest[taken..]
}

// How many bytes a run takes, and the numbers behind it.
fn run_read(size: usize, run: Run, rest: &[u8], fields: Fields) -> Option<(usize, Fields)>
    requires { length rest.now ≤ size }
    ensures read { result ≡ run_read size run rest.now fields }
    ensures within { IfSome result (λ read. read.0 ≤ length rest.now) }
{
    match run {
        Run::Nothing => Some((0, fields)),
        Run::End => {
            if is_empty(rest) {
                Some((0, fields))
            } else {
                None
            }
        }
        Run::Of(kind, least, most) => {
            let taken = run_size(kind, rest);
            if !is_within(least, most, taken) {
                return None;
            }
            match pushed(kind, size - rest.len(), &rest[..taken], fields) {
                Some(more) => Some((taken, more)),
                None => None,
            }
        }
    }
}

// How many bytes a part takes, and the numbers behind it.
fn part_read(size: usize, part: &Part<'_>, rest: &[u8], fields: Fields) -> Option<(usize, Fields)>
    requires { length rest.now ≤ size }
    ensures read { result ≡ part_read size part.now.0.now part.now.1 rest.now fields }
    ensures within { IfSome result (λ read. read.0 ≤ length rest.now) }
{
    let bytes = part.0;
    if !rest.starts_with(bytes) {
        return None;
    }
    match run_read(size, part.1, behind(bytes.len(), rest), fields) {
        Some((taken, more)) => Some((bytes.len() + taken, more)),
        None => None,
    }
}

const NO_FIELD: Field = Field {
    value: 0,
    column: 0,
};

const NO_FIELDS: Fields = Fields {
    eighth_last: NO_FIELD,
    seventh_last: NO_FIELD,
    sixth_last: NO_FIELD,
    fifth_last: NO_FIELD,
    fourth_last: NO_FIELD,
    third_last: NO_FIELD,
    second_last: NO_FIELD,
    last: NO_FIELD,
};

// The numbers of a line without CR, if a row reads it.
fn read_by(parts: &[Part<'_>], line: &[u8]) -> Option<Fields>
    ensures { result ≡ read_by (parts_at parts.now) line.now }
{
    let mut rest = line;
    let mut fields = NO_FIELDS;
    'parts: for part in parts {
        let Some((taken, more)) = part_read(line.len(), part, rest, fields) else {
            return None;
        };
        rest = behind(taken, rest);
        fields = more;
    }
    if is_end(rest) { Some(fields) } else { None }
}

/// The numbers of a line, if a row reads it. A CR at the line's end is no part of it, nor is a `#` and what stands behind it, unless
/// the row has it.
pub fn scanned(parts: &[Part<'_>], line: &[u8]) -> Option<Fields>
    ensures { result ≡ scanned (parts_at parts.now) line.now }
{
    read_by(parts, without_ending(line, b'\r'))
}
