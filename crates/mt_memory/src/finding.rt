ghost use Rattle.std.specs.Prelude.{◌≡◌, ◌≤◌, drop, length, IfSome};
ghost use Rattle.mt_rows.specs.Scan.{parts_at};
ghost use Rattle.mt_text.specs.Text.{is_blank};
ghost use Rattle.mt_memory.specs.Finding.{fields_at, first_named, has_heading, headings_at, names_at, next_word, stands};

use crate::MemoryKind;
use crate::table::Name;
use mt_rows::{Fields, Part, scanned};

fn is_blank(byte: u8) -> bool
    ensures { result ≡ is_blank byte }
{
    byte == b' ' || byte == b'\t'
}

/// What stands in a line behind so many bytes.
pub(crate) fn behind(count: usize, line: &[u8]) -> &[u8]
    ensures { result.now ≡ drop count line.now }
{
    if count < line.len() {
        &line[count..]
    } else {
        &[]
    }
}

/// The next word, and what stands behind it.
pub(crate) fn next_word(line: &[u8]) -> &[u8]
    ensures { result.now ≡ next_word line.now }
{
    let mut left = false;
    for (i, byte) in line.iter().enumerate() {
        if left && !is_blank(*byte) {
            return behind(i, line);
        }
        left = left || is_blank(*byte);
    }
    &[]
}

// The numbers of what is left of a line, if a word begins with its first byte and a row reads it.
fn fields_at(parts: &[Part<'_>], starts: bool, byte: u8, rest: &[u8]) -> Option<Fields>
    ensures { result ≡ fields_at (parts_at parts.now) starts byte rest.now }
{
    if starts && !is_blank(byte) {
        scanned(parts, rest)
    } else {
        None
    }
}

/// How many bytes stand in front of the first word from which a row reads a line, and the numbers behind them.
pub(crate) fn stands(parts: &[Part<'_>], line: &[u8]) -> Option<(usize, Fields)>
    ensures value { result ≡ stands (parts_at parts.now) line.now }
    ensures within { IfSome result (λ found. found.0 ≤ length line.now) }
{
    let mut starts = true;
    for (i, byte) in line.iter().enumerate() {
        if let Some(fields) = fields_at(parts, starts, *byte, behind(i, line)) {
            return Some((i, fields));
        }
        starts = is_blank(*byte);
    }
    None
}

/// The kind that the first of these names that reads a text has.
pub(crate) fn first_named(names: &[Name<'_>], text: &[u8]) -> Option<MemoryKind>
    ensures { result ≡ first_named (names_at names.now) text.now }
{
    'names: for name in names {
        if scanned(name.0, text).is_some() {
            return Some(name.1);
        }
    }
    None
}

/// Whether one of these rows reads the line from some word on.
pub(crate) fn has_heading(headings: &[&[Part<'_>]], line: &[u8]) -> bool
    ensures { result ≡ has_heading (headings_at headings.now) line.now }
{
    'headings: for heading in headings {
        if stands(heading, line).is_some() {
            return true;
        }
    }
    false
}
