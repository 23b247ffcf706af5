ghost use Rattle.std.specs.Prelude.{◌≡◌, ◌+◌, MatchOption, Some, None, IfSome, slice_get};
ghost use Rattle.mt_ports.specs.Causes.{one_more};
ghost use Rattle.mt_text.specs.Text.{words_of};
ghost use Rattle.mt_text.specs.Words.{place_of, text_of};
ghost use Rattle.mt_import.specs.Pieces.{is_prefixed, is_text, number_in, prefixed_number, prefixed_register, register_in, shown_as, shown_bits, shows_one, shows_width, whole_number, sixteen_digits, value_at};

use crate::{LineSays, Shown};
use mt_text::{Line, NumberFault, Place, Word, hex64};

// Registers with three hexadecimal digits.
const REGISTERS: u64 = 0x1000;

/// How long `0x` and sixteen digits are.
pub(crate) const VALUE_SIZE: usize = 18;

/// Whether a word is this text.
pub(crate) fn is_text(text: &[u8], word: &[u8]) -> bool
    ensures { result ≡ is_text text.now word.now }
{
    word == text
}

pub(crate) fn is_prefixed(word: &[u8]) -> bool
    ensures { result ≡ is_prefixed word.now }
{
    matches!(word, [b'0', b'x' | b'X', ..])
}

pub(crate) fn number_in(number: Result<u64, NumberFault>) -> Option<u64>
    ensures { result ≡ number_in number }
{
    match number {
        Ok(number) => Some(number),
        Err(_) => None,
    }
}

/// A hexadecimal number behind `0x`.
pub(crate) fn prefixed_number(word: &[u8]) -> Option<u64>
    ensures { result ≡ prefixed_number word.now }
{
    if is_prefixed(word) {
        number_in(hex64(word))
    } else {
        None
    }
}

/// A hexadecimal number of sixteen digits.
pub(crate) fn sixteen_digits(word: &[u8]) -> Option<u64>
    ensures { result ≡ sixteen_digits word.now }
{
    if word.len() == 16 {
        number_in(hex64(word))
    } else {
        None
    }
}

/// A hexadecimal number behind `0x` in a word of this length. A shorter one was cut.
pub(crate) fn whole_number(size: usize, word: &[u8]) -> Option<u64>
    ensures { result ≡ whole_number size word.now }
{
    if word.len() == size {
        prefixed_number(word)
    } else {
        None
    }
}

pub(crate) fn register_in(number: Result<u64, NumberFault>) -> Option<u32>
    ensures { result ≡ register_in number }
{
    match number {
        Ok(number) if number < REGISTERS => Some(number as u32),
        _ => None,
    }
}

/// A register's number in hexadecimal behind `0x`.
pub(crate) fn prefixed_register(word: &[u8]) -> Option<u32>
    ensures { result ≡ prefixed_register word.now }
{
    if is_prefixed(word) {
        register_in(hex64(word))
    } else {
        None
    }
}

/// Bits of a register, with this value.
pub(crate) fn shown_bits(number: u32, bits: u64, value: u64, place: Place) -> Option<Shown>
    ensures { result ≡ shown_bits number bits value place }
{
    Some(Shown {
        number,
        bits,
        value,
        place,
    })
}

/// A whole register.
pub(crate) fn shown_as(number: u32, value: u64, place: Place) -> Option<Shown>
    ensures { result ≡ shown_as number value place }
{
    shown_bits(number, u64::MAX, value, place)
}

/// A whole register, if its value is known.
pub(crate) fn value_at(number: u32, place: Place, value: Option<u64>) -> Option<Shown>
    ensures { result ≡ value_at number place value }
{
    match value {
        Some(value) => shown_as(number, value, place),
        None => None,
    }
}

/// A count after one more. It stays at the last value of 64 bits.
pub(crate) fn count_on(count: u64) -> u64
    ensures { result ≡ one_more count }
{
    count.saturating_add(1)
}

/// A processor that no dump has. Registers of a processor that isn't known are of it.
pub(crate) const UNREAD_PROCESSOR: u32 = 65_535;

/// One register of a processor, or else of the one that the lines are of.
pub(crate) fn shows_one(
    processor: Option<u32>,
    number: Option<u32>,
    value: Option<u64>,
    place: Place,
) -> LineSays
    ensures { result ≡ shows_one processor number value place }
{
    let Some(number) = number else {
        return LineSays::Nothing;
    };
    let Some(value) = value else {
        return LineSays::Nothing;
    };
    let shown = shown_as(number, value, place);
    LineSays::Shows(
        processor,
        [
            shown, None, None, None, None, None, None, None, None, None, None,
        ],
    )
}

/// The width that a line shows, where this is one.
pub(crate) fn shows_width(width: Result<u64, NumberFault>, place: Place) -> LineSays
    ensures { result ≡ shows_width width place }
{
    match width {
        Ok(width) => LineSays::Width(width, place),
        Err(_) => LineSays::Nothing,
    }
}

// A word of a line, and its offset in the line.
fn word_of<'a>(line: &Line<'a>, i: usize) -> Option<Word<'a>>
    ensures word { let words = words_of line.now.bytes.now
        in MatchOption result (slice_get words i ≡ None) (λ word. slice_get words i ≡ Some (word.offset, word.text.now)) }
    ensures place { IfSome result (λ word. word.place ≡ record { line = line.now.number; column = word.offset + 1 }) }
{
    let alone = Line {
        bytes: line.bytes,
        offset: 0,
        number: line.number,
        next: line.bytes.len(),
    };
    alone.word(i)
}

/// The text of a word, which is empty where the line doesn't have the word.
pub(crate) fn word_text<'a>(line: &Line<'a>, i: usize) -> &'a [u8]
    ensures { result.now ≡ text_of (words_of line.now.bytes.now) i }
{
    match word_of(line, i) {
        Some(word) => word.text,
        None => b"",
    }
}

/// Whether a word of a line is this text.
pub(crate) fn word_is(line: &Line<'_>, i: usize, text: &[u8]) -> bool
    ensures { result ≡ is_text text.now (text_of (words_of line.now.bytes.now) i) }
{
    is_text(text, word_text(line, i))
}

/// The place of a word, which is the line's first column where the line doesn't have the word.
pub(crate) fn word_place(line: &Line<'_>, i: usize) -> Place
    ensures { result ≡ place_of line.now.number (words_of line.now.bytes.now) i }
{
    match word_of(line, i) {
        Some(word) => word.place,
        None => Place {
            line: line.number,
            column: 1,
        },
    }
}
