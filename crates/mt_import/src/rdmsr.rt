ghost use Rattle.std.specs.Prelude.{◌≡◌, ◌≤◌, ◌+◌, ◌*◌, codes, IfSome};
ghost use Rattle.mt_text.specs.Number.{hex_number};
ghost use Rattle.mt_import.specs.Pieces.{before, behind};
ghost use Rattle.mt_import.specs.Rdmsr.{announced, call_from, call_of, call_said, column_register, column_said, digits_in, is_all, is_hex_option, is_padded, is_traced, option_at, processor_named, rdmsr_said, register_named, said_by_words, said_value, with_processor};

use crate::line_words::LineWords;
use crate::pieces::{is_prefixed, is_text, number_in, prefixed_register, register_in, shows_one};
use crate::{LineSays, Turn};
use mt_text::{Line, Place, decimal, hex64};

const DIGITS: usize = 3;

fn register_named(word: &[u8]) -> Option<u32>
    ensures { result ≡ register_named word.now }
{
    if is_prefixed(word) {
        register_in(hex64(word))
    } else if word.len() == DIGITS {
        register_in(decimal(word, 999))
    } else {
        None
    }
}

fn is_hex_option(word: &[u8]) -> bool
    ensures { result ≡ is_hex_option word.now }
{
    is_text(b"-0", word) || is_text(b"-x", word) || is_text(b"-X", word) || is_text(b"-c", word)
}

// Columns behind a call that is read but for its register are of its processor, if it names one.
fn call_of(processor: Option<u32>) -> Turn
    ensures { result ≡ call_of processor }
{
    match processor {
        Some(processor) => Turn::To(processor),
        None => Turn::UnreadCall,
    }
}

fn announced(processor: Option<u32>, register: Option<u32>) -> LineSays
    ensures { result ≡ announced processor register }
{
    match register {
        Some(number) => LineSays::Announces(processor, number),
        None => LineSays::Turns(call_of(processor)),
    }
}

fn is_padded(word: &[u8]) -> bool
    ensures { result ≡ is_padded word.now }
{
    matches!(word, [b'0', _, ..])
}

fn processor_named(word: &[u8]) -> Option<u32>
    ensures { result ≡ processor_named word.now }
{
    if is_padded(word) {
        return None;
    }
    match decimal(word, 65535) {
        Ok(processor) => Some(processor as u32),
        Err(_) => None,
    }
}

fn is_all(word: &[u8]) -> bool
    ensures { result ≡ is_all word.now }
{
    is_text(b"-a", word) || is_text(b"--all", word)
}

fn with_processor(size: u8, processor: Option<u32>) -> Option<(u8, Option<u32>)>
    requires { size ≤ 2 }
    ensures option { result ≡ with_processor size processor }
    ensures small { IfSome result (λ found. found.0 ≤ 2) }
{
    match processor {
        Some(processor) => Some((size, Some(processor))),
        None => None,
    }
}

// `-pK`
fn attached(word: &[u8]) -> Option<u32>
    ensures { result ≡ digits_in (behind (codes "-p") word.now) }
{
    match word.strip_prefix(b"-p") {
        Some(digits) => processor_named(digits),
        None => None,
    }
}

// An option: how many words it has, and the processor that the call is of behind it, or none for all of them.
fn option_at(at: u8, processor: Option<u32>, words: &LineWords<'_>) -> Option<(u8, Option<u32>)>
    requires { at ≤ 12 }
    ensures option { result ≡ option_at at processor words.now.words }
    ensures small { IfSome result (λ found. found.0 ≤ 2) }
{
    let word = words.text(at);
    if is_hex_option(word) {
        Some((1, processor))
    } else if is_all(word) {
        Some((1, None))
    } else if is_text(b"-p", word) {
        with_processor(2, processor_named(words.text(at + 1)))
    } else {
        with_processor(1, attached(word))
    }
}

// The words of a call from this one on: options, so many at most, and the register.
fn call_from(options: u8, at: u8, processor: Option<u32>, words: &LineWords<'_>) -> LineSays
    requires { at + 2 * options ≤ 12 }
    ensures { result ≡ call_from options at processor words.now.words }
{
    if words.count() == at as usize + 1 {
        return announced(processor, register_named(words.text(at)));
    }
    if options == 0 {
        return LineSays::Turns(Turn::UnreadCall);
    }
    match option_at(at, processor, words) {
        Some((size, next)) => call_from(options - 1, at + size, next, words),
        None => LineSays::Turns(Turn::UnreadCall),
    }
}

fn said_value(place: Place, word: &[u8]) -> LineSays
    ensures { result ≡ said_value place (hex_number word.now) }
{
    match hex64(word) {
        Ok(value) => LineSays::Value(value, place),
        Err(_) => LineSays::Nothing,
    }
}

fn column_register(word: &[u8]) -> Option<u32>
    ensures { result ≡ column_register (before (codes ":") word.now) word.now }
{
    match word.strip_suffix(b":") {
        Some(name) => prefixed_register(name),
        None => prefixed_register(word),
    }
}

// `0x200 6` or `0x200: 6`, of the processor of the last call.
fn column_said(words: &LineWords<'_>) -> LineSays
    ensures { result ≡ column_said words.now.number words.now.words }
{
    shows_one(
        None,
        column_register(words.text(0)),
        number_in(hex64(words.text(1))),
        words.place(1),
    )
}

fn is_traced(word: &[u8]) -> bool
    ensures { result ≡ is_traced word.now }
{
    is_text(b"+", word) || is_text(b"++", word)
}

fn call_said(words: &LineWords<'_>) -> LineSays
    ensures { result ≡ call_said words.now.words }
{
    if words.is(1, b"rdmsr") {
        call_from(3, 2, Some(0), words)
    } else if words.is(1, b"sudo") && words.is(2, b"rdmsr") {
        call_from(3, 3, Some(0), words)
    } else {
        LineSays::Nothing
    }
}

fn said_by_words(words: &LineWords<'_>) -> LineSays
    ensures { result ≡ said_by_words words.now.number words.now.words }
{
    if is_traced(words.text(0)) {
        return call_said(words);
    }
    match words.count() {
        1 => said_value(words.place(0), words.text(0)),
        2 => column_said(words),
        _ => LineSays::Nothing,
    }
}

/// What a line says.
pub(crate) fn rdmsr_said(line: &Line<'_>) -> LineSays
    ensures { result ≡ rdmsr_said line.now.number line.now.bytes.now }
{
    said_by_words(&LineWords::behind(0, line))
}
