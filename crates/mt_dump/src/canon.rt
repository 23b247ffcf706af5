ghost use Rattle.std.specs.Prelude.{◌≡◌, ◌≤◌, ◌<◌, ◌+◌, ◌++◌, ◌∷◌, [], codes, length, take, drop, slice_index, slice_get, MatchOption};
ghost use Rattle.hex.specs.Hex.{lower_digits};
ghost use Rattle.mt_dump.specs.Canon.{width_line, number_text, value_text, register_line, file_lines, section_line, section_lines, canon_lines};
ghost use Rattle.mt_regs.specs.Registers.{HasThreeDigits};

use crate::dumps::Dump;
use arrayvec::ArrayVec;
use mt_regs::{CAPABILITIES, RegFile};

const DIGITS: [u8; 16] = *b"0123456789abcdef";

fn digit(n: u32) -> u8
    requires { n < 16 }
    ensures { result ≡ slice_index lower_digits n }
{
    DIGITS[n as usize]
}

/// A value in sixteen lower-case hexadecimal digits.
pub fn value_text(value: u64) -> [u8; 16]
    ensures { result ≡ value_text value }
{
    let mut digits = [0; 16];
    match hex::encode_to_slice(value.to_be_bytes(), &mut digits) {
        Ok(()) => digits,
        Err(_) => unreachable!(),
    }
}

/// A register's number in three lower-case hexadecimal digits.
pub fn number_text(number: u32) -> [u8; 3]
    requires { HasThreeDigits number }
    ensures { result ≡ number_text number }
{
    [
        digit(number / 256),
        digit(number / 16 % 16),
        digit(number % 16),
    ]
}

fn put(text: &mut ArrayVec<u8, 24>, bytes: &[u8])
    requires { length text.old.items + length bytes.now ≤ 24 }
    ensures { text.new.items ≡ text.old.items ++ bytes.now }
{
    match text.try_extend_from_slice(bytes) {
        Ok(()) => {}
        Err(_) => unreachable!(),
    }
}

fn width_line(width: u8) -> ArrayVec<u8, 24>
    requires { width < 100 }
    ensures { result.items ≡ width_line width ++ 10 ∷ [] }
{
    let mut text = ArrayVec::new();
    put(&mut text, b"maxphyaddr ");
    text.push(b'0' + width / 10);
    text.push(b'0' + width % 10);
    text.push(b'\n');
    text
}

fn register_line(number: u32, value: u64) -> ArrayVec<u8, 24>
    requires { HasThreeDigits number }
    ensures { result.items ≡ register_line number value ++ 10 ∷ [] }
{
    let mut text = ArrayVec::new();
    put(&mut text, &number_text(number));
    text.push(b' ');
    put(&mut text, &value_text(value));
    text.push(b'\n');
    text
}

// The line of a file of this number with its LF, or nothing past the last.
fn file_line(f: &RegFile, line: u32) -> ArrayVec<u8, 24>
    ensures { MatchOption (slice_get (file_lines f.now) line) (result.items ≡ []) (λ text. result.items ≡ text ++ 10 ∷ []) }
{
    match line {
        0 => width_line(f.maxphy),
        1 => register_line(CAPABILITIES, f.cap),
        _ => match f.register_at(line - 2) {
            Some(register) => register_line(register.number(), f.value_of(register)),
            None => ArrayVec::new(),
        },
    }
}

fn section_line(number: u8) -> ArrayVec<u8, 24>
    requires { number < 100 }
    ensures { result.items ≡ section_line number ++ 10 ∷ [] }
{
    let mut text = ArrayVec::new();
    put(&mut text, b"cpu ");
    if number >= 10 {
        text.push(b'0' + number / 10);
    }
    text.push(b'0' + number % 10);
    text.push(b'\n');
    text
}

// The line of the sections of this number with its LF. All files have equally many lines.
fn line_of_sections(d: &Dump, line: u32) -> ArrayVec<u8, 24>
    ensures { MatchOption (slice_get (section_lines 0 d.now.files) line) (result.items ≡ []) (λ text. result.items ≡ text ++ 10 ∷ []) }
{
    d.is_dump(); // a fact for the proof
    let count = d.first_file().count() + 3;
    let number = line / count;
    let place = line % count;
    let Some(f) = d.file_at(number) else {
        return ArrayVec::new();
    };
    if place == 0 {
        section_line(number as u8)
    } else {
        file_line(f, place - 1)
    }
}

fn version_line() -> ArrayVec<u8, 24>
    ensures { result.items ≡ codes "version 2" ++ 10 ∷ [] }
{
    let mut text = ArrayVec::new();
    put(&mut text, b"version 2\n");
    text
}

// The line of this number with its LF, or nothing past the last.
fn canon_line(d: &Dump, line: u32) -> ArrayVec<u8, 24>
    ensures { MatchOption (slice_get (canon_lines d.now) line) (result.items ≡ []) (λ text. result.items ≡ text ++ 10 ∷ []) }
{
    if d.version != 2 {
        file_line(d.first_file(), line)
    } else if line == 0 {
        version_line()
    } else {
        line_of_sections(d, line - 1)
    }
}

/// Puts one line of the canonical text into the front and answers its length, which is 0 past the last line.
pub fn write_dump(d: &Dump, line: u32, into: &mut [u8; 24]) -> usize
    ensures text { MatchOption (slice_get (canon_lines d.now) line) (result ≡ 0) (λ text. (result ≡ length text + 1) × (take result into.new ≡ text ++ 10 ∷ [])) }
    ensures rest { drop result into.new ≡ drop result into.old }
{
    let text = canon_line(d, line);
    let count = text.len();
    into[..count].copy_from_slice(text.as_slice());
    count
}
