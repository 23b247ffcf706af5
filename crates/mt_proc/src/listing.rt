ghost use Rattle.std.specs.Prelude.{◌≡◌, ℕ, ◌≤◌, ◌<◌, ◌+◌, ◌*◌, ◌^◌, ◌++◌, ◌∷◌, [], length, take, drop, decimal};
ghost use Rattle.arrayvec.specs.ArrayVec.{array_vec_len};
ghost use Rattle.mt_regs.specs.Alike.{IsWhole};
ghost use Rattle.mt_regs.specs.Faults.{IsAccepted};
ghost use Rattle.mt_regs.specs.PageTypes.{pair_type};
ghost use Rattle.mt_proc.specs.Listing.{hex_text, pair_line, range_line, range_text, significant};

use crate::applying::power;
use crate::names::name_of;
use arrayvec::ArrayVec;
use mt_dump::value_text;
use mt_kinds::{MemType, PAGE_BYTES};
use mt_output::{LineBuffer, append, append_decimal};
use mt_ranges::{block_of, is_valid};
use mt_regs::{RegFile, pair_type};

// Digits without the zeros at their front, of which the last digit stays.
fn significant(digits: &[u8]) -> &[u8]
    ensures text { result.now ≡ significant digits.now }
    ensures short { length result.now ≤ length digits.now }
{
    let mut rest = digits;
    'zeros: while rest.len() > 1 && rest[0] == b'0' {
        rest = &rest[1..];
    }
    rest
}

// Adds a value in hexadecimal digits, without leading zeros.
fn append_hex(line: &mut LineBuffer, value: u64)
    requires { array_vec_len line.old + 16 ≤ 224 }
    ensures text { line.new.items ≡ line.old.items ++ hex_text value }
    ensures short { array_vec_len line.new ≤ array_vec_len line.old + 16 }
{
    append(line, significant(&value_text(value)));
}

// The line of a range.
fn range_text(base: u64, size: u64, kind: MemType, n: u32) -> LineBuffer
    requires { n < 100 }
    ensures text { result.items ≡ range_text base size kind n ++ 10 ∷ [] }
    ensures short { array_vec_len result ≤ 80 }
{
    let mut line = ArrayVec::new();
    append(&mut line, b"base=0x");
    append_hex(&mut line, base);
    append(&mut line, b" size=0x");
    append_hex(&mut line, size);
    append(&mut line, b" type=");
    append(&mut line, name_of(kind));
    append(&mut line, b" # ");
    append_decimal(&mut line, n as u64);
    append(&mut line, b"\n");
    line
}

// The line of a pair with its LF, or nothing where the pair isn't valid.
fn pair_line(m: u8, n: u32, pair: (u64, u64)) -> LineBuffer
    requires low { 32 ≤ m }
    requires high { m ≤ 52 }
    requires few { n < 100 }
    requires whole { IsWhole m pair }
    ensures text { result.items ≡ pair_line m n pair }
    ensures short { array_vec_len result ≤ 80 }
{
    if !is_valid(pair) {
        return ArrayVec::new();
    }
    match block_of(pair.0, pair.1, m) {
        Some(block) => range_text(
            PAGE_BYTES * block.first,
            PAGE_BYTES * power(block.log),
            pair_type(pair),
            n,
        ),
        None => unreachable!(),
    }
}

// The line of the pair of this number, or nothing where the file has none.
pub(crate) fn line_of(f: &RegFile, n: u32) -> LineBuffer
    requires { IsAccepted f.now }
    ensures text { result.items ≡ range_line f.now n }
    ensures short { array_vec_len result ≤ 80 }
{
    f.is_register_file(); // a fact for the proof
    match f.pairs.as_slice().get(n as usize) {
        Some(pair) => pair_line(f.maxphy, n, *pair),
        None => ArrayVec::new(),
    }
}

/// Puts the line of a pair into the front and returns its length. That is 0 if the pair isn't valid, or there is none
/// of this number. The line is `base=0xB size=0xS type=NAME # n` with its LF. B and S are the first address and the
/// bytes of the pair's range.
pub fn write_range(f: &RegFile, n: u32, into: &mut [u8; 80]) -> usize
    requires { IsAccepted f.now }
    ensures length { result ≡ length (range_line f.now n) }
    ensures text { take result into.new ≡ range_line f.now n }
    ensures rest { drop result into.new ≡ drop result into.old }
{
    let text = line_of(f, n);
    let count = text.len();
    into[..count].copy_from_slice(text.as_slice());
    count
}
