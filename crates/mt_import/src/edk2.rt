ghost use Rattle.std.specs.Prelude.{◌≡◌, ◌<◌, IfSome};
ghost use Rattle.mt_import.specs.Edk2.{edk2_said, fixed_number, said_by_words, shows_pair, value_behind};

use crate::LineSays;
use crate::linux::pair_numbered;
use crate::pieces::{is_text, shows_one, sixteen_digits, value_at};
use crate::reading::two_shown;
use mt_regs::{DEFAULT_TYPE, FIRST_PAIR};
use mt_text::{Line, Place, Words};

const FIXED_NUMBERS: [u32; 11] = [
    0x250, 0x258, 0x259, 0x268, 0x269, 0x26a, 0x26b, 0x26c, 0x26d, 0x26e, 0x26f,
];

fn fixed_number(k: Option<u64>) -> Option<u32>
    requires { IfSome k (λ k. k < 32) }
    ensures { result ≡ fixed_number k }
{
    match k {
        Some(k) => FIXED_NUMBERS.get(k as usize).copied(),
        None => None,
    }
}

// PhysBase and PhysMask of a pair, where their values are known.
fn shows_pair(
    pair: Option<u64>,
    base_place: Place,
    base: Option<u64>,
    mask_place: Place,
    mask: Option<u64>,
) -> LineSays
    requires { IfSome pair (λ pair. pair < 32) }
    ensures { result ≡ shows_pair pair base_place base mask_place mask }
{
    let Some(pair) = pair else {
        return LineSays::Nothing;
    };
    let number = FIRST_PAIR + 2 * pair as u32;
    LineSays::Shows(
        Some(0),
        two_shown(
            value_at(number, base_place, base),
            value_at(number + 1, mask_place, mask),
        ),
    )
}

// A value behind a text.
fn value_behind(head: &[u8], word: &[u8]) -> Option<u64>
    ensures { result ≡ value_behind head.now word.now }
{
    match word.strip_prefix(head) {
        Some(digits) => sixteen_digits(digits),
        None => None,
    }
}

fn said_by_words(words: &Words<'_>) -> LineSays
    ensures { result ≡ said_by_words words.now.number words.now.words }
{
    if words.count() != 4 {
        return LineSays::Nothing;
    }
    if is_text(b"MTRR", words.text(0))
        && is_text(b"Default", words.text(1))
        && is_text(b"Type:", words.text(2))
    {
        shows_one(
            Some(0),
            Some(DEFAULT_TYPE),
            sixteen_digits(words.text(3)),
            words.place(3),
        )
    } else if is_text(b"Fixed", words.text(0)) && is_text(b":", words.text(2)) {
        shows_one(
            Some(0),
            fixed_number(pair_numbered(b"MTRR[", b"]", words.text(1))),
            sixteen_digits(words.text(3)),
            words.place(3),
        )
    } else if is_text(b"Variable", words.text(0)) {
        shows_pair(
            pair_numbered(b"MTRR[", b"]:", words.text(1)),
            words.place(2),
            value_behind(b"Base=", words.text(2)),
            words.place(3),
            value_behind(b"Mask=", words.text(3)),
        )
    } else {
        LineSays::Nothing
    }
}

/// What a line says.
pub(crate) fn edk2_said(line: &Line<'_>) -> LineSays
    ensures { result ≡ edk2_said line.now.number line.now.bytes.now }
{
    said_by_words(&line.first_words())
}
