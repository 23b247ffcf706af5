ghost use Rattle.std.specs.Prelude.{◌≡◌, ◌≤◌, Some, IfOk};
ghost use Rattle.mt_text.specs.Number.{decimal_number};
ghost use Rattle.mt_text.specs.Text.{words_of};
ghost use Rattle.mt_import.specs.Coreboot.{base_value, colon_number, coreboot_said, default_from, default_named, displayed_from, fixed_16k_named, fixed_4k_by, fixed_from, fixed_of, flag_said, is_default, is_fixed, is_fixed_flag, is_fixed_of, is_page, is_pair, is_setup, is_size, is_variable_flag, level_words, mask_value, of_pair, other_from, pair_digits, pair_from, register_named, said_from, said_of_id, set_from, shows_pair, size_from};

use crate::LineSays;
use crate::kernel::default_shown;
use crate::pieces::{
    VALUE_SIZE, is_text, prefixed_number, prefixed_register, shown_as, shown_bits, shows_one,
    shows_width, whole_number, word_is, word_place, word_text,
};
use crate::reading::{one_shown, two_shown};
use mt_kinds::{DEF_TYPE_E, DEF_TYPE_FE, PAGE_BYTES, PHYSMASK_V};
use mt_regs::{CAPABILITIES, DEFAULT_TYPE, FIRST_PAIR};
use mt_text::{Line, NumberFault, Place, decimal, without_ending};

const FIRST_MASK: u32 = FIRST_PAIR + 1;

const VALID: u64 = 1 << PHYSMASK_V;

const MOST_PAIRS: u64 = 31;

const IDS: u64 = 0x10000;

const FIXED_ENABLED: u64 = 1 << DEF_TYPE_FE;

const ENABLED: u64 = 1 << DEF_TYPE_E;

fn colon_number(word: &[u8]) -> Option<u64>
    ensures { result ≡ colon_number word.now }
{
    match word.strip_suffix(b":") {
        Some(word) => prefixed_number(word),
        None => None,
    }
}

fn fixed_16k_named(word: &[u8]) -> Option<u32>
    ensures { result ≡ fixed_16k_named word.now }
{
    if is_text(b"IA32_MTRR_FIX64K_00000", word) {
        Some(0x250)
    } else if is_text(b"IA32_MTRR_FIX16K_80000", word) {
        Some(0x258)
    } else if is_text(b"IA32_MTRR_FIX16K_A0000", word) {
        Some(0x259)
    } else {
        None
    }
}

fn fixed_4k_by(digits: &[u8]) -> Option<u32>
    ensures { result ≡ fixed_4k_by digits.now }
{
    if is_text(b"C0000", digits) {
        Some(0x268)
    } else if is_text(b"C8000", digits) {
        Some(0x269)
    } else if is_text(b"D0000", digits) {
        Some(0x26a)
    } else if is_text(b"D8000", digits) {
        Some(0x26b)
    } else if is_text(b"E0000", digits) {
        Some(0x26c)
    } else if is_text(b"E8000", digits) {
        Some(0x26d)
    } else if is_text(b"F0000", digits) {
        Some(0x26e)
    } else if is_text(b"F8000", digits) {
        Some(0x26f)
    } else {
        None
    }
}

fn of_pair(first: u32, pair: Result<u64, NumberFault>) -> Option<u32>
    requires first { first ≤ 0x201 }
    requires few { IfOk pair (λ pair. pair ≤ 31) }
    ensures { result ≡ of_pair first pair }
{
    match pair {
        Ok(pair) => Some(first + 2 * pair as u32),
        Err(_) => None,
    }
}

fn pair_digits(digits: &[u8]) -> Result<u64, NumberFault>
    ensures pair { result ≡ pair_digits digits.now }
    ensures few { IfOk result (λ pair. pair ≤ 31) }
{
    decimal(without_ending(digits, b':'), MOST_PAIRS)
}

fn register_named(word: &[u8]) -> Option<u32>
    ensures { result ≡ register_named word.now }
{
    if is_text(b"IA32_MTRRCAP:", word) {
        return Some(CAPABILITIES);
    }
    if is_text(b"IA32_MTRR_DEF_TYPE:", word) {
        return Some(DEFAULT_TYPE);
    }
    if let Some(digits) = word.strip_prefix(b"PHYBASE") {
        return of_pair(FIRST_PAIR, pair_digits(digits));
    }
    if let Some(digits) = word.strip_prefix(b"PHYMASK") {
        return of_pair(FIRST_MASK, pair_digits(digits));
    }
    match word.strip_prefix(b"IA32_MTRR_FIX4K_") {
        Some(digits) => fixed_4k_by(digits),
        None => fixed_16k_named(word),
    }
}

fn displayed_from(first: usize, line: &Line<'_>) -> LineSays
    requires { first ≤ 8 }
    ensures { result ≡ displayed_from first line.now.number (words_of line.now.bytes.now) }
{
    shows_one(
        None,
        register_named(word_text(line, first + 1)),
        colon_number(word_text(line, first)),
        word_place(line, first),
    )
}

fn is_fixed(first: usize, line: &Line<'_>) -> bool
    requires { first ≤ 8 }
    ensures { result ≡ is_fixed first (words_of line.now.bytes.now) }
{
    word_is(line, first, b"Fixed") && word_is(line, first + 1, b"MSR")
}

fn fixed_from(processor: Option<u32>, first: usize, line: &Line<'_>) -> LineSays
    requires { first ≤ 8 }
    ensures { result ≡ fixed_from processor first line.now.number (words_of line.now.bytes.now) }
{
    shows_one(
        processor,
        prefixed_register(word_text(line, first + 2)),
        whole_number(VALUE_SIZE, word_text(line, first + 3)),
        word_place(line, first + 3),
    )
}

fn is_pair(first: usize, line: &Line<'_>) -> bool
    requires { first ≤ 8 }
    ensures { result ≡ is_pair first (words_of line.now.bytes.now) }
{
    word_is(line, first + 1, b"base")
        && word_is(line, first + 3, b"mask")
        && word_is(line, first + 5, b"type")
}

fn is_page(address: u64) -> bool
    ensures { result ≡ is_page address }
{
    address < 0x10_0000_0000_0000 && address % PAGE_BYTES == 0
}

// PhysBase, with the type in its low byte.
fn base_value(base: Option<u64>, kind: Result<u64, NumberFault>) -> Option<u64>
    requires { IfOk kind (λ kind. kind ≤ 255) }
    ensures { result ≡ base_value base kind }
{
    match (base, kind) {
        (Some(base), Ok(kind)) if is_page(base) => Some(base + kind),
        _ => None,
    }
}

// PhysMask, with V set.
fn mask_value(mask: Option<u64>) -> Option<u64>
    ensures { result ≡ mask_value mask }
{
    match mask {
        Some(mask) if is_page(mask) => Some(mask + VALID),
        _ => None,
    }
}

fn shows_pair(
    pair: Result<u64, NumberFault>,
    base_place: Place,
    base: Option<u64>,
    mask_place: Place,
    mask: Option<u64>,
) -> LineSays
    requires { IfOk pair (λ pair. pair ≤ 31) }
    ensures { result ≡ shows_pair pair base_place base mask_place mask }
{
    let Ok(pair) = pair else {
        return LineSays::Nothing;
    };
    let Some(base) = base else {
        return LineSays::Nothing;
    };
    let Some(mask) = mask else {
        return LineSays::Nothing;
    };
    let base = shown_as(FIRST_PAIR + 2 * pair as u32, base, base_place);
    let mask = shown_as(FIRST_MASK + 2 * pair as u32, mask, mask_place);
    LineSays::Shows(None, two_shown(base, mask))
}

fn pair_from(first: usize, line: &Line<'_>) -> LineSays
    requires { first ≤ 8 }
    ensures { result ≡ pair_from first line.now.number (words_of line.now.bytes.now) }
{
    let base = prefixed_number(word_text(line, first + 2));
    let mask = prefixed_number(word_text(line, first + 4));
    let kind = decimal(word_text(line, first + 6), 255);
    shows_pair(
        decimal(word_text(line, first), MOST_PAIRS),
        word_place(line, first + 2),
        base_value(base, kind),
        word_place(line, first + 4),
        mask_value(mask),
    )
}

fn is_size(first: usize, line: &Line<'_>) -> bool
    requires { first ≤ 8 }
    ensures { result ≡ is_size first (words_of line.now.bytes.now) }
{
    word_is(line, first, b"CPU")
        && word_is(line, first + 1, b"physical")
        && word_is(line, first + 2, b"address")
        && word_is(line, first + 3, b"size:")
        && word_is(line, first + 5, b"bits")
}

fn size_from(first: usize, line: &Line<'_>) -> LineSays
    requires { first ≤ 8 }
    ensures { result ≡ size_from first line.now.number (words_of line.now.bytes.now) }
{
    if is_size(first, line) {
        shows_width(
            decimal(word_text(line, first + 4), 255),
            word_place(line, first + 4),
        )
    } else {
        LineSays::Nothing
    }
}

// `WB selected as default type.`
fn is_default(first: usize, line: &Line<'_>) -> bool
    requires { first ≤ 8 }
    ensures { result ≡ is_default first (words_of line.now.bytes.now) }
{
    word_is(line, first + 1, b"selected")
        && word_is(line, first + 2, b"as")
        && word_is(line, first + 3, b"default")
        && word_is(line, first + 4, b"type.")
}

fn default_named(word: &[u8]) -> Option<u8>
    ensures { result ≡ default_named word.now }
{
    if is_text(b"WB", word) {
        Some(6)
    } else if is_text(b"UC", word) {
        Some(0)
    } else {
        None
    }
}

fn default_from(first: usize, line: &Line<'_>) -> LineSays
    requires { first ≤ 8 }
    ensures { result ≡ default_from first line.now.number (words_of line.now.bytes.now) }
{
    let code = default_named(word_text(line, first));
    LineSays::Begins(one_shown(default_shown(code, word_place(line, first))))
}

fn flag_said(bit: u64, word: &[u8], place: Place) -> LineSays
    ensures { result ≡ flag_said bit word.now place }
{
    if is_text(b"Enabled", word) {
        LineSays::Shows(None, one_shown(shown_bits(DEFAULT_TYPE, bit, bit, place)))
    } else if is_text(b"Disabled", word) {
        LineSays::Shows(None, one_shown(shown_bits(DEFAULT_TYPE, bit, 0, place)))
    } else {
        LineSays::Nothing
    }
}

// `Fixed MTRRs   : Enabled`
fn is_fixed_flag(first: usize, line: &Line<'_>) -> bool
    requires { first ≤ 8 }
    ensures { result ≡ is_fixed_flag first (words_of line.now.bytes.now) }
{
    word_is(line, first, b"Fixed")
        && word_is(line, first + 1, b"MTRRs")
        && word_is(line, first + 2, b":")
}

// `Variable MTRRs: Enabled`
fn is_variable_flag(first: usize, line: &Line<'_>) -> bool
    requires { first ≤ 8 }
    ensures { result ≡ is_variable_flag first (words_of line.now.bytes.now) }
{
    word_is(line, first, b"Variable") && word_is(line, first + 1, b"MTRRs:")
}

fn other_from(first: usize, line: &Line<'_>) -> LineSays
    requires { first ≤ 8 }
    ensures { result ≡ other_from first line.now.number (words_of line.now.bytes.now) }
{
    if is_fixed_flag(first, line) {
        let place = word_place(line, first + 3);
        flag_said(FIXED_ENABLED, word_text(line, first + 3), place)
    } else if is_variable_flag(first, line) {
        let place = word_place(line, first + 2);
        flag_said(ENABLED, word_text(line, first + 2), place)
    } else {
        displayed_from(first, line)
    }
}

// Behind `MTRR:`.
fn set_from(first: usize, line: &Line<'_>) -> LineSays
    requires { first ≤ 8 }
    ensures { result ≡ set_from first line.now.number (words_of line.now.bytes.now) }
{
    if is_fixed(first, line) {
        fixed_from(None, first, line)
    } else if is_pair(first, line) {
        pair_from(first, line)
    } else if is_default(first, line) {
        default_from(first, line)
    } else {
        LineSays::Nothing
    }
}

fn fixed_of(id: Option<u64>, first: usize, line: &Line<'_>) -> LineSays
    requires { first ≤ 8 }
    ensures { result ≡ fixed_of id first line.now.number (words_of line.now.bytes.now) }
{
    match id {
        Some(id) if id < IDS => fixed_from(Some(id as u32), first, line),
        _ => LineSays::Nothing,
    }
}

fn is_fixed_of(first: usize, line: &Line<'_>) -> bool
    requires { first ≤ 4 }
    ensures { result ≡ is_fixed_of first (words_of line.now.bytes.now) }
{
    word_is(line, first + 1, b"MTRR:") && is_fixed(first + 2, line)
}

fn is_setup(first: usize, line: &Line<'_>) -> bool
    requires { first ≤ 4 }
    ensures { result ≡ is_setup first (words_of line.now.bytes.now) }
{
    word_is(line, first + 1, b"setup")
        && word_is(line, first + 2, b"mtrr")
        && word_is(line, first + 3, b"for")
}

// Behind `apic_id`.
fn said_of_id(first: usize, line: &Line<'_>) -> LineSays
    requires { first ≤ 4 }
    ensures { result ≡ said_of_id first line.now.number (words_of line.now.bytes.now) }
{
    if is_fixed_of(first, line) {
        fixed_of(colon_number(word_text(line, first)), first + 2, line)
    } else if is_setup(first, line) {
        size_from(first + 4, line)
    } else {
        LineSays::Nothing
    }
}

fn said_from(first: usize, line: &Line<'_>) -> LineSays
    requires { first ≤ 1 }
    ensures { result ≡ said_from first line.now.number (words_of line.now.bytes.now) }
{
    let word = word_text(line, first);
    if is_text(b"apic_id", word) {
        said_of_id(first + 1, line)
    } else if is_text(b"MTRR:", word) {
        set_from(first + 1, line)
    } else if is_text(b"CPU", word) {
        size_from(first, line)
    } else {
        other_from(first, line)
    }
}

fn level_words(line: &Line<'_>) -> usize
    ensures words { result ≡ level_words (words_of line.now.bytes.now) }
    ensures few { result ≤ 1 }
{
    if word_is(line, 0, b"[DEBUG]") { 1 } else { 0 }
}

/// What a line says.
pub(crate) fn coreboot_said(line: &Line<'_>) -> LineSays
    ensures { result ≡ coreboot_said line.now.number line.now.bytes.now }
{
    said_from(level_words(line), line)
}
