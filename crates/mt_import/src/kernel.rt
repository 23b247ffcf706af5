ghost use Rattle.std.specs.Prelude.{◌≡◌, ◌≤◌, ◌<◌, ◌+◌, IfSome};
ghost use Rattle.mt_import.specs.Kernel.{addresses_said, all_fixed_shown, base_value, default_shown, disabled_said, enabled_by, fixed_by, fixed_said, fixed_shown, head_said, in_run, kernel_said, mask_value, pair_said, range_at, range_from, run_bytes, run_said, type_named, types_said, variable_said};

use crate::line_words::LineWords;
use crate::pieces::{is_text, number_in, shown_bits, value_at};
use crate::reading::{one_shown, two_shown};
use crate::shape::FixedRun;
use crate::{LineSays, Shown, Shows};
use mt_kinds::{PAGE_BYTES, PHYSMASK_V};
use mt_regs::{DEFAULT_TYPE, FIRST_PAIR};
use mt_text::{Place, decimal, hex64};

const VALID: u64 = 1 << PHYSMASK_V;

// All of IA32_MTRR_DEF_TYPE but FE and E.
const DEFAULT_BITS: u64 = 0xffff_ffff_ffff_f3ff;

/// The code of a memory type by its name.
pub(crate) fn type_named(word: &[u8]) -> Option<u8>
    ensures code { result ≡ type_named word.now }
    ensures small { IfSome result (λ code. code ≤ 6) }
{
    if is_text(b"uncachable", word) {
        Some(0)
    } else if is_text(b"write-combining", word) {
        Some(1)
    } else if is_text(b"write-through", word) {
        Some(4)
    } else if is_text(b"write-protect", word) {
        Some(5)
    } else if is_text(b"write-back", word) {
        Some(6)
    } else {
        None
    }
}

fn enabled_by(word: &[u8]) -> Option<bool>
    ensures { result ≡ enabled_by word.now }
{
    if is_text(b"enabled:", word) {
        Some(true)
    } else if is_text(b"disabled:", word) {
        Some(false)
    } else {
        None
    }
}

fn fixed_said(is_alone: bool, place: Place, enabled: Option<bool>) -> LineSays
    ensures { result ≡ fixed_said is_alone place enabled }
{
    match enabled {
        Some(is_enabled) => LineSays::FixedRanges(is_enabled, is_alone, place),
        None => LineSays::Nothing,
    }
}

fn variable_said(place: Place, enabled: Option<bool>) -> LineSays
    ensures { result ≡ variable_said place enabled }
{
    match enabled {
        Some(is_enabled) => LineSays::VariableRanges(is_enabled, place),
        None => LineSays::Nothing,
    }
}

/// The default type, and the reserved bits of its register.
pub(crate) fn default_shown(code: Option<u8>, place: Place) -> Option<Shown>
    ensures { result ≡ default_shown code place }
{
    match code {
        Some(code) => shown_bits(DEFAULT_TYPE, DEFAULT_BITS, code as u64, place),
        None => None,
    }
}

fn head_said(alone: bool, words: &LineWords<'_>) -> LineSays
    ensures { result ≡ head_said alone words.now.number words.now.words }
{
    if words.is(1, b"default") && words.is(2, b"type:") {
        let code = type_named(words.text(3));
        LineSays::Begins(one_shown(default_shown(code, words.place(3))))
    } else if !words.is(2, b"ranges") {
        LineSays::Nothing
    } else if words.is(1, b"fixed") {
        fixed_said(alone, words.place(3), enabled_by(words.text(3)))
    } else if words.is(1, b"variable") {
        variable_said(words.place(3), enabled_by(words.text(3)))
    } else {
        LineSays::Nothing
    }
}

fn range_from(first: u32, offset: u32, size: u32) -> Option<u32>
    requires some { 0 < size }
    requires fits { first + offset < 0x200000 }
    ensures { result ≡ range_from first offset size }
{
    if offset % size == 0 {
        Some(first + offset / size)
    } else {
        None
    }
}

fn range_at(address: u64) -> Option<u32>
    ensures { result ≡ range_at address }
{
    if address < 0x80000 {
        range_from(0, address as u32, 0x10000)
    } else if address < 0xc0000 {
        range_from(8, (address - 0x80000) as u32, 0x4000)
    } else if address > 0x100000 {
        None
    } else {
        range_from(24, (address - 0xc0000) as u32, 0x1000)
    }
}

fn in_run(first: u32, end: u32, i: u32) -> u64
    ensures bit { result ≡ in_run first end i }
    ensures small { result ≤ 1 }
{
    if first <= i && i < end { 1 } else { 0 }
}

// A byte of 1 for each of the eight ranges from this one on that the run has.
fn run_bytes(first: u32, end: u32, at: u32) -> u64
    requires { at ≤ 80 }
    ensures bytes { result ≡ run_bytes first end at }
    ensures small { result ≤ 0x101010101010101 }
{
    in_run(first, end, at)
        + 0x100 * in_run(first, end, at + 1)
        + 0x10000 * in_run(first, end, at + 2)
        + 0x100_0000 * in_run(first, end, at + 3)
        + 0x1_0000_0000 * in_run(first, end, at + 4)
        + 0x100_0000_0000 * in_run(first, end, at + 5)
        + 0x1_0000_0000_0000 * in_run(first, end, at + 6)
        + 0x100_0000_0000_0000 * in_run(first, end, at + 7)
}

fn fixed_by(number: u32, bytes: u64, code: u8, place: Place) -> Option<Shown>
    requires small { bytes ≤ 0x101010101010101 }
    requires code { code ≤ 6 }
    ensures { result ≡ fixed_by number bytes code place }
{
    if bytes == 0 {
        None
    } else {
        shown_bits(number, 255 * bytes, code as u64 * bytes, place)
    }
}

fn fixed_shown(run: &FixedRun, at: u32, number: u32) -> Option<Shown>
    requires within { at ≤ 80 }
    requires code { run.now.code ≤ 6 }
    ensures { result ≡ fixed_shown run.now at number }
{
    fixed_by(
        number,
        run_bytes(run.first, run.end, at),
        run.code,
        run.place,
    )
}

// All that a run shows.
fn all_fixed_shown(run: &FixedRun) -> Shows
    requires { run.now.code ≤ 6 }
    ensures { result ≡ all_fixed_shown run.now }
{
    [
        fixed_shown(run, 0, 0x250),
        fixed_shown(run, 8, 0x258),
        fixed_shown(run, 16, 0x259),
        fixed_shown(run, 24, 0x268),
        fixed_shown(run, 32, 0x269),
        fixed_shown(run, 40, 0x26a),
        fixed_shown(run, 48, 0x26b),
        fixed_shown(run, 56, 0x26c),
        fixed_shown(run, 64, 0x26d),
        fixed_shown(run, 72, 0x26e),
        fixed_shown(run, 80, 0x26f),
    ]
}

fn types_said(first: Option<u32>, end: Option<u32>, code: Option<u8>, place: Place) -> LineSays
    requires { IfSome code (λ code. code ≤ 6) }
    ensures { result ≡ types_said first end code place }
{
    let Some(first) = first else {
        return LineSays::Nothing;
    };
    let Some(end) = end else {
        return LineSays::Nothing;
    };
    let Some(code) = code else {
        return LineSays::Nothing;
    };
    if first < end {
        let run = FixedRun {
            first,
            end,
            code,
            place,
        };
        LineSays::Shows(Some(0), all_fixed_shown(&run))
    } else {
        LineSays::Nothing
    }
}

fn addresses_said(first: Option<u64>, last: Option<u64>, code: Option<u8>, place: Place) -> LineSays
    requires { IfSome code (λ code. code ≤ 6) }
    ensures { result ≡ addresses_said first last code place }
{
    match (first, last) {
        (Some(first), Some(last)) if last < 0x100000 => {
            types_said(range_at(first), range_at(last + 1), code, place)
        }
        _ => LineSays::Nothing,
    }
}

fn run_said(words: &LineWords<'_>) -> LineSays
    ensures { result ≡ run_said words.now.number words.now.words }
{
    let addresses = words.text(0);
    if addresses.len() == 11 && is_text(b"-", &addresses[5..6]) {
        let first = number_in(hex64(&addresses[..5]));
        let last = number_in(hex64(&addresses[6..]));
        addresses_said(first, last, type_named(words.text(1)), words.place(1))
    } else {
        LineSays::Nothing
    }
}

/// PhysBase by its page's address and its type.
pub(crate) fn base_value(base: Option<u64>, code: Option<u8>) -> Option<u64>
    requires { IfSome code (λ code. code ≤ 6) }
    ensures { result ≡ base_value base code }
{
    match (base, code) {
        (Some(base), Some(code)) if base % PAGE_BYTES == 0 => Some(base + code as u64),
        _ => None,
    }
}

fn mask_value(mask: Option<u64>) -> Option<u64>
    ensures { result ≡ mask_value mask }
{
    match mask {
        Some(mask) if mask % PAGE_BYTES == 0 => Some(mask + VALID),
        _ => None,
    }
}

fn pair_said(pair: Option<u64>, words: &LineWords<'_>) -> LineSays
    requires { IfSome pair (λ pair. pair < 32) }
    ensures { result ≡ pair_said pair words.now.number words.now.words }
{
    let Some(pair) = pair else {
        return LineSays::Nothing;
    };
    let number = FIRST_PAIR + 2 * pair as u32;
    let base = base_value(number_in(hex64(words.text(2))), type_named(words.text(5)));
    let mask = mask_value(number_in(hex64(words.text(4))));
    LineSays::Shows(
        Some(0),
        two_shown(
            value_at(number, words.place(2), base),
            value_at(number + 1, words.place(4), mask),
        ),
    )
}

fn disabled_said(pair: Option<u64>, place: Place) -> LineSays
    requires { IfSome pair (λ pair. pair < 32) }
    ensures { result ≡ disabled_said pair place }
{
    match pair {
        Some(pair) => {
            let number = FIRST_PAIR + 1 + 2 * pair as u32;
            LineSays::Shows(Some(0), one_shown(shown_bits(number, VALID, 0, place)))
        }
        None => LineSays::Nothing,
    }
}

/// What a line of these words says. `alone` tells whether the line on fixed ranges shows FE also
/// without E.
pub(crate) fn kernel_said(alone: bool, words: &LineWords<'_>) -> LineSays
    ensures { result ≡ kernel_said alone words.now.number words.now.words }
{
    let count = words.count();
    if count == 4 && words.is(0, b"MTRR") {
        head_said(alone, words)
    } else if count == 2 && words.is(1, b"disabled") {
        disabled_said(number_in(decimal(words.text(0), 31)), words.place(1))
    } else if count == 2 {
        run_said(words)
    } else if count == 6 && words.is(1, b"base") && words.is(3, b"mask") {
        pair_said(number_in(decimal(words.text(0), 31)), words)
    } else {
        LineSays::Nothing
    }
}
