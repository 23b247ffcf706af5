ghost use Rattle.std.specs.Prelude.{◌≡◌, ◌≤◌, ◌<◌, ◌^◌, codes, length, IfSome};
ghost use Rattle.mt_import.specs.Pieces.{before, behind};
ghost use Rattle.mt_import.specs.Linux.{amount_by, amount_in, amount_text, amount_word, bytes_value, cleanup_said, cleanup_type, count_said, cut_before, entries_from, entries_in, entry_named, is_cleanup, is_configuration, is_count, is_map, is_pat_change, is_pat_name, is_size, linux_said, linux_words_said, map_count, map_pairs, map_said, number_behind, pair_before, pair_by, pair_numbered, pair_shown, pat_changed, pat_from, pat_said, pat_word, region_by, region_said, size_shown, size_word, type_in, unit_named};

use crate::kernel::{base_value, kernel_said, type_named};
use crate::line_words::{LineWords, head_end};
use crate::pieces::{is_text, number_in, prefixed_number, shown_bits, shows_one, value_at};
use crate::reading::{one_shown, two_shown};
use crate::{LineSays, Shown};
use mt_kinds::PHYSMASK_V;
use mt_regs::{CAPABILITIES, FIRST_PAIR, PAT};
use mt_text::{Line, Place, decimal, hex64};

const VALID: u64 = 1 << PHYSMASK_V;

// A map has fewer entries: 88 fixed ranges, and two for each of 255 pairs and TOM2.
const MOST_ENTRIES: u64 = 999;

fn entry_named(word: &[u8]) -> Option<u8>
    ensures { result ≡ entry_named word.now }
{
    if is_text(b"UC", word) {
        Some(0)
    } else if is_text(b"WC", word) {
        Some(1)
    } else if is_text(b"WT", word) {
        Some(4)
    } else if is_text(b"WP", word) {
        Some(5)
    } else if is_text(b"WB", word) {
        Some(6)
    } else if is_text(b"UC-", word) {
        Some(7)
    } else {
        None
    }
}

// The eight words from this one on.
fn entries_from(at: u8, words: &LineWords<'_>) -> [Option<u8>; 8]
    requires { at ≤ 4 }
    ensures { result ≡ entries_from at words.now.words }
{
    [
        entry_named(words.text(at)),
        entry_named(words.text(at + 1)),
        entry_named(words.text(at + 2)),
        entry_named(words.text(at + 3)),
        entry_named(words.text(at + 4)),
        entry_named(words.text(at + 5)),
        entry_named(words.text(at + 6)),
        entry_named(words.text(at + 7)),
    ]
}

// The value of bytes, the lowest first, where each is known.
fn bytes_value(bytes: &[Option<u8>]) -> Option<u64>
    requires { length bytes.now ≤ 8 }
    ensures value { result ≡ bytes_value bytes.now }
    ensures fits { IfSome result (λ value. value < 256 ^ length bytes.now) }
{
    let Some((byte, bytes)) = bytes.split_first() else {
        return Some(0);
    };
    match (byte, bytes_value(bytes)) {
        (Some(byte), Some(high)) => Some(*byte as u64 + 256 * high),
        _ => None,
    }
}

fn is_pat_name(word: &[u8]) -> bool
    ensures { result ≡ is_pat_name word.now }
{
    is_text(b"x86/PAT:", word) || is_text(b"x86:", word) || is_text(b"PAT", word)
}

fn is_configuration(word: &[u8]) -> bool
    ensures { result ≡ is_configuration word.now }
{
    is_text(b"Configuration", word) || is_text(b"configuration", word)
}

// Behind `[0-7]:`, the word of this number.
fn pat_from(at: u8, words: &LineWords<'_>) -> LineSays
    requires some { 1 ≤ at }
    requires few { at ≤ 3 }
    ensures { result ≡ pat_from at words.now.number words.now.words }
{
    if words.count() == at as usize + 9
        && words.is(at, b"[0-7]:")
        && is_configuration(words.text(at - 1))
    {
        let value = bytes_value(&entries_from(at + 1, words));
        shows_one(Some(0), Some(PAT), value, words.place(at + 1))
    } else {
        LineSays::Nothing
    }
}

// The word `[0-7]:`, if the line has it.
fn pat_word(words: &LineWords<'_>) -> u8
    ensures word { result ≡ pat_word words.now.words }
    ensures some { 1 ≤ result }
    ensures few { result ≤ 3 }
{
    if words.is(2, b"[0-7]:") { 2 } else { 3 }
}

fn pat_said(words: &LineWords<'_>) -> LineSays
    ensures { result ≡ pat_said words.now.number words.now.words }
{
    pat_from(pat_word(words), words)
}

fn is_pat_change(words: &LineWords<'_>) -> bool
    ensures { result ≡ is_pat_change words.now.words }
{
    words.count() == 9
        && words.is(1, b"PAT")
        && words.is(2, b"enabled:")
        && words.is(3, b"cpu")
        && words.is(4, b"0,")
        && words.is(5, b"old")
        && words.is(7, b"new")
}

// `x86 PAT enabled: cpu 0, old 0x7040600070406, new 0x7010600070106`
fn pat_changed(words: &LineWords<'_>) -> LineSays
    ensures { result ≡ pat_changed words.now.number words.now.words }
{
    if is_pat_change(words) {
        let value = prefixed_number(words.text(8));
        shows_one(Some(0), Some(PAT), value, words.place(8))
    } else {
        LineSays::Nothing
    }
}

fn unit_named(letters: &[u8]) -> Option<u64>
    ensures unit { result ≡ unit_named letters.now }
    ensures small { IfSome result (λ unit. unit ≤ 0x40000000) }
{
    if is_text(b"KB", letters) {
        Some(0x400)
    } else if is_text(b"MB", letters) {
        Some(0x10_0000)
    } else if is_text(b"GB", letters) {
        Some(0x4000_0000)
    } else {
        None
    }
}

// `2048MB`
fn amount_in(word: &[u8]) -> Option<u64>
    ensures { result ≡ amount_in word.now }
{
    if word.len() < 3 {
        return None;
    }
    let (digits, letters) = word.split_at(word.len() - 2);
    match (decimal(digits, 0xffff_ffff), unit_named(letters)) {
        (Ok(count), Some(unit)) => Some(count * unit),
        _ => None,
    }
}

// `2048MB` before an ending.
fn amount_before(end: &[u8], word: &[u8]) -> Option<u64>
    ensures { result ≡ amount_by (before end.now word.now) }
{
    match word.strip_suffix(end) {
        Some(word) => amount_in(word),
        None => None,
    }
}

// A power of 2, of whole pages.
fn is_size(size: u64) -> bool
    ensures { result ≡ is_size size }
{
    0xfff < size && size < 0x10_0000_0000_0000 && size & (size - 1) == 0
}

// The bits of PhysMask that a size shows.
fn size_shown(pair: u8, place: Place, size: Option<u64>) -> Option<Shown>
    requires { pair < 32 }
    ensures { result ≡ size_shown pair place size }
{
    match size {
        Some(size) if is_size(size) => {
            let number = FIRST_PAIR + 1 + 2 * pair as u32;
            shown_bits(number, 2 * size - 1, size + VALID, place)
        }
        _ => None,
    }
}

fn pair_shown(
    pair: Option<u64>,
    base_place: Place,
    base: Option<u64>,
    size_place: Place,
    size: Option<u64>,
) -> LineSays
    requires { IfSome pair (λ pair. pair < 32) }
    ensures { result ≡ pair_shown pair base_place base size_place size }
{
    let Some(pair) = pair else {
        return LineSays::Nothing;
    };
    let base = value_at(FIRST_PAIR + 2 * pair as u32, base_place, base);
    LineSays::Shows(
        Some(0),
        two_shown(base, size_shown(pair as u8, size_place, size)),
    )
}

// The number of a pair by its two digits, where this text stands behind them.
fn pair_before(end: &[u8], word: &[u8]) -> Option<u64>
    ensures pair { result ≡ pair_before end.now word.now }
    ensures few { IfSome result (λ k. k < 32) }
{
    if word.len() < 2 {
        return None;
    }
    let (digits, rest) = word.split_at(2);
    if !is_text(end, rest) {
        return None;
    }
    number_in(decimal(digits, 31))
}

/// The number of a pair behind one text, and before another.
pub(crate) fn pair_numbered(head: &[u8], end: &[u8], word: &[u8]) -> Option<u64>
    ensures pair { result ≡ pair_numbered head.now end.now word.now }
    ensures few { IfSome result (λ k. k < 32) }
{
    match word.strip_prefix(head) {
        Some(digits) => pair_before(end, digits),
        None => None,
    }
}

// A hexadecimal number behind a text.
fn number_behind(head: &[u8], word: &[u8]) -> Option<u64>
    ensures { result ≡ number_behind head.now word.now }
{
    match word.strip_prefix(head) {
        Some(digits) => number_in(hex64(digits)),
        None => None,
    }
}

// The word that begins with `size=`.
fn size_word(words: &LineWords<'_>) -> u8
    ensures word { result ≡ size_word words.now.words }
    ensures few { result ≤ 4 }
{
    if words.is(2, b"(") { 4 } else { 3 }
}

// The word that has its amount.
fn amount_word(words: &LineWords<'_>) -> u8
    ensures word { result ≡ amount_word words.now.words }
    ensures few { result ≤ 5 }
{
    let at = size_word(words);
    if words.is(at, b"size=") { at + 1 } else { at }
}

// The amount of a region, before this ending.
fn amount_of(end: &[u8], words: &LineWords<'_>) -> Option<u64>
    ensures { result ≡ amount_by (cut_before end.now (amount_text words.now.words)) }
{
    let at = size_word(words);
    if words.is(at, b"size=") {
        return amount_before(end, words.text(at + 1));
    }
    match words.text(at).strip_prefix(b"size=") {
        Some(word) => amount_before(end, word),
        None => None,
    }
}

fn is_count(word: &[u8]) -> bool
    ensures { result ≡ is_count word.now }
{
    word.strip_prefix(b"count=").is_some()
}

// The type of a memory type's name before a comma.
fn type_before_comma(word: &[u8]) -> Option<u8>
    ensures code { result ≡ type_in (before (codes ",") word.now) }
    ensures small { IfSome result (λ code. code ≤ 6) }
{
    match word.strip_suffix(b",") {
        Some(word) => type_named(word),
        None => None,
    }
}

fn region_by(size: Option<u64>, code: Option<u8>, words: &LineWords<'_>) -> LineSays
    requires { IfSome code (λ code. code ≤ 6) }
    ensures { result ≡ region_by size code words.now.number words.now.words }
{
    let base = number_behind(b"base=", words.text(1));
    pair_shown(
        pair_numbered(b"reg", b":", words.text(0)),
        words.place(1),
        base_value(base, code),
        words.place(amount_word(words)),
        size,
    )
}

fn region_said(words: &LineWords<'_>) -> LineSays
    ensures { result ≡ region_said words.now.number words.now.words }
{
    let at = amount_word(words);
    if words.count() != at as usize + 3 {
        LineSays::Nothing
    } else if is_count(words.text(at + 1)) {
        let code = type_named(words.text(at + 2));
        region_by(amount_of(b",", words), code, words)
    } else if is_count(words.text(at + 2)) {
        let code = type_before_comma(words.text(at + 1));
        region_by(amount_of(b":", words), code, words)
    } else {
        LineSays::Nothing
    }
}

fn is_cleanup(words: &LineWords<'_>) -> bool
    ensures { result ≡ is_cleanup words.now.words }
{
    words.count() == 8 && words.is(2, b"base:") && words.is(4, b"range:") && words.is(6, b"type")
}

fn pair_before_comma(word: &[u8]) -> Option<u64>
    ensures pair { result ≡ pair_by (before (codes ",") word.now) }
    ensures few { IfSome result (λ pair. pair < 32) }
{
    match word.strip_suffix(b",") {
        Some(digits) => number_in(decimal(digits, 31)),
        None => None,
    }
}

fn cleanup_type(word: &[u8]) -> Option<u8>
    ensures code { result ≡ cleanup_type word.now }
    ensures small { IfSome result (λ code. code ≤ 6) }
{
    if is_text(b"UC", word) {
        Some(0)
    } else if is_text(b"WP", word) {
        Some(5)
    } else if is_text(b"WB", word) {
        Some(6)
    } else {
        type_named(word)
    }
}

// `reg 0, base: 2GB, range: 256MB, type UC`, of the cleanup.
fn cleanup_said(words: &LineWords<'_>) -> LineSays
    ensures { result ≡ cleanup_said words.now.number words.now.words }
{
    if !is_cleanup(words) {
        return LineSays::Nothing;
    }
    let base = amount_before(b",", words.text(3));
    pair_shown(
        pair_before_comma(words.text(1)),
        words.place(3),
        base_value(base, cleanup_type(words.text(7))),
        words.place(5),
        amount_before(b",", words.text(5)),
    )
}

fn is_map(words: &LineWords<'_>) -> bool
    ensures { result ≡ is_map words.now.words }
{
    words.count() == 16
        && words.is(1, b"map:")
        && words.is(5, b"fixed")
        && words.is(9, b"max")
        && words.is(11, b"built")
        && words.is(14, b"variable")
        && words.is(15, b"MTRRs")
}

// VCNT by the map's numbers, in both of which AMD's TOM2 may count.
fn map_pairs(fixed: u64, most: u64, count: u64) -> Option<u64>
    requires fixed { fixed ≤ 999 }
    requires most { most ≤ 999 }
    requires count { count ≤ 255 }
    ensures { result ≡ map_pairs fixed most count }
{
    if most == fixed + 2 * count {
        Some(count)
    } else if 0 < count && most + 1 == fixed + 2 * count {
        Some(count - 1)
    } else {
        None
    }
}

fn map_count(fixed: Option<u64>, most: Option<u64>, count: Option<u64>) -> Option<u64>
    requires fixed { IfSome fixed (λ n. n ≤ 999) }
    requires most { IfSome most (λ n. n ≤ 999) }
    requires count { IfSome count (λ n. n ≤ 255) }
    ensures { result ≡ map_count fixed most count }
{
    match (fixed, most, count) {
        (Some(fixed), Some(most), Some(count)) => map_pairs(fixed, most, count),
        _ => None,
    }
}

// `(3`
fn entries_behind(word: &[u8]) -> Option<u64>
    ensures entries { result ≡ entries_in (behind (codes "(") word.now) }
    ensures few { IfSome result (λ n. n ≤ 999) }
{
    match word.strip_prefix(b"(") {
        Some(digits) => number_in(decimal(digits, MOST_ENTRIES)),
        None => None,
    }
}

// `23),`
fn entries_before(word: &[u8]) -> Option<u64>
    ensures entries { result ≡ entries_in (before (codes "),") word.now) }
    ensures few { IfSome result (λ n. n ≤ 999) }
{
    match word.strip_suffix(b"),") {
        Some(digits) => number_in(decimal(digits, MOST_ENTRIES)),
        None => None,
    }
}

fn count_said(count: Option<u64>, place: Place) -> LineSays
    ensures { result ≡ count_said count place }
{
    match count {
        Some(count) => LineSays::Shows(
            Some(0),
            one_shown(shown_bits(CAPABILITIES, 0xff, count, place)),
        ),
        None => LineSays::Nothing,
    }
}

// `MTRR map: 5 entries (3 fixed + 2 variable; max 23), built from 10 variable MTRRs`
fn map_said(words: &LineWords<'_>) -> LineSays
    ensures { result ≡ map_said words.now.number words.now.words }
{
    let fixed = entries_behind(words.text(4));
    let most = entries_before(words.text(10));
    let count = number_in(decimal(words.text(13), 255));
    count_said(map_count(fixed, most, count), words.place(13))
}

fn linux_words_said(words: &LineWords<'_>) -> LineSays
    ensures { result ≡ linux_words_said words.now.number words.now.words }
{
    let word = words.text(0);
    if is_text(b"x86", word) {
        pat_changed(words)
    } else if is_pat_name(word) {
        pat_said(words)
    } else if is_text(b"reg", word) {
        cleanup_said(words)
    } else if word.strip_prefix(b"reg").is_some() {
        region_said(words)
    } else if is_map(words) {
        map_said(words)
    } else {
        kernel_said(false, words)
    }
}

/// What a line says.
pub(crate) fn linux_said(line: &Line<'_>) -> LineSays
    ensures { result ≡ linux_said line.now.number line.now.bytes.now }
{
    linux_words_said(&LineWords::behind(head_end(line), line))
}
