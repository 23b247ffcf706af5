ghost use Rattle.std.specs.Prelude.{◌≡◌, ◌≤◌, ◌<◌, ◌+◌, ◌*◌, ◌^◌, IfSome, Some};
ghost use Rattle.mt_regs.specs.RegisterFile.{low_byte};
ghost use Rattle.mt_import.specs.Reader.{IsFit, findings_in, firm_in, hint_in, slots_of, values_in};
ghost use Rattle.mt_kinds.specs.Bits.{is_bit_set};
ghost use Rattle.mt_import.specs.Outcome.{hint_by, known_by};
ghost use Rattle.mt_import.specs.Slot.{whole_value};
ghost use Rattle.mt_import.specs.Supplied.{supplied_value};
ghost use Rattle.mt_import.specs.Values.{assumed_capabilities, assumed_default, assumed_fixed, assumed_mask, assumed_of, assumed_pair, assumed_pat, assumed_value, assumed_zero, base_of, disabled_value, firm_value, firm_width, firmware_value, has_pairs, is_fixed_number, is_of_table, is_pair_number, is_unshown, lacks_fix, likely_flags, likely_type, mask_of, mask_of_size, masks_in, only_if, or_supplied, pair_count, shown_pairs, shows_fix_clear, shows_one_of, shows_pairs, shows_part, shows_uncached, size_in, uncached_pairs, uncached_with, widest, width_by, width_by_zeros};

use crate::shape::{Known, Slot};
use crate::supplied::Assumed;
use crate::{Format, LogReader, Supplied};
use mt_kinds::{DEF_TYPE_E, DEF_TYPE_FE, MTRRCAP_FIX, MTRRCAP_WC, PHYSMASK_V, is_bit_set};
use mt_regs::{CAPABILITIES, DEFAULT_TYPE, FIRST_PAIR, PAT, POWER_UP_PAT};

const FIRST_MASK: u32 = FIRST_PAIR + 1;

const VALID: u64 = 1 << PHYSMASK_V;

const FIXED_AND_COMBINING: u64 = (1 << MTRRCAP_FIX) + (1 << MTRRCAP_WC);

const ENABLED: u64 = 1 << DEF_TYPE_E;

const FIXED_ENABLED: u64 = 1 << DEF_TYPE_FE;

const FIXED_NUMBERS: [u32; 11] = [
    0x250, 0x258, 0x259, 0x268, 0x269, 0x26a, 0x26b, 0x26c, 0x26d, 0x26e, 0x26f,
];

// The value of IA32_PAT that Linux sets.
const LINUX_PAT: u64 = 0x0407_0506_0007_0106;

// The value of IA32_PAT that Xen sets.
const XEN_PAT: u64 = 0x0000_0501_0007_0406;

const PAIRS: u32 = 32;

const UNCACHEABLE: u64 = 0;

const WRITE_BACK: u64 = 6;

const MOST_BITS: u8 = 52;

fn width_by_zeros(zeros: u32) -> Option<u8>
    ensures width { result ≡ width_by_zeros zeros }
    ensures fit { IfSome result IsFit }
{
    if 12 <= zeros && zeros <= 32 {
        Some(64 - zeros as u8)
    } else {
        None
    }
}

fn or_supplied(value: Option<u64>, other: Option<u64>) -> Option<u64>
    ensures { result ≡ or_supplied value other }
{
    match value {
        Some(value) => Some(value),
        None => other,
    }
}

// A width, or else the greatest.
fn or_widest(width: Option<u8>) -> Option<u8>
    requires { IfSome width IsFit }
    ensures width { result ≡ or_supplied width (Some 52) }
    ensures fit { IfSome result (λ width. width ≤ 52) }
{
    match width {
        Some(width) => Some(width),
        None => Some(MOST_BITS),
    }
}

fn only_if(is_assumed: bool, value: Option<u64>) -> Option<u64>
    ensures { result ≡ only_if is_assumed value }
{
    if is_assumed { value } else { None }
}

/// Whether the register is of a pair.
pub(crate) fn is_pair_number(number: u32) -> bool
    ensures { result ≡ is_pair_number number }
{
    0x1ff < number && number < 0x240
}

/// Whether the register has a number between those of the fixed-range registers.
pub(crate) fn is_fixed_number(number: u32) -> bool
    ensures { result ≡ is_fixed_number number }
{
    0x24f < number && number < 0x270
}

// What SeaBIOS sets.
fn firmware_value(number: u32) -> u64
    ensures { result ≡ firmware_value number }
{
    if number == 0x259 {
        0
    } else if number < 0x260 {
        0x0606_0606_0606_0606
    } else {
        0x0505_0505_0505_0505
    }
}

fn base_of(number: u32) -> u32
    ensures { result ≡ base_of number }
{
    number / 2 * 2
}

fn mask_of(number: u32) -> u32
    requires { number < 0x1000 }
    ensures { result ≡ mask_of number }
{
    number / 2 * 2 + 1
}

fn power_of_two(exponent: u8) -> u64
    requires { exponent ≤ 52 }
    ensures { result ≡ 2 ^ exponent }
{
    1 << exponent
}

fn size_in(slot: &Slot) -> u64
    ensures { result ≡ size_in slot.now }
{
    slot.value.saturating_sub(VALID)
}

// The mask of a size, with ones up to the width.
fn mask_of_size(slot: &Slot, width: u8) -> Option<u64>
    requires { width ≤ 52 }
    ensures { result ≡ mask_of_size slot.now width }
{
    let size = size_in(slot);
    let limit = power_of_two(width);
    if 0xfff < size && size < limit && slot.bits == 2 * size - 1 {
        Some(limit - size + VALID)
    } else {
        None
    }
}

fn assumed_mask(slot: &Slot, width: Option<u8>) -> Option<u64>
    requires { IfSome width (λ width. width ≤ 52) }
    ensures { result ≡ assumed_mask slot.now width }
{
    match width {
        Some(width) => mask_of_size(slot, width),
        None => None,
    }
}

// The least width that has all bits of the masks, if a dump may have it.
pub(crate) fn widest(masks: u64) -> Option<u8>
    ensures width { result ≡ widest masks }
    ensures fit { IfSome result IsFit }
{
    width_by_zeros(masks.leading_zeros())
}

// The value of IA32_PAT that is assumed in a log of this format.
fn assumed_pat(format: Option<Format>) -> u64
    ensures { result ≡ assumed_pat format }
{
    match format {
        Some(Format::Linux) => LINUX_PAT,
        Some(Format::Xen) => XEN_PAT,
        _ => POWER_UP_PAT,
    }
}

// What may be assumed of a processor.
fn assumed_of(k: u32, assumed: Assumed) -> Assumed
    ensures { result ≡ assumed_of k assumed }
{
    if k == 0 {
        assumed
    } else {
        Assumed {
            masks: false,
            fixed: false,
            capabilities: false,
            ..assumed
        }
    }
}

// Whether lines show FIX or VCNT of a capability register, but not all of it.
fn shows_part(slot: &Slot) -> bool
    ensures { result ≡ shows_part slot.now }
{
    (is_bit_set(slot.value, MTRRCAP_FIX) || slot.bits % 256 == 255) && !slot.is_whole()
}

/// Whether a capability register is without FIX.
pub(crate) fn lacks_fix(capabilities: Option<u64>) -> bool
    ensures { result ≡ lacks_fix capabilities }
{
    match capabilities {
        Some(capabilities) => !is_bit_set(capabilities, MTRRCAP_FIX),
        None => false,
    }
}

// Whether lines show the type of a PhysBase as UC.
fn shows_uncached(base: &Slot) -> bool
    ensures { result ≡ shows_uncached base.now }
{
    base.bits % 256 == 255 && base.value % 256 == 0
}

// With one pair more, if it is used.
fn uncached_with(is_used: bool, is_uncached: bool, before: Option<bool>) -> Option<bool>
    ensures { result ≡ uncached_with is_used is_uncached before }
{
    if is_used {
        Some(is_uncached && before.unwrap_or(true))
    } else {
        before
    }
}

// E, and FE unless lines or a word have FIX as clear.
fn likely_flags(capabilities: &Slot, given: Option<u64>) -> u64
    ensures flags { result ≡ likely_flags capabilities.now given }
    ensures small { result ≤ 0xc00 }
{
    if shows_fix_clear(capabilities) || lacks_fix(given) {
        ENABLED
    } else {
        ENABLED + FIXED_ENABLED
    }
}

fn shows_fix_clear(slot: &Slot) -> bool
    ensures { result ≡ shows_fix_clear slot.now }
{
    is_bit_set(slot.bits, MTRRCAP_FIX) && !is_bit_set(slot.value, MTRRCAP_FIX)
}

fn is_of_table(slot: &Slot) -> bool
    ensures { result ≡ is_of_table slot.now }
{
    slot.is_whole() && 0 < slot.table
}

impl LogReader {
    fn disabled_value(&self, k: u32, number: u32) -> Option<u64>
        requires processor { k < 16 }
        requires number { number < 0x1000 }
        ensures { result ≡ disabled_value (slots_of self.now k) number }
    {
        if is_pair_number(number) && self.slot(k, mask_of(number)).is_disabled() {
            Some(0)
        } else {
            None
        }
    }

    /// The value of a processor's register, shown or else supplied.
    pub(crate) fn firm_value(&self, supplied: &Supplied, k: u32, number: u32) -> Option<u64>
        requires processor { k < 16 }
        requires number { number < 0x1000 }
        ensures { result ≡ firm_in supplied.now self.now k number }
    {
        let supplied = or_supplied(supplied.value(number), self.disabled_value(k, number));
        or_supplied(self.slot(k, number).whole(), supplied)
    }

    // How many of the first 32 pairs a log shows: V of the last is shown.
    fn shown_pairs(&self, k: u32) -> u32
        requires { k < 16 }
        ensures pairs { result ≡ shown_pairs (slots_of self.now k) 32 }
        ensures few { result ≤ 32 }
    {
        let mut count = 0;
        'pairs: for n in 0..PAIRS {
            if is_bit_set(self.slot(k, FIRST_MASK + 2 * n).bits, PHYSMASK_V) {
                count = n + 1;
            }
        }
        count
    }

    fn pair_count(&self, k: u32) -> u64
        requires { k < 16 }
        ensures count { result ≡ pair_count (slots_of self.now k) }
        ensures few { result < 256 }
    {
        let slot = self.slot(k, CAPABILITIES);
        if slot.bits % 256 == 255 {
            slot.value % 256
        } else {
            self.shown_pairs(k) as u64
        }
    }

    fn assumed_capabilities(&self, k: u32) -> Option<u64>
        requires { k < 16 }
        ensures { result ≡ assumed_capabilities (slots_of self.now k) }
    {
        if shows_part(&self.slot(k, CAPABILITIES)) {
            Some(self.pair_count(k) + FIXED_AND_COMBINING)
        } else {
            None
        }
    }

    // Whether no line shows a bit of the register's pair.
    fn is_unshown(&self, k: u32, number: u32) -> bool
        requires processor { k < 16 }
        requires number { number < 0x1000 }
        ensures { result ≡ is_unshown (slots_of self.now k) number }
    {
        let base = self.slot(k, base_of(number));
        let mask = self.slot(k, mask_of(number));
        base.bits == 0 && mask.bits == 0
    }

    // Whether lines show a bit of one of the pairs.
    fn shows_pairs(&self, k: u32) -> bool
        requires { k < 16 }
        ensures { result ≡ shows_pairs (slots_of self.now k) 32 }
    {
        let mut shows = false;
        'pairs: for n in 0..PAIRS {
            if !self.is_unshown(k, FIRST_PAIR + 2 * n) {
                shows = true;
            }
        }
        shows
    }

    // Whether the log has a processor's pairs: one of them, or a table with its default type.
    fn has_pairs(&self, k: u32) -> bool
        requires { k < 16 }
        ensures { result ≡ has_pairs (slots_of self.now k) }
    {
        is_of_table(&self.slot(k, DEFAULT_TYPE)) || self.shows_pairs(k)
    }

    fn assumed_zero(&self, k: u32, number: u32) -> Option<u64>
        requires processor { k < 16 }
        requires number { number < 0x1000 }
        ensures { result ≡ assumed_zero (slots_of self.now k) number }
    {
        if self.is_unshown(k, number) && self.has_pairs(k) {
            Some(0)
        } else {
            None
        }
    }

    fn assumed_pair(&self, assumed: &Assumed, k: u32, width: Option<u8>, number: u32) -> Option<u64>
        requires processor { k < 16 }
        requires number { number < 0x1000 }
        requires width { IfSome width (λ width. width ≤ 52) }
        ensures { result ≡ assumed_pair assumed.now (slots_of self.now k) width number }
    {
        let mask = assumed_mask(&self.slot(k, number), width);
        or_supplied(
            only_if(assumed.masks, mask),
            only_if(assumed.pairs, self.assumed_zero(k, number)),
        )
    }

    // Whether lines show a bit of one of these registers.
    fn shows_one_of(&self, k: u32, numbers: &[u32]) -> bool
        requires { k < 16 }
        ensures { result ≡ shows_one_of (slots_of self.now k) numbers.now }
    {
        let Some((number, numbers)) = numbers.split_first() else {
            return false;
        };
        if self.slot(k, *number).bits == 0 {
            self.shows_one_of(k, numbers)
        } else {
            true
        }
    }

    fn assumed_fixed(&self, k: u32, number: u32) -> Option<u64>
        requires { k < 16 }
        ensures { result ≡ assumed_fixed (slots_of self.now k) number }
    {
        if self.shows_one_of(k, &FIXED_NUMBERS) {
            None
        } else {
            Some(firmware_value(number))
        }
    }

    // Whether pairs so far and this one are all UC that are used.
    fn uncached_behind(&self, k: u32, n: u32, before: Option<bool>) -> Option<bool>
        requires processor { k < 16 }
        requires pair { n < 32 }
        ensures { result ≡ uncached_with (is_bit_set (slots_of self.now k (0x201 + 2 * n)).value 11) (shows_uncached (slots_of self.now k (0x200 + 2 * n))) before }
    {
        let mask = self.slot(k, FIRST_MASK + 2 * n);
        let base = self.slot(k, FIRST_PAIR + 2 * n);
        let is_used = is_bit_set(mask.value, PHYSMASK_V);
        uncached_with(is_used, shows_uncached(&base), before)
    }

    // Whether the pairs are all UC whose V lines show as set, if there is one.
    fn uncached_pairs(&self, k: u32) -> Option<bool>
        requires { k < 16 }
        ensures { result ≡ uncached_pairs (slots_of self.now k) 32 }
    {
        let mut uncached = None;
        'pairs: for n in 0..PAIRS {
            uncached = self.uncached_behind(k, n, uncached);
        }
        uncached
    }

    fn likely_type(&self, k: u32) -> u64
        requires { k < 16 }
        ensures code { result ≡ likely_type (slots_of self.now k) }
        ensures small { result ≤ 6 }
    {
        if self.uncached_pairs(k).unwrap_or(false) {
            WRITE_BACK
        } else {
            UNCACHEABLE
        }
    }

    fn assumed_default(&self, k: u32, given: Option<u64>) -> Option<u64>
        requires { k < 16 }
        ensures { result ≡ assumed_default (slots_of self.now k) given }
    {
        if self.slot(k, DEFAULT_TYPE).bits == 0 {
            let flags = likely_flags(&self.slot(k, CAPABILITIES), given);
            Some(flags + self.likely_type(k))
        } else {
            None
        }
    }

    fn assumed_value(&self, assumed: &Assumed, k: u32, known: &Known, number: u32) -> Option<u64>
        requires processor { k < 16 }
        requires number { number < 0x1000 }
        requires width { IfSome known.now.width (λ width. width ≤ 52) }
        ensures { result ≡ assumed_value assumed.now (slots_of self.now k) known.now number }
    {
        if number == PAT {
            only_if(assumed.pat, Some(assumed_pat(known.format)))
        } else if number == CAPABILITIES {
            only_if(assumed.capabilities, self.assumed_capabilities(k))
        } else if is_pair_number(number) {
            self.assumed_pair(assumed, k, known.width, number)
        } else if is_fixed_number(number) {
            only_if(assumed.fixed, self.assumed_fixed(k, number))
        } else if number == DEFAULT_TYPE {
            only_if(assumed.fixed, self.assumed_default(k, known.given))
        } else {
            None
        }
    }

    // What is known beside registers.
    fn known(&self, supplied: &Supplied) -> Known
        ensures known { result ≡ known_by supplied.now (findings_in self.now) }
        ensures fit { IfSome result.width IsFit }
    {
        Known {
            width: self.width(supplied),
            format: self.tally().format,
            given: supplied.value(CAPABILITIES),
        }
    }

    /// The value of a processor's register, shown, or else supplied, or else assumed.
    pub fn value(&self, supplied: &Supplied, k: u32, number: u32) -> Option<u64>
        requires processor { k < 16 }
        requires number { number < 0x1000 }
        ensures { result ≡ values_in supplied.now self.now k number }
    {
        let assumed = assumed_of(k, supplied.assumed());
        or_supplied(
            self.firm_value(supplied, k, number),
            self.assumed_value(&assumed, k, &self.known(supplied), number),
        )
    }

    /// The capability register of processor 0, which is that of a dump.
    pub(crate) fn capabilities(&self, supplied: &Supplied) -> Option<u64>
        ensures value { result ≡ values_in supplied.now self.now 0 0xfe }
        ensures few { IfSome result (λ capabilities. low_byte capabilities ≤ 32) }
    {
        self.is_reader(); // a fact for the proof
        supplied.is_supplied(); // a fact for the proof
        self.value(supplied, 0, CAPABILITIES)
    }

    // What processor 0's register would be if all were assumed.
    fn hint_by(&self, supplied: &Supplied, number: u32) -> Option<u64>
        requires { number < 0x1000 }
        ensures { result ≡ hint_by supplied.now (findings_in self.now) number }
    {
        let known = self.known(supplied);
        let known = Known {
            width: or_widest(known.width),
            ..known
        };
        self.assumed_value(&Assumed::all(), 0, &known, number)
    }

    /// The same where no processor would lack it.
    #[tactic(auto, unfolding(crate::specs::Outcome::hint_of))]
    pub(crate) fn hint(&self, supplied: &Supplied, number: u32) -> Option<u64>
        requires { number < 0x1000 }
        ensures { result ≡ hint_in supplied.now self.now number }
    {
        let all = supplied.allowing_all();
        if self.is_missing(&all, number) {
            None
        } else {
            self.hint_by(supplied, number)
        }
    }

    // A mask of processor 0 that is shown whole, or else supplied.
    fn mask(&self, supplied: &Supplied, number: u32) -> Option<u64>
        ensures { result ≡ or_supplied (whole_value (slots_of self.now 0 number)) (supplied_value supplied.now number) }
    {
        or_supplied(self.slot(0, number).whole(), supplied.value(number))
    }

    /// The bits of processor 0's masks that are shown whole, or else supplied.
    pub(crate) fn masks(&self, supplied: &Supplied) -> u64
        ensures { result ≡ masks_in supplied.now (slots_of self.now 0) 32 }
    {
        let mut masks = 0;
        'pairs: for n in 0..PAIRS {
            masks |= self.mask(supplied, FIRST_MASK + 2 * n).unwrap_or(0);
        }
        masks
    }

    /// The address width, shown or else supplied.
    pub(crate) fn firm_width(&self, supplied: &Supplied) -> Option<u8>
        ensures width { result ≡ firm_width supplied.now self.now.width }
        ensures fit { IfSome result IsFit }
    {
        supplied.is_supplied(); // a fact for the proof
        match self.shown_width() {
            Some(width) => Some(width),
            None => supplied.width,
        }
    }

    /// The address width, shown, or else supplied, or else assumed.
    pub fn width(&self, supplied: &Supplied) -> Option<u8>
        ensures width { result ≡ width_by supplied.now (slots_of self.now) self.now.width }
        ensures fit { IfSome result IsFit }
    {
        match self.firm_width(supplied) {
            Some(width) => Some(width),
            None if supplied.assumed().width => widest(self.masks(supplied)),
            None => None,
        }
    }
}
