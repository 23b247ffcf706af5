// What contradicts a reading: a word of the command line, or a line before.
ghost use Rattle.std.specs.Prelude.{◌≡◌, ◌≤◌, ◌<◌, bit_or, None, IfSome};
ghost use Rattle.mt_regs.specs.RegisterFile.{low_byte};
ghost use Rattle.mt_import.specs.Outcome.{capability_rival, contradiction, count_rival, counted, counts_fewer, fix_shown, fixed_rival, fixless_rival, pairs_fault, ranged_rival, reading_fault, rival, shows_no_fix, slot_shown, uncounted_rival, width_rival};
ghost use Rattle.mt_import.specs.Supplied.{bits_differ, differs};
ghost use Rattle.mt_import.specs.Reader.{HasSlot, IsOfReadings, IsShort, MayKeep, pairs_after};

use super::{LogReader, least_count, shows_fixed};
use crate::shape::{LastPair, Reading, Slot};
use crate::values::lacks_fix;
use crate::{ImportFault, Rival, Supplied};
use mt_kinds::is_bit_set;
use mt_regs::{CAPABILITIES, MAX_PAIRS};

const MOST_PROCESSORS: u32 = 16;

// FIX of IA32_MTRRCAP.
const FIX: u8 = 8;

// Whether a word's value is another in these bits.
fn bits_differ(word: Option<u64>, bits: u64, value: u64) -> bool
    ensures { result ≡ bits_differ word bits value }
{
    match word {
        Some(word) => word & bits != value,
        None => false,
    }
}

fn differs_in_width(other: Option<u8>, width: u64) -> bool
    ensures { result ≡ differs other width }
{
    match other {
        Some(other) => other as u64 != width,
        None => false,
    }
}

// Whether VCNT is less than this.
fn counts_fewer(capabilities: Option<u64>, pairs: u64) -> bool
    ensures { result ≡ counts_fewer capabilities pairs }
{
    match capabilities {
        Some(capabilities) => capabilities % 256 < pairs,
        None => false,
    }
}

// The capability register, if all bits of VCNT are shown.
fn counted(capabilities: &Slot) -> Option<u64>
    ensures { result ≡ counted capabilities.now }
{
    if capabilities.bits % 256 == 255 {
        Some(capabilities.value)
    } else {
        None
    }
}

// The last pair, if VCNT doesn't count it.
fn uncounted_rival(capabilities: Option<u64>, last: Option<LastPair>) -> Option<Rival>
    ensures { result ≡ uncounted_rival capabilities last }
{
    match last {
        Some(last) if counts_fewer(capabilities, last.count) => {
            Some(Rival::RegisterLine(last.line))
        }
        _ => None,
    }
}

// What gives the capability register other bits than this reading of it, or shows a pair that its VCNT doesn't count.
fn capability_rival(capabilities: &Slot, last: Option<LastPair>, reading: &Reading) -> Option<Rival>
    ensures { result ≡ capability_rival capabilities.now last reading.now }
{
    if capabilities.clashes(reading) {
        return Some(Rival::Line(capabilities.line));
    }
    uncounted_rival(counted(&capabilities.with(reading)), last)
}

fn count_rival(capabilities: &Slot, last: Option<LastPair>, reading: &Reading) -> Option<Rival>
    ensures { result ≡ count_rival capabilities.now last reading.now }
{
    if counts_fewer(counted(capabilities), least_count(reading)) {
        Some(Rival::CapabilityLine(capabilities.line))
    } else if reading.number == CAPABILITIES {
        capability_rival(capabilities, last, reading)
    } else {
        None
    }
}

// The capability register, if FIX is shown.
fn fix_shown(capabilities: &Slot) -> Option<u64>
    ensures { result ≡ fix_shown capabilities.now }
{
    if is_bit_set(capabilities.bits, FIX) {
        Some(capabilities.value)
    } else {
        None
    }
}

// What gives a capability register without FIX.
fn fixless_rival(word: Option<u64>, capabilities: &Slot) -> Option<Rival>
    ensures { result ≡ fixless_rival word capabilities.now }
{
    if lacks_fix(word) {
        Some(Rival::CapabilityWord)
    } else if lacks_fix(fix_shown(capabilities)) {
        Some(Rival::CapabilityLine(capabilities.line))
    } else {
        None
    }
}

fn shows_no_fix(reading: &Reading) -> bool
    ensures { result ≡ shows_no_fix reading.now }
{
    reading.number == CAPABILITIES
        && is_bit_set(reading.bits, FIX)
        && !is_bit_set(reading.value, FIX)
}

fn ranged_rival(line: Option<u64>) -> Option<Rival>
    ensures { result ≡ ranged_rival line }
{
    match line {
        Some(line) => Some(Rival::RegisterLine(line)),
        None => None,
    }
}

/// What gives another width: a word, or the last line that shows one.
pub(super) fn width_rival(
    word: Option<u8>,
    shown: Option<u8>,
    line: u64,
    width: u64,
) -> Option<Rival>
    ensures { result ≡ width_rival word shown line width }
{
    if differs_in_width(word, width) {
        Some(Rival::Word)
    } else if differs_in_width(shown, width) {
        Some(Rival::Line(line))
    } else {
        None
    }
}

fn contradiction(reading: &Reading, rival: Option<Rival>) -> Option<ImportFault>
    ensures { result ≡ contradiction reading.now rival }
{
    match rival {
        Some(rival) => Some(ImportFault::Contradiction(reading.place, reading.number, rival)),
        None => None,
    }
}

impl LogReader {
    // What else gives other bits than a reading, or doesn't agree with it on VCNT.
    fn rival(&self, supplied: &Supplied, reading: &Reading) -> Option<Rival>
        requires { reading.now.processor < 16 }
        ensures { IsOfReadings self.now (λ before. rival supplied.now before reading.now) result }
    {
        if bits_differ(supplied.value(reading.number), reading.bits, reading.value) {
            return Some(Rival::Word);
        }
        if counts_fewer(supplied.value(CAPABILITIES), least_count(reading)) {
            return Some(Rival::CapabilityWord);
        }
        let slot = self.slot(reading.processor, reading.number);
        if slot.clashes(reading) {
            Some(Rival::Line(slot.line))
        } else {
            count_rival(&self.capabilities, self.last, reading)
        }
    }

    // What else shows that a dump has no fixed ranges, or that it has them.
    fn fixed_rival(&self, word: Option<u64>, reading: &Reading) -> Option<Rival>
        ensures { IsOfReadings self.now (λ before. fixed_rival word before reading.now) result }
    {
        if shows_fixed(reading) {
            fixless_rival(word, &self.capabilities)
        } else if shows_no_fix(reading) {
            ranged_rival(self.line_of_fixed)
        } else {
            None
        }
    }

    // The low byte of the capability register of a reading's processor behind the reading.
    fn pairs_after(&self, reading: &Reading) -> u64
        requires { reading.now.processor < 16 }
        ensures held { result ≡ pairs_after self.now reading.now }
        ensures shown { IsOfReadings self.now
            (λ before. low_byte (bit_or (slot_shown before reading.now.processor 0xfe).value reading.now.value)) result }
    {
        (self.slot(reading.processor, CAPABILITIES).value | reading.value) % 256
    }

    // Whether the capability register has more pairs than a dump may have, as this line and those before it show it.
    fn pairs_fault(&self, reading: &Reading) -> Option<ImportFault>
        requires { reading.now.processor < 16 }
        ensures sound { result ≡ None → reading.now.number ≡ 0xfe → pairs_after self.now reading.now ≤ 32 }
        ensures short { IfSome result IsShort }
        ensures fault { IsOfReadings self.now (λ before. pairs_fault before reading.now) result }
    {
        if reading.number == CAPABILITIES && self.pairs_after(reading) > MAX_PAIRS as u64 {
            Some(ImportFault::TooManyPairs(reading.place))
        } else {
            None
        }
    }

    /// The fault of a reading, if it has one.
    pub(super) fn reading_fault(
        &self,
        supplied: &Supplied,
        reading: &Reading,
    ) -> Option<ImportFault>
        requires { HasSlot reading.now.number }
        ensures sound { result ≡ None → MayKeep self.now reading.now }
        ensures short { IfSome result IsShort }
        ensures fault { IsOfReadings self.now (λ before. reading_fault supplied.now before reading.now) result }
    {
        if reading.processor >= MOST_PROCESSORS {
            return Some(ImportFault::BadProcessor(reading.place));
        }
        let rival = self
            .rival(supplied, reading)
            .or(self.fixed_rival(supplied.value(CAPABILITIES), reading));
        contradiction(reading, rival).or(self.pairs_fault(reading))
    }
}
