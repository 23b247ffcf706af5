ghost use Rattle.std.specs.Prelude.{◌≡◌, ◌≤◌, ◌<◌, ◌+◌, ◌++◌, Some, length, map};
ghost use Rattle.arrayvec.specs.ArrayVec.{array_vec_len};
ghost use Rattle.mt_regs.specs.Registers.{fixed_numbers};
ghost use Rattle.mt_kinds.specs.Bits.{is_bit_set};
ghost use Rattle.mt_regs.specs.RegisterFile.{low_byte};
ghost use Rattle.mt_import.specs.Outcome.{advice_of, dump_in, dump_outcome, ended_by, file_of, files_of, first_pairs, fixed_of, is_empty, refusal, remarks, value_or_zero, version_of};
ghost use Rattle.mt_import.specs.Reader.{findings_in, summary_in, values_in};
ghost use Rattle.mt_import.specs.Import.{IsWritten, dump_text};

use crate::shape::Tally;
use crate::text::{Outcome, count_line, is_empty};
use crate::{LogReader, Supplied};
use arrayvec::ArrayVec;
use mt_dump::{Dump, TextBuffer, append_text, canonical_text};
use mt_kinds::{MTRRCAP_FIX, is_bit_set};
use mt_ports::Status;
use mt_regs::{DEFAULT_TYPE, FIRST_PAIR, PAT, RegFile};

fn pair_count(capabilities: u64) -> u8
    ensures { result ≡ low_byte capabilities }
{
    (capabilities & 0xff) as u8
}

// The version of the dump of so many processors.
fn version_of(count: u32) -> u8
    ensures { result ≡ version_of count }
{
    if count == 1 { 1 } else { 2 }
}

impl LogReader {
    fn value_or_zero(&self, supplied: &Supplied, k: u32, number: u32) -> u64
        requires processor { k < 16 }
        requires number { number < 0x1000 }
        ensures { result ≡ value_or_zero (values_in supplied.now self.now k) number }
    {
        match self.value(supplied, k, number) {
            Some(value) => value,
            None => 0,
        }
    }

    // So many pairs.
    fn pairs(&self, supplied: &Supplied, k: u32, count: u8) -> ArrayVec<(u64, u64), 32>
        requires processor { k < 16 }
        requires few { count ≤ 32 }
        ensures { result.items ≡ first_pairs (values_in supplied.now self.now k) count }
    {
        let mut pairs = ArrayVec::new();
        'pairs: for n in 0..count {
            let base = FIRST_PAIR + 2 * n as u32;
            pairs.push((
                self.value_or_zero(supplied, k, base),
                self.value_or_zero(supplied, k, base + 1),
            ));
        }
        pairs
    }

    // The fixed-range registers.
    fn fixed(&self, supplied: &Supplied, k: u32) -> [u64; 11]
        requires { k < 16 }
        ensures { result ≡ map (value_or_zero (values_in supplied.now self.now k)) fixed_numbers }
    {
        [
            self.value_or_zero(supplied, k, 0x250),
            self.value_or_zero(supplied, k, 0x258),
            self.value_or_zero(supplied, k, 0x259),
            self.value_or_zero(supplied, k, 0x268),
            self.value_or_zero(supplied, k, 0x269),
            self.value_or_zero(supplied, k, 0x26a),
            self.value_or_zero(supplied, k, 0x26b),
            self.value_or_zero(supplied, k, 0x26c),
            self.value_or_zero(supplied, k, 0x26d),
            self.value_or_zero(supplied, k, 0x26e),
            self.value_or_zero(supplied, k, 0x26f),
        ]
    }

    // The fixed-range registers, which are 0 without FIX.
    fn fixed_part(&self, supplied: &Supplied, k: u32, capabilities: u64) -> [u64; 11]
        requires { k < 16 }
        ensures { result ≡ fixed_of (values_in supplied.now self.now k) (is_bit_set capabilities 8) }
    {
        if is_bit_set(capabilities, MTRRCAP_FIX) {
            self.fixed(supplied, k)
        } else {
            [0; 11]
        }
    }

    // The file of a processor.
    fn file(&self, supplied: &Supplied, k: u32, width: u8, capabilities: u64) -> RegFile
        requires processor { k < 16 }
        requires wide { 32 ≤ width }
        requires narrow { width ≤ 52 }
        requires pairs { low_byte capabilities ≤ 32 }
        ensures { result ≡ file_of (values_in supplied.now self.now k) width capabilities }
    {
        let count = pair_count(capabilities);
        let fixed = self.fixed_part(supplied, k, capabilities);
        RegFile {
            maxphy: width,
            cap: capabilities,
            pairs: self.pairs(supplied, k, count),
            fixed,
            pat: self.value_or_zero(supplied, k, PAT),
            deftype: self.value_or_zero(supplied, k, DEFAULT_TYPE),
        }
    }

    // The files of all processors.
    fn files(&self, supplied: &Supplied, width: u8, capabilities: u64) -> ArrayVec<RegFile, 16>
        requires wide { 32 ≤ width }
        requires narrow { width ≤ 52 }
        requires pairs { low_byte capabilities ≤ 32 }
        ensures { result.items ≡ files_of (values_in supplied.now self.now) width capabilities self.now.processors }
    {
        let mut files = ArrayVec::new();
        'files: for k in 0..self.count() {
            files.push(self.file(supplied, k, width, capabilities));
        }
        files
    }

    fn dump(&self, supplied: &Supplied, width: u8, capabilities: u64) -> Dump
        requires wide { 32 ≤ width }
        requires narrow { width ≤ 52 }
        requires pairs { low_byte capabilities ≤ 32 }
        ensures { result ≡ dump_in (values_in supplied.now self.now) self.now.processors width capabilities }
    {
        let version = version_of(self.count());
        let files = self.files(supplied, width, capabilities);
        Dump { version, files }
    }

    // The dump, where nothing is missing.
    fn dump_outcome(&self, is_auto: bool, supplied: &Supplied, missing: &[u8]) -> Outcome
        requires { length missing.now ≤ 0x7000 }
        ensures told { let summary = summary_in is_auto supplied.now self.now
            in result ≡ dump_outcome (refusal self.now.tally missing.now) summary summary.width (summary.values 0 0xfe) }
        ensures written { IsWritten result.status (dump_text result) }
        ensures room { length result.reasons ≤ 0x7c00 }
    {
        let tally = self.tally();
        let Some(width) = self.width(supplied) else {
            return refusal(&tally, missing);
        };
        let Some(capabilities) = self.capabilities(supplied) else {
            return refusal(&tally, missing);
        };
        Outcome {
            notes: self.notes(supplied),
            dump: canonical_text(&self.dump(supplied, width, capabilities)),
            reasons: remarks(is_auto, &tally),
            status: Status::Done,
        }
    }

    // What is missing, and the words that would supply it.
    fn lacking(&self, is_auto: bool, supplied: &Supplied, missing: &[u8]) -> Outcome
        requires { length missing.now ≤ 0x6000 }
        ensures told { result ≡ refusal self.now.tally (missing.now ++ advice_of is_auto supplied.now (findings_in self.now)) }
        ensures written { IsWritten result.status (dump_text result) }
        ensures room { length result.reasons ≤ 0x7c00 }
    {
        let mut text = ArrayVec::new();
        append_text(&mut text, missing);
        append_text(&mut text, self.advice(is_auto, supplied).as_slice());
        refusal(&self.tally(), text.as_slice())
    }

    /// The dump of all lines that were taken, or what is missing.
    pub fn finish(&self, is_auto: bool, supplied: &Supplied) -> Outcome
        ensures told { result ≡ ended_by (summary_in is_auto supplied.now self.now) }
        ensures written { IsWritten result.status (dump_text result) }
        ensures room { length result.reasons ≤ 0x7c00 }
    {
        let missing = self.missing(supplied);
        let text = missing.as_slice();
        if is_empty(text) {
            self.dump_outcome(is_auto, supplied, text)
        } else {
            self.lacking(is_auto, supplied, text)
        }
    }
}

// What is told beside a dump.
fn remarks(is_auto: bool, tally: &Tally) -> TextBuffer
    ensures text { result.items ≡ remarks is_auto tally.now }
    ensures short { array_vec_len result ≤ 899 }
{
    let mut text = ArrayVec::new();
    if is_auto {
        append_text(&mut text, count_line(tally).as_slice());
    }
    tally.warned.append_lines(&mut text);
    text
}

/// What is told in place of a dump.
pub(crate) fn refusal(tally: &Tally, missing: &[u8]) -> Outcome
    requires { length missing.now ≤ 0x7000 }
    ensures told { result ≡ refusal tally.now missing.now }
    ensures written { IsWritten result.status (dump_text result) }
    ensures room { length result.reasons ≤ 0x7c00 }
{
    let mut reasons = ArrayVec::new();
    append_text(&mut reasons, count_line(tally).as_slice());
    tally.warned.append_lines(&mut reasons);
    append_text(&mut reasons, missing);
    Outcome {
        notes: ArrayVec::new(),
        dump: ArrayVec::new(),
        reasons,
        status: Status::Refused,
    }
}
