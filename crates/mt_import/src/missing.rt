ghost use Rattle.std.specs.Prelude.{◌≡◌, ◌≤◌, ◌<◌, ◌+◌, ◌++◌, ◌∷◌, [], length, map, slice_get, Some};
ghost use Rattle.std.specs.List.{All};
ghost use Rattle.arrayvec.specs.ArrayVec.{array_vec_len};
ghost use Rattle.mt_regs.specs.Registers.{HasThreeDigits, number_of, writable};
ghost use Rattle.mt_import.specs.Outcome.{is_value, missing_of, needed, note_by, is_noted, notes_of};
ghost use Rattle.mt_import.specs.Reader.{findings_in, firm_in, is_missing_in, is_nowhere_in, lacking_text_in, lacks_in, missing_line_in, missing_lines_in, note_line_in, note_lines_in, noted_in, noted_of_in, processors_text_in, values_in};

use crate::text::{append_noted, append_run, missing_line, note_by, width_hint, width_note};
use crate::values::widest;
use crate::{LogReader, Supplied};
use arrayvec::ArrayVec;
use mt_dump::{TextBuffer, append_text};
use mt_output::{LineBuffer, append};
use mt_regs::{CAPABILITIES, RegFile};

const USUAL_WIDTH: u8 = 36;

fn is_value(value: Option<u64>, other: u64) -> bool
    ensures { result ≡ is_value value other }
{
    match value {
        Some(value) => value == other,
        None => false,
    }
}

pub(crate) fn number_at(numbers: &[u32], i: usize) -> u32
    requires within { i < length numbers.now }
    requires each { All HasThreeDigits numbers.now }
    ensures at { slice_get numbers.now i ≡ Some result }
    ensures short { HasThreeDigits result }
{
    numbers[i]
}

fn push_number(numbers: &mut ArrayVec<u32, 78>, number: u32)
    requires room { array_vec_len numbers.old ≤ 77 }
    requires number { HasThreeDigits number }
    requires each { All HasThreeDigits numbers.old.items }
    ensures numbers { numbers.new.items ≡ numbers.old.items ++ number ∷ [] }
    ensures each { All HasThreeDigits numbers.new.items }
{
    numbers.push(number);
}

// Adds the numbers of a file's writable registers.
fn push_registers(numbers: &mut ArrayVec<u32, 78>, file: &RegFile)
    requires room { array_vec_len numbers.old ≤ 1 }
    requires each { All HasThreeDigits numbers.old.items }
    ensures numbers { numbers.new.items ≡ numbers.old.items ++ map number_of (writable file.now) }
    ensures each { All HasThreeDigits numbers.new.items }
{
    'registers: for i in 0..file.count() {
        let Some(register) = file.register_at(i) else {
            unreachable!()
        };
        push_number(numbers, register.number());
    }
}

impl LogReader {
    // Whether one of the processors hasn't a register.
    pub(crate) fn is_missing(&self, supplied: &Supplied, number: u32) -> bool
        requires { number < 0x1000 }
        ensures { result ≡ is_missing_in supplied.now self.now number }
    {
        'processors: for k in 0..self.count() {
            if self.value(supplied, k, number).is_none() {
                return true;
            }
        }
        false
    }

    // Whether all processors lack a register.
    fn is_nowhere(&self, supplied: &Supplied, number: u32) -> bool
        requires { number < 0x1000 }
        ensures { result ≡ is_nowhere_in supplied.now self.now number }
    {
        'processors: for k in 0..self.count() {
            if self.value(supplied, k, number).is_some() {
                return false;
            }
        }
        true
    }

    // Whether there is a processor of this number that lacks a register.
    fn lacks(&self, supplied: &Supplied, k: u32, number: u32) -> bool
        requires { number < 0x1000 }
        ensures { result ≡ lacks_in supplied.now self.now k number }
    {
        k < self.count() && self.value(supplied, k, number).is_none()
    }

    // The numbers of the processors that lack a register.
    fn lacking_text(&self, supplied: &Supplied, number: u32) -> LineBuffer
        requires { number < 0x1000 }
        ensures text { result.items ≡ lacking_text_in supplied.now self.now number self.now.processors }
        ensures short { array_vec_len result ≤ 48 }
    {
        let mut text = ArrayVec::new();
        let mut before = false;
        'processors: for k in 0..self.count() {
            let here = self.value(supplied, k, number).is_none();
            let behind = self.lacks(supplied, k + 1, number);
            append_run(&mut text, before, here, behind, k);
            before = here;
        }
        text
    }

    // The processors that lack a register, unless all do.
    fn processors_text(&self, supplied: &Supplied, number: u32) -> LineBuffer
        requires { number < 0x1000 }
        ensures text { result.items ≡ processors_text_in supplied.now self.now number }
        ensures short { array_vec_len result ≤ 56 }
    {
        let mut text = ArrayVec::new();
        if !self.is_nowhere(supplied, number) {
            append(&mut text, b" of cpu");
            append(&mut text, self.lacking_text(supplied, number).as_slice());
        }
        text
    }

    // The value that one of the processors has by an assumption alone.
    fn noted(&self, supplied: &Supplied, number: u32) -> Option<u64>
        requires { number < 0x1000 }
        ensures { result ≡ noted_in supplied.now self.now number }
    {
        'processors: for k in 0..self.count() {
            if self.firm_value(supplied, k, number).is_none() {
                if let Some(value) = self.value(supplied, k, number) {
                    return Some(value);
                }
            }
        }
        None
    }

    // Names a register that is missing.
    fn append_missing(&self, text: &mut TextBuffer, supplied: &Supplied, number: u32)
        requires room { array_vec_len text.old + 104 ≤ 0x8000 }
        requires number { HasThreeDigits number }
        ensures text { text.new.items ≡ text.old.items ++ missing_line_in supplied.now self.now number }
        ensures size { array_vec_len text.new ≤ array_vec_len text.old + 104 }
    {
        if self.is_missing(supplied, number) {
            let processors = self.processors_text(supplied, number);
            let line = missing_line(number, processors.as_slice(), self.hint(supplied, number));
            append_text(text, line.as_slice());
        }
    }

    // Whether a processor has this value by an assumption alone.
    fn is_noted(&self, supplied: &Supplied, k: u32, number: u32, value: u64) -> bool
        requires processor { k < 16 }
        requires number { number < 0x1000 }
        ensures { result ≡ is_noted (firm_in supplied.now self.now) (values_in supplied.now self.now) k number value }
    {
        self.firm_value(supplied, k, number).is_none()
            && is_value(self.value(supplied, k, number), value)
    }

    // The numbers of the processors that have this value by an assumption alone.
    fn noted_of(&self, supplied: &Supplied, number: u32, value: u64) -> LineBuffer
        requires { number < 0x1000 }
        ensures text { result.items ≡ noted_of_in supplied.now self.now number value }
        ensures short { array_vec_len result ≤ 48 }
    {
        let mut processors = ArrayVec::new();
        'processors: for k in 0..self.count() {
            let is_noted = self.is_noted(supplied, k, number, value);
            append_noted(&mut processors, is_noted, k);
        }
        processors
    }

    // Notes a register's value that was assumed, if it is some processor's.
    fn append_note_by(&self, text: &mut TextBuffer, supplied: &Supplied, number: u32, value: u64)
        requires room { array_vec_len text.old + 112 ≤ 0x8000 }
        requires number { HasThreeDigits number }
        ensures text { text.new.items ≡ text.old.items
            ++ note_by number value (noted_of_in supplied.now self.now number value) }
        ensures size { array_vec_len text.new ≤ array_vec_len text.old + 112 }
    {
        let processors = self.noted_of(supplied, number, value);
        let line = note_by(number, value, processors.as_slice());
        append_text(text, line.as_slice());
    }

    // Notes a register that was assumed.
    fn append_note(&self, text: &mut TextBuffer, supplied: &Supplied, number: u32)
        requires room { array_vec_len text.old + 224 ≤ 0x8000 }
        requires number { HasThreeDigits number }
        ensures text { text.new.items ≡ text.old.items ++ note_line_in supplied.now self.now number }
        ensures size { array_vec_len text.new ≤ array_vec_len text.old + 224 }
    {
        if let Some(value) = self.noted(supplied, number) {
            self.append_note_by(text, supplied, number, value);
            if value != 0 {
                self.append_note_by(text, supplied, number, 0);
            }
        }
    }

    // The registers that a dump needs, in ascending order.
    pub(crate) fn needed(&self, supplied: &Supplied) -> ArrayVec<u32, 78>
        ensures numbers { result.items ≡ needed (values_in supplied.now self.now 0 0xfe) }
        ensures each { All HasThreeDigits result.items }
    {
        let mut numbers = ArrayVec::new();
        numbers.push(CAPABILITIES);
        if let Some(capabilities) = self.capabilities(supplied) {
            match RegFile::blank(USUAL_WIDTH, capabilities) {
                Ok(file) => push_registers(&mut numbers, &file),
                Err(_) => unreachable!(),
            }
        }
        numbers
    }

    // Names those of these registers that are missing.
    fn append_registers(&self, text: &mut TextBuffer, supplied: &Supplied, numbers: &[u32])
        requires room { array_vec_len text.old ≤ 256 }
        requires few { length numbers.now ≤ 78 }
        requires numbers { All HasThreeDigits numbers.now }
        ensures short { array_vec_len text.new ≤ 0x6000 }
        ensures text { text.new.items ≡ text.old.items ++ missing_lines_in supplied.now self.now numbers.now }
    {
        'registers: for i in 0..numbers.len() {
            self.append_missing(text, supplied, number_at(numbers, i));
        }
    }

    // Notes those of these registers that were assumed.
    fn append_notes(&self, text: &mut TextBuffer, supplied: &Supplied, numbers: &[u32])
        requires room { array_vec_len text.old ≤ 256 }
        requires few { length numbers.now ≤ 78 }
        requires numbers { All HasThreeDigits numbers.now }
        ensures { text.new.items ≡ text.old.items ++ note_lines_in supplied.now self.now numbers.now }
    {
        'registers: for i in 0..numbers.len() {
            self.append_note(text, supplied, number_at(numbers, i));
        }
    }

    /// Adds a line for each thing that a dump needs and that is neither shown nor supplied nor assumed.
    pub(crate) fn missing(&self, supplied: &Supplied) -> TextBuffer
        ensures text { result.items ≡ missing_of supplied.now (findings_in self.now) }
        ensures short { array_vec_len result ≤ 0x6000 }
    {
        let mut text = ArrayVec::new();
        if self.width(supplied).is_none() {
            append_text(&mut text, width_hint(widest(self.masks(supplied))));
        }
        self.append_registers(&mut text, supplied, self.needed(supplied).as_slice());
        text
    }

    /// A comment for each value that was assumed.
    pub(crate) fn notes(&self, supplied: &Supplied) -> TextBuffer
        ensures { result.items ≡ notes_of supplied.now (findings_in self.now) }
    {
        let mut text = ArrayVec::new();
        if self.firm_width(supplied).is_none() {
            if let Some(width) = self.width(supplied) {
                append_text(&mut text, width_note(width).as_slice());
            }
        }
        self.append_notes(&mut text, supplied, self.needed(supplied).as_slice());
        text
    }
}
