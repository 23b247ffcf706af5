ghost use Rattle.std.specs.Prelude.{◌≡◌, ◌≤◌, ◌<◌, ◌+◌, ◌++◌, length, slice_get, Some};
ghost use Rattle.std.specs.List.{All};
ghost use Rattle.arrayvec.specs.ArrayVec.{array_vec_len};
ghost use Rattle.mt_regs.specs.Registers.{HasThreeDigits};
ghost use Rattle.mt_import.specs.Outcome.{advice_of, allowed_text, allowing_all, behind_blank, choice_word, help_on_width, joined, register_word, register_words, table_word, width_word, word_if};
ghost use Rattle.mt_import.specs.Reader.{findings_in, help_in, help_words_in, helps_in, value_word_in, value_words_in};

use crate::missing::number_at;
use crate::pieces::is_text;
use crate::shape::Pick;
use crate::supplied::Assumed;
use crate::text::{assumption_text, format_name, is_empty};
use crate::values::widest;
use crate::{Format, LogReader, Supplied};
use arrayvec::ArrayVec;
use mt_dump::{TextBuffer, append_text};
use mt_output::{LineBuffer, append, append_decimal, append_number, append_value};

// One word for two, if they are `assume=NAME` or empty.
#[tactic(auto, unfolding(crate::specs::Outcome::joined))]
fn joined(one: &'static [u8], other: &'static [u8]) -> &'static [u8]
    requires short { length one.now ≤ 19 }
    requires short_too { length other.now ≤ 19 }
    ensures text { result.now ≡ joined one.now other.now }
    ensures short { length result.now ≤ 19 }
{
    if is_empty(one) {
        other
    } else if is_empty(other) || is_text(one, other) {
        one
    } else {
        b"assume=all"
    }
}

fn word_if(is_allowed: bool, word: &'static [u8]) -> &'static [u8]
    ensures { result.now ≡ word_if is_allowed word.now }
{
    if is_allowed { word } else { b"" }
}

impl Assumed {
    // The word that allows it.
    fn text(&self) -> &'static [u8]
        ensures text { result.now ≡ allowed_text self.now }
        ensures short { length result.now ≤ 19 }
    {
        let width = word_if(self.width, b"assume=width");
        let capabilities = word_if(self.capabilities, b"assume=capabilities");
        let fixed = word_if(self.fixed, b"assume=fixed");
        let masks = word_if(self.masks, b"assume=masks");
        let pairs = word_if(self.pairs, b"assume=pairs");
        let pat = word_if(self.pat, b"assume=pat");
        let two = joined(width, capabilities);
        let three = joined(fixed, two);
        let four = joined(masks, three);
        let five = joined(pairs, four);
        joined(pat, five)
    }
}

fn help_on_width(known: Option<u8>, hint: Option<u8>) -> &'static [u8]
    ensures text { result.now ≡ help_on_width known hint }
    ensures short { length result.now ≤ 19 }
{
    match (known, hint) {
        (None, Some(_)) => b"assume=width",
        _ => b"",
    }
}

// The format's word.
fn choice_word(is_auto: bool, format: Option<Format>) -> &'static [u8]
    ensures text { result.now ≡ choice_word is_auto format }
    ensures short { length result.now ≤ 10 }
{
    if is_auto {
        b"auto"
    } else {
        format_name(format)
    }
}

// The word for the tables that are read.
fn table_word(pick: Pick) -> LineBuffer
    ensures text { result.items ≡ table_word pick }
    ensures short { array_vec_len result ≤ 27 }
{
    let mut text = ArrayVec::new();
    match pick {
        Pick::Each => {}
        Pick::Number(number) => {
            append(&mut text, b" table=");
            append_decimal(&mut text, number);
        }
        Pick::Last => append(&mut text, b" table=last"),
    }
    text
}

fn width_word(word: Option<u8>, known: Option<u8>, hint: Option<u8>) -> LineBuffer
    ensures text { result.items ≡ width_word word known hint }
    ensures short { array_vec_len result ≤ 40 }
{
    let mut text = ArrayVec::new();
    match (word, known, hint) {
        (Some(width), _, _) => {
            append(&mut text, b" maxphyaddr=");
            append_decimal(&mut text, width as u64);
        }
        (None, None, None) => append(&mut text, b" maxphyaddr=N"),
        _ => {}
    }
    text
}

fn register_at(registers: &[(u32, u64)], i: usize) -> (u32, u64)
    requires within { i < length registers.now }
    requires each { All (λ register. HasThreeDigits register.0) registers.now }
    ensures at { slice_get registers.now i ≡ Some result }
    ensures short { HasThreeDigits result.0 }
{
    registers[i]
}

fn register_word(register: (u32, u64)) -> LineBuffer
    requires { HasThreeDigits register.0 }
    ensures text { result.items ≡ register_word register }
    ensures short { array_vec_len result ≤ 21 }
{
    let mut text = ArrayVec::new();
    append(&mut text, b" ");
    append_number(&mut text, register.0);
    append(&mut text, b"=");
    append_value(&mut text, register.1);
    text
}

fn append_register_word(text: &mut TextBuffer, register: (u32, u64))
    requires room { array_vec_len text.old + 21 ≤ 0x8000 }
    requires number { HasThreeDigits register.0 }
    ensures text { text.new.items ≡ text.old.items ++ register_word register }
    ensures short { array_vec_len text.new ≤ array_vec_len text.old + 21 }
{
    append_text(text, register_word(register).as_slice());
}

fn append_register_words(text: &mut TextBuffer, registers: &[(u32, u64)])
    requires room { array_vec_len text.old ≤ 128 }
    requires few { length registers.now ≤ 86 }
    requires numbers { All (λ register. HasThreeDigits register.0) registers.now }
    ensures text { text.new.items ≡ text.old.items ++ register_words registers.now }
    ensures short { array_vec_len text.new ≤ 2048 }
{
    'registers: for i in 0..registers.len() {
        append_register_word(text, register_at(registers, i));
    }
}

fn append_blank_and(text: &mut TextBuffer, word: &[u8])
    requires room { array_vec_len text.old ≤ 2048 }
    requires short { length word.now ≤ 19 }
    ensures text { text.new.items ≡ text.old.items ++ behind_blank word.now }
    ensures short { array_vec_len text.new ≤ array_vec_len text.old + 20 }
{
    if !is_empty(word) {
        append_text(text, b" ");
        append_text(text, word);
    }
}

impl LogReader {
    // The assumption that would supply a register that is missing.
    fn help_on(&self, supplied: &Supplied, all: &Supplied, number: u32) -> &'static [u8]
        requires number { number < 0x1000 }
        requires all { all.now ≡ allowing_all supplied.now }
        ensures text { result.now ≡ help_in supplied.now self.now number }
        ensures short { length result.now ≤ 19 }
    {
        if self.is_missing(supplied, number) && !self.is_missing(all, number) {
            assumption_text(number, self.hint(supplied, number).unwrap_or(0))
        } else {
            b""
        }
    }

    // The word that allows what this word does, and what would supply these registers.
    fn helps_on(
        &self,
        supplied: &Supplied,
        all: &Supplied,
        word: &'static [u8],
        numbers: &[u32],
    ) -> &'static [u8]
        requires word { length word.now ≤ 19 }
        requires numbers { All HasThreeDigits numbers.now }
        requires all { all.now ≡ allowing_all supplied.now }
        ensures text { result.now ≡ helps_in supplied.now self.now word.now numbers.now }
        ensures short { length result.now ≤ 19 }
    {
        let mut helps = word;
        'registers: for i in 0..numbers.len() {
            helps = joined(helps, self.help_on(supplied, all, number_at(numbers, i)));
        }
        helps
    }

    // The word for all assumptions that are allowed or would help.
    fn help_words(&self, supplied: &Supplied, all: &Supplied, numbers: &[u32]) -> &'static [u8]
        requires numbers { All HasThreeDigits numbers.now }
        requires all { all.now ≡ allowing_all supplied.now }
        ensures text { result.now ≡ help_words_in supplied.now self.now numbers.now }
        ensures short { length result.now ≤ 19 }
    {
        let width = help_on_width(self.width(supplied), widest(self.masks(supplied)));
        let word = joined(supplied.assumed().text(), width);
        self.helps_on(supplied, all, word, numbers)
    }

    // Adds a word for a register that no assumption would supply.
    fn append_value_word(
        &self,
        text: &mut TextBuffer,
        supplied: &Supplied,
        all: &Supplied,
        number: u32,
    )
        requires room { array_vec_len text.old + 10 ≤ 0x8000 }
        requires number { HasThreeDigits number }
        requires all { all.now ≡ allowing_all supplied.now }
        ensures text { text.new.items ≡ text.old.items ++ value_word_in supplied.now self.now number }
        ensures short { array_vec_len text.new ≤ array_vec_len text.old + 10 }
    {
        if self.is_missing(all, number) {
            let mut word = ArrayVec::new();
            append(&mut word, b" ");
            append_number(&mut word, number);
            append(&mut word, b"=VALUE");
            append_text(text, word.as_slice());
        }
    }

    // Adds words for those of these registers that no assumption would supply.
    fn append_value_words(
        &self,
        text: &mut TextBuffer,
        supplied: &Supplied,
        all: &Supplied,
        numbers: &[u32],
    )
        requires room { array_vec_len text.old ≤ 2068 }
        requires few { length numbers.now ≤ 78 }
        requires numbers { All HasThreeDigits numbers.now }
        requires all { all.now ≡ allowing_all supplied.now }
        ensures text { text.new.items ≡ text.old.items ++ value_words_in supplied.now self.now numbers.now }
        ensures short { array_vec_len text.new ≤ 2900 }
    {
        'registers: for i in 0..numbers.len() {
            self.append_value_word(text, supplied, all, number_at(numbers, i));
        }
    }

    /// The line with the words so far and those that would supply all.
    pub(crate) fn advice(&self, is_auto: bool, supplied: &Supplied) -> TextBuffer
        ensures text { result.items ≡ advice_of is_auto supplied.now (findings_in self.now) }
        ensures short { array_vec_len result ≤ 2901 }
    {
        supplied.is_supplied(); // a fact for the proof
        let all = supplied.allowing_all();
        let needed = self.needed(&all);
        let numbers = needed.as_slice();
        let mut text = ArrayVec::new();
        append_text(&mut text, b"try: mtrr-import ");
        append_text(&mut text, choice_word(is_auto, self.tally().format));
        append_text(&mut text, table_word(supplied.table()).as_slice());
        let known = self.width(supplied);
        let hint = widest(self.masks(supplied));
        append_text(
            &mut text,
            width_word(supplied.width, known, hint).as_slice(),
        );
        append_register_words(&mut text, supplied.registers.as_slice());
        append_blank_and(&mut text, self.help_words(supplied, &all, numbers));
        self.append_value_words(&mut text, supplied, &all, numbers);
        append_text(&mut text, b"\n");
        text
    }
}
