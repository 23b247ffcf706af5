ghost use Rattle.std.specs.Prelude.{◌≡◌, ◌≤◌, ◌+◌, ◌<◌, codes, length, map, string_bytes, position, IfSome, Some, None, true, false};
ghost use Rattle.mt_regs.specs.RegisterFile.{low_byte};
ghost use Rattle.mt_text.specs.Number.{decimal_number, hex_number};
ghost use Rattle.mt_import.specs.Outcome.{allowing_all};
ghost use Rattle.mt_import.specs.Pieces.{behind};
ghost use Rattle.mt_import.specs.Supplied.{AreGiven, IsSupplied, all_assumed, are_both, assumed_too, assumption_named, command_of, command_with, format_named, given_assumption, given_at, given_by, given_named, given_of, given_register, given_table, given_unless, given_width, has_table, is_equals, nothing_assumed, nothing_supplied, supplied_value, table_named, value_among, with_given, with_word, with_words};

use crate::pieces::is_text;
use crate::reading::is_register;
use crate::shape::Pick;
use crate::{Choice, Format};
use arrayvec::ArrayVec;
use mt_regs::{CAPABILITIES, MAX_PAIRS};
use mt_text::{decimal, hex64};
use std::marker::Model;

const LEAST_WIDTH: u64 = 32;

const GREATEST_WIDTH: u64 = 52;

// The width, 78 registers, six assumptions and a table.
const MOST_WORDS: usize = 86;

const MOST_TABLES: u64 = 65_535;

/// What may be assumed where neither a line nor a word says it. docs/IMPORT.md has each in words.
#[derive(Clone, Copy)]
pub struct Assumed {
    /// The PAT has its value of power-up, and in a log of Linux or Xen the one that the kernel sets.
    pub pat: bool,
    /// A pair that no line shows is 0.
    pub pairs: bool,
    /// A PhysMask of which a size is shown has ones up to the width.
    pub masks: bool,
    /// The fixed-range registers have the values that firmware of PCs gives them, and `2FF` has E and FE.
    pub fixed: bool,
    /// The width is that of the widest mask.
    pub width: bool,
    /// `0FE` has FIX, WC and VCNT: by the line `MTRR map`, or else by the last pair that is shown.
    pub capabilities: bool,
}

/// What one word supplies.
#[derive(Clone, Copy)]
pub enum Given {
    Width(u8),
    Register(u32, u64),
    Assume(Assumed),
    Table(Pick),
}

/// What the words of the command line supply.
#[derive(Drop)]
pub struct Supplied {
    pub width: Option<u8>,
    /// Each register's number and value.
    pub registers: ArrayVec<(u32, u64), 86>,
    pub assumed: Assumed,
    /// Which tables are read.
    pub table: Pick,
}

impl Model for Supplied {
    ghost use Rattle.mt_import.specs.Supplied.{IsSupplied, Supplied as Words};

    ghost Value = { Words };

    ghost view = { λ s. record { width = s.width; registers = s.registers.items; assumed = s.assumed; table = s.table } };

    ghost invariant = { λ s. IsSupplied (record { width = s.width; registers = s.registers.items; assumed = s.assumed; table = s.table }) };
}

fn value_among(number: u32, registers: &[(u32, u64)]) -> Option<u64>
    ensures { result ≡ value_among number registers.now }
{
    match registers.iter().find(|register| register.0 == number) {
        Some(register) => Some(register.1),
        None => None,
    }
}

// The same registers.
fn copied(registers: &[(u32, u64)]) -> ArrayVec<(u32, u64), 86>
    requires { length registers.now ≤ 86 }
    ensures { result.items ≡ registers.now }
{
    let mut copy = ArrayVec::new();
    for register in registers {
        copy.push(*register);
    }
    copy
}

fn given_width(digits: &[u8]) -> Option<Given>
    ensures given { result ≡ given_width (decimal_number digits.now 52) }
    ensures sound { IfSome result AreGiven }
{
    match decimal(digits, GREATEST_WIDTH) {
        Ok(width) if width >= LEAST_WIDTH => Some(Given::Width(width as u8)),
        _ => None,
    }
}

fn given_register(name: &[u8], value: &[u8]) -> Option<Given>
    ensures given { result ≡ given_register (hex_number name.now) (hex_number value.now) }
    ensures sound { IfSome result AreGiven }
{
    let Ok(number) = hex64(name) else {
        return None;
    };
    let Ok(value) = hex64(value) else {
        return None;
    };
    if !is_register(number) {
        return None;
    }
    if number == CAPABILITIES as u64 && value % 256 > MAX_PAIRS as u64 {
        return None;
    }
    Some(Given::Register(number as u32, value))
}

fn equals_at(word: &[u8]) -> Option<usize>
    ensures { result ≡ position is_equals word.now }
{
    word.iter().position(|byte| *byte == b'=')
}

fn given_at(word: &[u8]) -> Option<Given>
    ensures given { result ≡ given_at word.now (position is_equals word.now) }
    ensures sound { IfSome result AreGiven }
{
    match equals_at(word) {
        Some(at) => given_register(&word[..at], &word[at + 1..]),
        None => None,
    }
}

fn assumption_named(name: &[u8]) -> Option<Assumed>
    ensures { result ≡ assumption_named name.now }
{
    let mut assumed = Assumed::nothing();
    if is_text(b"pat", name) {
        assumed.pat = true;
    } else if is_text(b"pairs", name) {
        assumed.pairs = true;
    } else if is_text(b"masks", name) {
        assumed.masks = true;
    } else if is_text(b"fixed", name) {
        assumed.fixed = true;
    } else if is_text(b"width", name) {
        assumed.width = true;
    } else if is_text(b"capabilities", name) {
        assumed.capabilities = true;
    } else if is_text(b"all", name) {
        assumed = Assumed::all();
    } else {
        return None;
    }
    Some(assumed)
}

fn given_assumption(name: &[u8]) -> Option<Given>
    ensures given { result ≡ given_assumption (assumption_named name.now) }
    ensures sound { IfSome result AreGiven }
{
    match assumption_named(name) {
        Some(assumed) => Some(Given::Assume(assumed)),
        None => None,
    }
}

fn table_named(name: &[u8]) -> Option<Pick>
    ensures { result ≡ table_named name.now }
{
    if is_text(b"first", name) {
        return Some(Pick::Number(1));
    }
    if is_text(b"last", name) {
        return Some(Pick::Last);
    }
    match decimal(name, MOST_TABLES) {
        Ok(number) if number > 0 => Some(Pick::Number(number)),
        _ => None,
    }
}

fn given_table(name: &[u8]) -> Option<Given>
    ensures given { result ≡ given_table (table_named name.now) }
    ensures sound { IfSome result AreGiven }
{
    match table_named(name) {
        Some(pick) => Some(Given::Table(pick)),
        None => None,
    }
}

fn given_named(word: &[u8]) -> Option<Given>
    ensures given { result ≡ given_named word.now (behind (codes "table=") word.now) }
    ensures sound { IfSome result AreGiven }
{
    match word.strip_prefix(b"table=") {
        Some(name) => given_table(name),
        None => given_at(word),
    }
}

fn given_unless(word: &[u8]) -> Option<Given>
    ensures given { result ≡ given_unless word.now (behind (codes "assume=") word.now) }
    ensures sound { IfSome result AreGiven }
{
    match word.strip_prefix(b"assume=") {
        Some(name) => given_assumption(name),
        None => given_named(word),
    }
}

fn given_of(word: &[u8]) -> Option<Given>
    ensures given { result ≡ given_of word.now }
    ensures sound { IfSome result AreGiven }
{
    match word.strip_prefix(b"maxphyaddr=") {
        Some(digits) => given_width(digits),
        None => given_unless(word),
    }
}

fn format_named(word: &[u8]) -> Option<Choice>
    ensures { result ≡ format_named word.now }
{
    let format = if is_text(b"auto", word) {
        return Some(Choice::Auto);
    } else if is_text(b"rdmsr", word) {
        Format::Rdmsr
    } else if is_text(b"x86info", word) {
        Format::X86info
    } else if is_text(b"inteltool", word) {
        Format::Inteltool
    } else if is_text(b"coreboot", word) {
        Format::Coreboot
    } else if is_text(b"edk2", word) {
        Format::Edk2
    } else if is_text(b"linux", word) {
        Format::Linux
    } else if is_text(b"xen", word) {
        Format::Xen
    } else if is_text(b"chipsec", word) {
        Format::Chipsec
    } else if is_text(b"windbg", word) {
        Format::Windbg
    } else if is_text(b"plain", word) {
        Format::Plain
    } else {
        return None;
    };
    Some(Choice::Only(format))
}

impl Assumed {
    fn nothing() -> Assumed
        ensures { result ≡ nothing_assumed }
    {
        Assumed {
            pat: false,
            pairs: false,
            masks: false,
            fixed: false,
            width: false,
            capabilities: false,
        }
    }

    /// All of it.
    pub(crate) fn all() -> Assumed
        ensures { result ≡ all_assumed }
    {
        Assumed {
            pat: true,
            pairs: true,
            masks: true,
            fixed: true,
            width: true,
            capabilities: true,
        }
    }

    // Whether both have the same assumption.
    fn meets(&self, other: &Assumed) -> bool
        ensures { result ≡ are_both self.now other.now }
    {
        (self.pat && other.pat)
            || (self.pairs && other.pairs)
            || (self.masks && other.masks)
            || (self.fixed && other.fixed)
            || (self.width && other.width)
            || (self.capabilities && other.capabilities)
    }

    fn and(&self, other: &Assumed) -> Assumed
        ensures { result ≡ assumed_too self.now other.now }
    {
        Assumed {
            pat: self.pat || other.pat,
            pairs: self.pairs || other.pairs,
            masks: self.masks || other.masks,
            fixed: self.fixed || other.fixed,
            width: self.width || other.width,
            capabilities: self.capabilities || other.capabilities,
        }
    }
}

impl Supplied {
    fn none() -> Supplied
        ensures { result ≡ nothing_supplied }
    {
        Supplied {
            width: None,
            registers: ArrayVec::new(),
            assumed: Assumed::nothing(),
            table: Pick::Each,
        }
    }

    /// What every value of the type keeps. This does nothing.
    pub fn is_supplied(&self)
        ensures { IsSupplied self.now }
    {
        let _ = &self.width;
    }

    /// The same with all assumptions, and with the greatest width if none is supplied.
    pub(crate) fn allowing_all(&self) -> Supplied
        ensures { result ≡ allowing_all self.now }
    {
        Supplied {
            width: self.width.or(Some(GREATEST_WIDTH as u8)),
            registers: copied(self.registers.as_slice()),
            assumed: Assumed::all(),
            table: self.table,
        }
    }

    /// What may be assumed.
    pub fn assumed(&self) -> Assumed
        ensures { result ≡ self.now.assumed }
    {
        self.assumed
    }

    /// Which tables are read.
    pub(crate) fn table(&self) -> Pick
        ensures { result ≡ self.now.table }
    {
        self.table
    }

    /// A register's value, where it is supplied.
    pub fn value(&self, number: u32) -> Option<u64>
        ensures { result ≡ supplied_value self.now number }
    {
        value_among(number, self.registers.as_slice())
    }

    // Whether a word says which tables are read.
    fn has_table(&self) -> bool
        ensures { result ≡ has_table self.now.table }
    {
        !matches!(self.table, Pick::Each)
    }

    // Adds what a word supplies, and says whether it wasn't supplied before.
    fn add(&mut self, given: Given) -> bool
        requires room { length self.old.registers < 86 }
        requires given { AreGiven given }
        ensures added { result ≡ true → with_given self.old given ≡ Some self.new }
        ensures twice { result ≡ false → with_given self.old given ≡ None }
        ensures size { length self.new.registers ≤ length self.old.registers + 1 }
    {
        match given {
            Given::Width(width) => {
                if self.width.is_some() {
                    return false;
                }
                self.width = Some(width);
                true
            }
            Given::Register(number, value) => {
                if self.value(number).is_some() {
                    return false;
                }
                self.registers.push((number, value));
                true
            }
            Given::Assume(assumed) => {
                if self.assumed.meets(&assumed) {
                    return false;
                }
                self.assumed = self.assumed.and(&assumed);
                true
            }
            Given::Table(pick) => {
                if self.has_table() {
                    return false;
                }
                self.table = pick;
                true
            }
        }
    }
}

// What these words supply.
fn with_words(words: &[String]) -> Option<Supplied>
    requires { length words.now ≤ 86 }
    ensures { result ≡ with_words (Some nothing_supplied) (map string_bytes words.now) }
{
    let mut supplied = Supplied::none();
    let mut i = 0;
    'words: while i < words.len() {
        let Some(given) = given_of(words[i].as_bytes()) else {
            return None;
        };
        if !supplied.add(given) {
            return None;
        }
        i += 1;
    }
    Some(supplied)
}

/// The format and what is supplied, where the words are a command line.
pub fn command_of(words: &[String]) -> Option<(Choice, Supplied)>
    ensures { result ≡ command_of (map string_bytes words.now) }
{
    let (name, words) = words.split_first()?;
    if words.len() > MOST_WORDS {
        return None;
    }
    match (format_named(name.as_bytes()), with_words(words)) {
        (Some(choice), Some(supplied)) => Some((choice, supplied)),
        _ => None,
    }
}
