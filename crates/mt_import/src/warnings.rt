ghost use Rattle.std.specs.Prelude.{◌≡◌, ◌≤◌, ◌+◌, ◌++◌, length};
ghost use Rattle.arrayvec.specs.ArrayVec.{array_vec_len};
ghost use Rattle.mt_import.specs.Warnings.{has_memory_bits, is_lost, is_syscfg, is_top_of_memory, kernel_warning, line_on, line_warned, names_syscfg, none_warned, warned_by, warned_with, warning_in, warning_line, warning_lines, warning_of, warning_text};

use crate::line_words::{LineWords, kernel_end};
use crate::shape::{Reading, Warned, Warning};
use arrayvec::ArrayVec;
use mt_dump::{TextBuffer, append_text};
use mt_output::{LineBuffer, append, append_decimal};
use mt_text::Line;

// RdMem and WrMem of each fixed range.
const MEMORY_BITS: u64 = 0x1818_1818_1818_1818;

fn kernel_warning(words: &LineWords<'_>) -> Option<Warning>
    ensures { result ≡ kernel_warning words.now.words }
{
    if words.is(2, b"CPUs") && words.is(4, b"inconsistent") {
        Some(Warning::Unlike)
    } else if words.is(6, b"incorrect") && words.is(7, b"mask,") {
        Some(Warning::WrongMask)
    } else {
        None
    }
}

fn is_lost(words: &LineWords<'_>) -> bool
    ensures { result ≡ is_lost words.now.words }
{
    words.is(4, b"MTRRs") && words.is(6, b"cover") && words.is(10, b"losing")
}

fn names_syscfg(word: &[u8]) -> bool
    ensures { result ≡ names_syscfg word.now }
{
    word.strip_prefix(b"SYSCFG").is_some()
}

fn is_syscfg(words: &LineWords<'_>) -> bool
    ensures { result ≡ is_syscfg words.now.words }
{
    names_syscfg(words.text(0))
        || (words.is(0, b"[Firmware") && names_syscfg(words.text(5)))
        || (words.text(0).strip_prefix(b"MTRR").is_some()
            && words.text(1).strip_prefix(b"CPU").is_some()
            && names_syscfg(words.text(2)))
}

fn is_top_of_memory(word: &[u8]) -> bool
    ensures { result ≡ is_top_of_memory word.now }
{
    word.strip_prefix(b"TOM2").is_some() || word.strip_prefix(b"Tom2").is_some()
}

fn warning_in(words: &LineWords<'_>) -> Option<Warning>
    ensures { result ≡ warning_in words.now.words }
{
    if words.is(0, b"mtrr:") {
        kernel_warning(words)
    } else if words.is(0, b"WARNING:") && is_lost(words) {
        Some(Warning::LostMemory)
    } else if is_top_of_memory(words.text(0)) {
        Some(Warning::TopOfMemory)
    } else if is_syscfg(words) {
        Some(Warning::Syscfg)
    } else {
        None
    }
}

/// What a line warns of, by its words.
pub(crate) fn warning_of(line: &Line<'_>) -> Option<Warning>
    ensures { result ≡ warning_of line.now.bytes.now }
{
    warning_in(&LineWords::behind(kernel_end(line), line))
}

fn has_memory_bits(reading: &Reading) -> bool
    ensures { result ≡ has_memory_bits reading.now }
{
    0x24f < reading.number && reading.number < 0x270 && reading.value & MEMORY_BITS != 0
}

fn warning_text(warning: Warning) -> &'static [u8]
    ensures text { result.now ≡ warning_text warning }
    ensures short { length result.now ≤ 100 }
{
    match warning {
        Warning::Unlike => b"the kernel found that the processors' MTRRs differ",
        Warning::WrongMask => {
            b"the kernel corrected a mask, so the registers may have another than it prints"
        }
        Warning::LostMemory => {
            b"the kernel leaves out RAM, since these ranges don't make all of it WB"
        }
        Warning::TopOfMemory => {
            b"TOM2: AMD's rules may make RAM from 4 GB to TOM2 WB, and Intel's, which mtrr has, don't"
        }
        Warning::Syscfg => {
            b"SYSCFG: AMD's rules may read bits 4:3 of fixed ranges, which Intel's, which mtrr has, reserve"
        }
        Warning::MemoryBits => {
            b"a fixed range has AMD's RdMem or WrMem, bits 4:3, and by Intel's rules, which mtrr has, no type"
        }
    }
}

fn warning_line(warning: Warning, number: Option<u64>) -> LineBuffer
    ensures text { result.items ≡ warning_line warning number }
    ensures short { array_vec_len result ≤ 138 }
{
    let mut line = ArrayVec::new();
    if let Some(number) = number {
        append(&mut line, b"warning: line ");
        append_decimal(&mut line, number);
        append(&mut line, b": ");
        append(&mut line, warning_text(warning));
        append(&mut line, b"\n");
    }
    line
}

impl Warned {
    /// Before all lines.
    pub(crate) fn none() -> Warned
        ensures { result ≡ none_warned }
    {
        Warned {
            unlike: None,
            wrong_mask: None,
            lost_memory: None,
            top_of_memory: None,
            syscfg: None,
            memory_bits: None,
        }
    }

    /// Behind a line of this number that warns.
    pub(crate) fn with(self, warning: Warning, number: u64) -> Warned
        ensures { result ≡ warned_with warning number self }
    {
        let line = Some(number);
        match warning {
            Warning::Unlike => Warned {
                unlike: line,
                ..self
            },
            Warning::WrongMask => Warned {
                wrong_mask: line,
                ..self
            },
            Warning::LostMemory => Warned {
                lost_memory: line,
                ..self
            },
            Warning::TopOfMemory => Warned {
                top_of_memory: line,
                ..self
            },
            Warning::Syscfg => Warned {
                syscfg: line,
                ..self
            },
            Warning::MemoryBits => Warned {
                memory_bits: line,
                ..self
            },
        }
    }

    /// Behind what one more line shows of a register.
    pub(crate) fn by(self, reading: &Reading) -> Warned
        ensures { result ≡ warned_by reading.now self }
    {
        if has_memory_bits(reading) {
            self.with(Warning::MemoryBits, reading.place.line)
        } else {
            self
        }
    }

    // The last line that warns of this.
    fn line(&self, warning: Warning) -> Option<u64>
        ensures { result ≡ line_warned self.now warning }
    {
        match warning {
            Warning::Unlike => self.unlike,
            Warning::WrongMask => self.wrong_mask,
            Warning::LostMemory => self.lost_memory,
            Warning::TopOfMemory => self.top_of_memory,
            Warning::Syscfg => self.syscfg,
            Warning::MemoryBits => self.memory_bits,
        }
    }

    fn append_line(&self, text: &mut TextBuffer, warning: Warning)
        requires { array_vec_len text.old + 138 ≤ 0x8000 }
        ensures text { text.new.items ≡ text.old.items ++ line_on self.now warning }
        ensures short { array_vec_len text.new ≤ array_vec_len text.old + 138 }
    {
        append_text(text, warning_line(warning, self.line(warning)).as_slice());
    }

    /// Adds a line for each kind that lines warn of.
    pub(crate) fn append_lines(&self, text: &mut TextBuffer)
        requires { array_vec_len text.old ≤ 256 }
        ensures text { text.new.items ≡ text.old.items ++ warning_lines self.now }
        ensures short { array_vec_len text.new ≤ array_vec_len text.old + 828 }
    {
        self.append_line(text, Warning::Unlike);
        self.append_line(text, Warning::WrongMask);
        self.append_line(text, Warning::LostMemory);
        self.append_line(text, Warning::TopOfMemory);
        self.append_line(text, Warning::Syscfg);
        self.append_line(text, Warning::MemoryBits);
    }
}
