ghost use Rattle.std.specs.Prelude.{◌≡◌};
ghost use Rattle.mt_import.specs.Tables.{each_said};
ghost use Rattle.mt_import.specs.Shown.{format_told, is_telling, said_by_line, said_in, said_in_each, said_of, first_said, said_or_sizes, tells, unmarked};

use crate::chipsec::chipsec_said;
use crate::coreboot::coreboot_said;
use crate::edk2::edk2_said;
use crate::inteltool::inteltool_said;
use crate::linux::linux_said;
use crate::plain::plain_said;
use crate::rdmsr::rdmsr_said;
use crate::tables::each_said;
use crate::warnings::warning_of;
use crate::windbg::windbg_said;
use crate::x86info::{sizes_said, x86info_said};
use crate::xen::xen_said;
use crate::{LineSays, Reason};
use mt_text::Line;

/// A kind of log.
#[derive(Clone, Copy)]
pub enum Format {
    /// `set -x` over `rdmsr` of msr-tools.
    Rdmsr,
    /// x86info.
    X86info,
    /// inteltool of coreboot.
    Inteltool,
    /// coreboot's console.
    Coreboot,
    /// MtrrLib of EDK2.
    Edk2,
    /// The kernel's log of Linux, and `/proc/mtrr`.
    Linux,
    /// The console of Xen.
    Xen,
    /// Registers that chipsec prints.
    Chipsec,
    /// WinDbg's `rdmsr`.
    Windbg,
    /// Lists of registers and values.
    Plain,
}

/// The formats that a log may have.
#[derive(Clone, Copy)]
pub enum Choice {
    /// The one of which most lines show registers.
    Auto,
    Only(Format),
}

impl Format {
    fn said_by_line(self, line: &Line<'_>) -> LineSays
        ensures { result ≡ said_by_line self line.now.number line.now.bytes.now }
    {
        match self {
            Format::Rdmsr => rdmsr_said(line),
            Format::X86info => x86info_said(line),
            Format::Inteltool => inteltool_said(line),
            Format::Coreboot => coreboot_said(line),
            Format::Edk2 => edk2_said(line),
            Format::Linux => linux_said(line),
            Format::Xen => xen_said(line),
            Format::Chipsec => chipsec_said(line),
            Format::Windbg => windbg_said(line),
            Format::Plain => plain_said(line),
        }
    }

    /// What a line says, whatever the other lines say.
    pub fn said_of(self, line: &Line<'_>) -> LineSays
        ensures { result ≡ said_of self line.now.number line.now.bytes.now }
    {
        if line.too_long() {
            return LineSays::Bad(Reason::LongLine, line.past_limit());
        }
        let line = &unmarked(line);
        said_or_sizes(self.said_by_line(line), line)
    }

    fn tells(self, line: &Line<'_>) -> bool
        ensures { result ≡ tells self line.now.number line.now.bytes.now }
    {
        is_telling(&self.said_by_line(&unmarked(line)))
    }
}

/// The line without a byte-order mark of UTF-8 at its front.
pub(crate) fn unmarked<'a>(line: &Line<'a>) -> Line<'a>
    ensures number { result.number ≡ line.now.number }
    ensures bytes { result.bytes.now ≡ unmarked line.now.bytes.now }
{
    let bytes = match line.bytes {
        [0xef, 0xbb, 0xbf, rest @ ..] => rest,
        bytes => bytes,
    };
    Line {
        bytes,
        offset: 0,
        number: line.number,
        next: bytes.len(),
    }
}

// What a line says in each format.
fn said_in_each(line: &Line<'_>) -> LineSays
    ensures { result ≡ said_in_each line.now.number line.now.bytes.now }
{
    match warning_of(line) {
        Some(warning) => LineSays::Warns(warning, line.number),
        None => sizes_or_each(sizes_said(line), line),
    }
}

fn sizes_or_each(said: LineSays, line: &Line<'_>) -> LineSays
    ensures { result ≡ first_said said (each_said line.now.number line.now.bytes.now) }
{
    match said {
        LineSays::Nothing => each_said(line),
        said => said,
    }
}

fn said_or_sizes(said: LineSays, line: &Line<'_>) -> LineSays
    ensures { result ≡ said_or_sizes said line.now.number line.now.bytes.now }
{
    match said {
        LineSays::Nothing => said_in_each(line),
        said => said,
    }
}

fn is_telling(said: &LineSays) -> bool
    ensures { result ≡ is_telling said.now }
{
    match said {
        LineSays::Announces(..)
        | LineSays::Shows(..)
        | LineSays::Lists(..)
        | LineSays::Begins(_)
        | LineSays::FixedRanges(..)
        | LineSays::VariableRanges(..)
        | LineSays::Width(..) => true,
        LineSays::Turns(turn) => turn.tells(),
        _ => false,
    }
}

/// The first format in which a line says what no other format's line does.
pub(crate) fn format_told(line: &Line<'_>) -> Option<Format>
    ensures { result ≡ format_told line.now.number line.now.bytes.now }
{
    if line.too_long() {
        None
    } else if Format::Xen.tells(line) {
        Some(Format::Xen)
    } else if Format::Linux.tells(line) {
        Some(Format::Linux)
    } else if Format::Coreboot.tells(line) {
        Some(Format::Coreboot)
    } else if Format::Edk2.tells(line) {
        Some(Format::Edk2)
    } else if Format::Inteltool.tells(line) {
        Some(Format::Inteltool)
    } else if Format::X86info.tells(line) {
        Some(Format::X86info)
    } else if Format::Rdmsr.tells(line) {
        Some(Format::Rdmsr)
    } else if Format::Chipsec.tells(line) {
        Some(Format::Chipsec)
    } else if Format::Windbg.tells(line) {
        Some(Format::Windbg)
    } else if Format::Plain.tells(line) {
        Some(Format::Plain)
    } else {
        None
    }
}

/// What a line says in a format, if one is known.
pub(crate) fn said_in(format: Option<Format>, line: &Line<'_>) -> LineSays
    ensures { result ≡ said_in format line.now.number line.now.bytes.now }
{
    match format {
        Some(format) => format.said_of(line),
        None if line.too_long() => LineSays::Bad(Reason::LongLine, line.past_limit()),
        None => said_in_each(&unmarked(line)),
    }
}
