ghost use Rattle.std.specs.Prelude.{◌≡◌, ◌≤◌, length};
ghost use Rattle.mt_output.specs.Lines.{bad_text, bad_text_line, dump_reason_text, dump_refused_line, reason_text, refused_cpu_line, refused_line};
ghost use Rattle.mt_regs.specs.Registers.{HasThreeDigits};

use crate::line::{LineBuffer, append, append_decimal, append_number};
use arrayvec::ArrayVec;
use mt_dump::{DumpFault, DumpReason};
use mt_regs::{Fault, Reason};
use mt_text::Place;

/// Why a register file isn't accepted.
pub fn reason_text(reason: Reason) -> &'static [u8]
    ensures text { result.now ≡ reason_text reason }
    ensures short { length result.now ≤ 20 }
{
    match reason {
        Reason::ReservedBit => b"reserved bit",
        Reason::UnsupportedType => b"unsupported type",
        Reason::BrokenMask => b"broken mask",
        Reason::UndefinedOverlap => b"undefined overlap",
    }
}

/// The line about a register at fault.
pub fn refused_line(fault: &Fault) -> LineBuffer
    requires { HasThreeDigits fault.now.msr }
    ensures { result.items ≡ refused_line fault.now }
{
    let mut line = ArrayVec::new();
    append(&mut line, b"refused ");
    append_number(&mut line, fault.msr);
    append(&mut line, b" ");
    append(&mut line, reason_text(fault.reason));
    append(&mut line, b"\n");
    line
}

// The line about a register at fault in the file of a processor.
fn refused_cpu_line(k: u32, fault: &Fault) -> LineBuffer
    requires { HasThreeDigits fault.now.msr }
    ensures { result.items ≡ refused_cpu_line k fault.now }
{
    let mut line = ArrayVec::new();
    append(&mut line, b"refused cpu ");
    append_decimal(&mut line, k as u64);
    append(&mut line, b" ");
    append_number(&mut line, fault.msr);
    append(&mut line, b" ");
    append(&mut line, reason_text(fault.reason));
    append(&mut line, b"\n");
    line
}

/// The line about file `k` of a dump of this version, which names a processor in version 2 alone.
pub fn dump_refused_line(version: u8, k: u32, fault: &Fault) -> LineBuffer
    requires { HasThreeDigits fault.now.msr }
    ensures { result.items ≡ dump_refused_line version k fault.now }
{
    if version == 2 {
        refused_cpu_line(k, fault)
    } else {
        refused_line(fault)
    }
}

/// What is wrong with a dump.
pub fn dump_reason_text(reason: DumpReason) -> &'static [u8]
    ensures text { result.now ≡ dump_reason_text reason }
    ensures short { length result.now ≤ 20 }
{
    match reason {
        DumpReason::BadLine => b"bad line",
        DumpReason::BadNumber => b"bad number",
        DumpReason::UnknownRegister => b"unknown register",
        DumpReason::Repeated => b"repeated",
        DumpReason::NoCap => b"no cap",
        DumpReason::BadWidth => b"bad width",
        DumpReason::TooManyPairs => b"too many pairs",
        DumpReason::BadVersion => b"bad version",
        DumpReason::BadSection => b"bad section",
        DumpReason::Differs => b"differs",
    }
}

/// The line about an offence at a place.
pub fn bad_text(place: Place, reason: &[u8]) -> LineBuffer
    requires { length reason.now ≤ 20 }
    ensures { result.items ≡ bad_text place reason.now }
{
    let mut line = ArrayVec::new();
    append(&mut line, b"bad text ");
    append_decimal(&mut line, place.line);
    append(&mut line, b":");
    append_decimal(&mut line, place.column);
    append(&mut line, b" ");
    append(&mut line, reason);
    append(&mut line, b"\n");
    line
}

/// The line about an offence of a dump.
pub fn bad_text_line(fault: &DumpFault) -> LineBuffer
    ensures { result.items ≡ bad_text_line fault.now }
{
    bad_text(fault.place, dump_reason_text(fault.reason))
}
