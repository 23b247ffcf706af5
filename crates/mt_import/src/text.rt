ghost use Rattle.std.specs.Prelude.{◌≡◌, ◌≤◌, ◌<◌, ◌+◌, ◌++◌, codes, decimal, length, Some, None};
ghost use Rattle.arrayvec.specs.ArrayVec.{array_vec_len};
ghost use Rattle.mt_import.specs.Outcome.{assumption_text, contradiction_line, count_line, fault_line, faulted, format_name, hint_text, is_empty, missing_line, note_by, number_if, reason_text, rival_text, run_text, width_hint, width_line, width_note};
ghost use Rattle.mt_import.specs.Import.{IsWritten, dump_text};
ghost use Rattle.mt_import.specs.Reader.{IsShort};
ghost use Rattle.mt_regs.specs.Registers.{HasThreeDigits};

use crate::shape::Tally;
use crate::values::is_pair_number;
use crate::{Format, ImportFault, Reason, Rival, Stop};
use arrayvec::ArrayVec;
use mt_dump::{TextBuffer, append_text};
use mt_output::{LineBuffer, append, append_decimal, append_number, append_value, bad_text};
use mt_ports::Status;
use mt_regs::{CAPABILITIES, PAT};
use mt_text::Place;
use std::marker::Model;

/// What a log comes to: the texts for standard output, of which comments come first, and for standard error, and the status.
#[derive(Drop)]
pub struct Outcome {
    pub notes: TextBuffer,
    pub dump: TextBuffer,
    pub reasons: TextBuffer,
    pub status: Status,
}

impl Model for Outcome {
    ghost use Rattle.mt_import.specs.Outcome.{Outcome as Texts};

    ghost Value = { Texts };

    ghost view = { λ i. record { notes = i.notes.items; dump = i.dump.items; reasons = i.reasons.items; status = i.status } };
}

// `: line 7`, and what it does.
fn append_line(line: &mut LineBuffer, number: u64, text: &[u8])
    requires room { array_vec_len line.old ≤ 80 }
    requires short { length text.now ≤ 31 }
    ensures text { line.new.items ≡ line.old.items ++ (codes ": line " ++ decimal number ++ text.now) }
    ensures short { array_vec_len line.new ≤ array_vec_len line.old + 58 }
{
    append(line, b": line ");
    append_decimal(line, number);
    append(line, text);
}

fn append_rival(line: &mut LineBuffer, rival: Rival)
    requires { array_vec_len line.old ≤ 80 }
    ensures text { line.new.items ≡ line.old.items ++ rival_text rival }
    ensures short { array_vec_len line.new ≤ array_vec_len line.old + 58 }
{
    match rival {
        Rival::Line(number) => append_line(line, number, b" shows it otherwise"),
        Rival::Word => append(line, b": a word supplies it otherwise"),
        Rival::CapabilityLine(number) => append_line(line, number, b" shows 0fe without it"),
        Rival::CapabilityWord => append(line, b": a word supplies 0fe without it"),
        Rival::RegisterLine(number) => {
            append_line(line, number, b" shows a register that it lacks");
        }
    }
}

fn contradiction_line(place: Place, number: u32, rival: Rival) -> LineBuffer
    requires { HasThreeDigits number }
    ensures { result.items ≡ contradiction_line place number rival }
{
    let mut line = ArrayVec::new();
    append(&mut line, b"contradiction ");
    append_decimal(&mut line, place.line);
    append(&mut line, b":");
    append_decimal(&mut line, place.column);
    append(&mut line, b" ");
    append_number(&mut line, number);
    append_rival(&mut line, rival);
    append(&mut line, b"\n");
    line
}

fn width_line(place: Place, rival: Rival) -> LineBuffer
    ensures { result.items ≡ width_line place rival }
{
    let mut line = ArrayVec::new();
    append(&mut line, b"contradiction ");
    append_decimal(&mut line, place.line);
    append(&mut line, b":");
    append_decimal(&mut line, place.column);
    append(&mut line, b" maxphyaddr");
    append_rival(&mut line, rival);
    append(&mut line, b"\n");
    line
}

fn reason_text(why: Reason) -> &'static [u8]
    ensures text { result.now ≡ reason_text why }
    ensures short { length result.now ≤ 20 }
{
    match why {
        Reason::LongLine => b"bad line",
        Reason::BadNumber => b"bad number",
        Reason::MixedNumbers => b"mixed numbers",
        Reason::Utf16 => b"UTF-16",
    }
}

fn fault_line(fault: &ImportFault) -> LineBuffer
    requires { IsShort fault.now }
    ensures { result.items ≡ fault_line fault.now }
{
    match fault {
        ImportFault::BadLine(why, place) => bad_text(*place, reason_text(*why)),
        ImportFault::BadProcessor(place) => bad_text(*place, b"bad processor"),
        ImportFault::TooManyPairs(place) => bad_text(*place, b"too many pairs"),
        ImportFault::BadWidth(place) => bad_text(*place, b"bad width"),
        ImportFault::Contradiction(place, number, rival) => {
            contradiction_line(*place, *number, *rival)
        }
        ImportFault::WidthContradiction(place, rival) => width_line(*place, *rival),
    }
}

/// What a fault comes to, behind what lines before it warn of, and with what is told behind it.
pub(crate) fn faulted(stop: &Stop, hint: &[u8]) -> Outcome
    requires fault { IsShort stop.now.fault }
    requires hint { length hint.now ≤ 224 }
    ensures told { result ≡ faulted stop.now.fault stop.now.warned hint.now }
    ensures written { IsWritten result.status (dump_text result) }
    ensures room { length result.reasons ≤ 0x7c00 }
{
    let mut reasons = ArrayVec::new();
    stop.warned.append_lines(&mut reasons);
    append_text(&mut reasons, fault_line(&stop.fault).as_slice());
    append_text(&mut reasons, hint);
    Outcome {
        notes: ArrayVec::new(),
        dump: ArrayVec::new(),
        reasons,
        status: Status::BadText,
    }
}

/// The assumption that gives a register this value.
pub(crate) fn assumption_text(number: u32, value: u64) -> &'static [u8]
    ensures text { result.now ≡ assumption_text number value }
    ensures short { length result.now ≤ 19 }
{
    if number == PAT {
        b"assume=pat"
    } else if number == CAPABILITIES {
        b"assume=capabilities"
    } else if !is_pair_number(number) {
        b"assume=fixed"
    } else if value == 0 {
        b"assume=pairs"
    } else {
        b"assume=masks"
    }
}

fn append_hint(line: &mut LineBuffer, number: u32, hint: Option<u64>)
    requires { array_vec_len line.old ≤ 80 }
    ensures text { line.new.items ≡ line.old.items ++ hint_text number hint }
    ensures short { array_vec_len line.new ≤ array_vec_len line.old + 23 }
{
    if let Some(value) = hint {
        append(line, b" or ");
        append(line, assumption_text(number, value));
    }
}

/// The line on a register that these processors lack, with the words that would supply it.
pub(crate) fn missing_line(number: u32, processors: &[u8], hint: Option<u64>) -> LineBuffer
    requires number { HasThreeDigits number }
    requires few { length processors.now ≤ 56 }
    ensures text { result.items ≡ missing_line number processors.now hint }
    ensures short { array_vec_len result ≤ 104 }
{
    let mut line = ArrayVec::new();
    append(&mut line, b"missing ");
    append_number(&mut line, number);
    append(&mut line, processors);
    append(&mut line, b": ");
    append_number(&mut line, number);
    append(&mut line, b"=VALUE");
    append_hint(&mut line, number, hint);
    append(&mut line, b"\n");
    line
}

/// The line on the width that is missing, with the words that would supply it.
pub(crate) fn width_hint(hint: Option<u8>) -> &'static [u8]
    ensures text { result.now ≡ width_hint hint }
    ensures short { length result.now ≤ 49 }
{
    match hint {
        Some(_) => b"missing maxphyaddr: maxphyaddr=N or assume=width\n",
        None => b"missing maxphyaddr: maxphyaddr=N\n",
    }
}

// Adds a mark of one byte and a processor's number.
fn append_marked(text: &mut LineBuffer, mark: &[u8], k: u32)
    requires few { k < 16 }
    requires room { array_vec_len text.old ≤ 48 }
    requires one { length mark.now ≤ 1 }
    ensures text { text.new.items ≡ text.old.items ++ mark.now ++ decimal k }
    ensures short { array_vec_len text.new ≤ array_vec_len text.old + 3 }
{
    append(text, mark);
    append_decimal(text, k as u64);
}

/// Adds the number of a processor to those that lack a register, if a run of numbers begins or ends with it.
pub(crate) fn append_run(text: &mut LineBuffer, before: bool, here: bool, behind: bool, k: u32)
    requires few { k < 16 }
    requires room { array_vec_len text.old ≤ 48 }
    ensures text { text.new.items ≡ run_text before here behind k text.old.items }
    ensures short { array_vec_len text.new ≤ array_vec_len text.old + 3 }
{
    if !here || (before && behind) {
        return;
    }
    if before {
        append_marked(text, b"-", k);
    } else if is_empty(text.as_slice()) {
        append_marked(text, b" ", k);
    } else {
        append_marked(text, b",", k);
    }
}

/// Adds the number of a processor to those that a comment names.
pub(crate) fn append_noted(processors: &mut LineBuffer, is_noted: bool, k: u32)
    requires few { k < 16 }
    requires room { array_vec_len processors.old ≤ 48 }
    ensures text { processors.new.items ≡ processors.old.items ++ number_if is_noted k }
    ensures short { array_vec_len processors.new ≤ array_vec_len processors.old + 3 }
{
    if is_noted {
        append(processors, b" ");
        append_decimal(processors, k as u64);
    }
}

/// The comment on a register's value that was assumed of these processors, if there are any.
pub(crate) fn note_by(number: u32, value: u64, processors: &[u8]) -> LineBuffer
    requires number { HasThreeDigits number }
    requires few { length processors.now ≤ 48 }
    ensures text { result.items ≡ note_by number value processors.now }
    ensures short { array_vec_len result ≤ 112 }
{
    let mut line = ArrayVec::new();
    if is_empty(processors) {
        return line;
    }
    append(&mut line, b"# assumed ");
    append_number(&mut line, number);
    append(&mut line, b" ");
    append_value(&mut line, value);
    append(&mut line, b" of cpu");
    append(&mut line, processors);
    append(&mut line, b" by ");
    append(&mut line, assumption_text(number, value));
    append(&mut line, b"\n");
    line
}

pub(crate) fn is_empty(text: &[u8]) -> bool
    ensures { result ≡ is_empty text.now }
{
    match text {
        [] => true,
        _ => false,
    }
}

/// The comment on a width that was assumed.
pub(crate) fn width_note(width: u8) -> LineBuffer
    ensures text { result.items ≡ width_note None (Some width) }
    ensures short { array_vec_len result ≤ 64 }
{
    let mut line = ArrayVec::new();
    append(&mut line, b"# assumed maxphyaddr ");
    append_decimal(&mut line, width as u64);
    append(&mut line, b" by assume=width");
    append(&mut line, b"\n");
    line
}

/// The name of a format.
pub(crate) fn format_name(format: Option<Format>) -> &'static [u8]
    ensures text { result.now ≡ format_name format }
    ensures short { length result.now ≤ 10 }
{
    match format {
        None => b"any format",
        Some(Format::Rdmsr) => b"rdmsr",
        Some(Format::X86info) => b"x86info",
        Some(Format::Inteltool) => b"inteltool",
        Some(Format::Coreboot) => b"coreboot",
        Some(Format::Edk2) => b"edk2",
        Some(Format::Linux) => b"linux",
        Some(Format::Xen) => b"xen",
        Some(Format::Chipsec) => b"chipsec",
        Some(Format::Windbg) => b"windbg",
        Some(Format::Plain) => b"plain",
    }
}

/// How many lines are of the format.
pub(crate) fn count_line(tally: &Tally) -> LineBuffer
    ensures text { result.items ≡ count_line tally.now }
    ensures short { array_vec_len result ≤ 71 }
{
    let mut line = ArrayVec::new();
    append_decimal(&mut line, tally.matches);
    append(&mut line, b" of ");
    append_decimal(&mut line, tally.lines);
    append(&mut line, b" lines are of ");
    append(&mut line, format_name(tally.format));
    append(&mut line, b"\n");
    line
}
