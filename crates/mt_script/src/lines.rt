ghost use Rattle.std.specs.Prelude.{◌≡◌, ◌≤◌, length};
ghost use Rattle.mt_script.specs.Lines.{bad_script_line, offence_line, script_reason_text};

use crate::fault::{Offence, ScriptFault, ScriptReason};
use mt_output::{LineBuffer, bad_text, bad_text_line};

/// What is wrong with a script.
pub fn script_reason_text(reason: ScriptReason) -> &'static [u8]
    ensures text { result.now ≡ script_reason_text reason }
    ensures short { length result.now ≤ 20 }
{
    match reason {
        ScriptReason::BadLine => b"bad line",
        ScriptReason::BadNumber => b"bad number",
        ScriptReason::UnknownRegister => b"unknown register",
        ScriptReason::OutOfRange => b"out of range",
        ScriptReason::NoEnd => b"no end",
        ScriptReason::NotNow => b"not now",
        ScriptReason::Repeated => b"repeated",
    }
}

/// The line about a fault of a script.
pub fn bad_script_line(fault: &ScriptFault) -> LineBuffer
    ensures { result.items ≡ bad_script_line fault.now }
{
    bad_text(fault.place, script_reason_text(fault.reason))
}

/// The line about an offence of a script, or of its dump.
pub fn offence_line(offence: &Offence) -> LineBuffer
    ensures { result.items ≡ offence_line offence.now }
{
    match offence {
        Offence::Script(fault) => bad_script_line(fault),
        Offence::Dump(fault) => bad_text_line(fault),
    }
}
