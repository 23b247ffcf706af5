ghost use Rattle.std.specs.Prelude.{◌≡◌};
ghost use Rattle.mt_import.specs.Inteltool.{inteltool_said};

use crate::LineSays;
use crate::tables::{Row, Says, said_in};
use mt_rows::{BLANKS, DECIMAL, EX, HEX, HEX_8, Run, SPACE, WORD};
use mt_text::Line;

/// The lines of inteltool.
#[rattlefmt::skip]
pub const INTELTOOL: [Row<'static>; 4] = [
    // `MSR 0x000000FE = 0x00000000:0x00000D08 (IA32_MTRRCAP)`
    (&[(b"", SPACE), (b"MSR", BLANKS), (b"0", EX), (b"", HEX), (b"", BLANKS), (b"=", BLANKS), (b"0", EX), (b"", HEX_8), (b":0", EX), (b"", HEX_8)], Says::Halves),
    // `SHARED MSRs (All Cores)`: they are read on processor 0.
    (&[(b"", SPACE), (b"", WORD), (b"", BLANKS), (b"SHARED", BLANKS), (b"MSRs", Run::Nothing)], Says::TurnToFirst),
    // `UNIQUE MSRs  (core N)`
    (&[(b"", SPACE), (b"", WORD), (b"", BLANKS), (b"UNIQUE", BLANKS), (b"MSRs", BLANKS), (b"(core", BLANKS), (b"", DECIMAL), (b")", Run::Nothing)], Says::Turn(0)),
    (&[(b"", SPACE), (b"", WORD), (b"", BLANKS), (b"UNIQUE", BLANKS), (b"MSRs", BLANKS), (b"(core", Run::Nothing)], Says::TurnToUnread),
];

/// What a line says.
pub(crate) fn inteltool_said(line: &Line<'_>) -> LineSays
    ensures { result ≡ inteltool_said line.now.number line.now.bytes.now }
{
    said_in(&INTELTOOL, line)
}
