ghost use Rattle.std.specs.Prelude.{◌≡◌};
ghost use Rattle.mt_import.specs.Chipsec.{chipsec_said};

use crate::LineSays;
use crate::tables::{Row, Says, said_in};
use mt_rows::{BLANKS, DECIMAL, EX, HEX, HEX_16, Run, SPACE, WORD};
use mt_text::Line;

/// The lines of chipsec that show a register.
#[rattlefmt::skip]
pub const CHIPSEC: [Row<'static>; 7] = [
    // `[CHIPSEC] CPU0: RDMSR( 0x200 ) = 0000000000000006 (EAX=00000006, EDX=00000000)`
    (&[(b"", SPACE), (b"[CHIPSEC]", BLANKS), (b"CPU", DECIMAL), (b":", BLANKS), (b"RDMSR(", BLANKS), (b"0", EX), (b"", HEX), (b"", BLANKS), (b")", BLANKS),
       (b"=", BLANKS), (b"", HEX_16)], Says::OfProcessor),
    // `[*] MTRRCAP = 0x0000000000000D0A << MTRR Capability (MSR 0xFE Thread 0x0)`, with one to six words.
    (&[(b"", SPACE), (b"[*]", BLANKS), (b"", WORD), (b"", BLANKS), (b"=", BLANKS), (b"0", EX), (b"", HEX_16), (b"", BLANKS), (b"<<", BLANKS),
       (b"", WORD), (b"", BLANKS), (b"(MSR", BLANKS), (b"0", EX), (b"", HEX), (b"", BLANKS), (b"Thread", BLANKS), (b"0", EX), (b"", HEX), (b")", Run::Nothing)], Says::ValueFirst),
    (&[(b"", SPACE), (b"[*]", BLANKS), (b"", WORD), (b"", BLANKS), (b"=", BLANKS), (b"0", EX), (b"", HEX_16), (b"", BLANKS), (b"<<", BLANKS),
       (b"", WORD), (b"", BLANKS), (b"", WORD), (b"", BLANKS), (b"(MSR", BLANKS), (b"0", EX), (b"", HEX), (b"", BLANKS), (b"Thread", BLANKS), (b"0", EX), (b"", HEX), (b")", Run::Nothing)], Says::ValueFirst),
    (&[(b"", SPACE), (b"[*]", BLANKS), (b"", WORD), (b"", BLANKS), (b"=", BLANKS), (b"0", EX), (b"", HEX_16), (b"", BLANKS), (b"<<", BLANKS),
       (b"", WORD), (b"", BLANKS), (b"", WORD), (b"", BLANKS), (b"", WORD), (b"", BLANKS), (b"(MSR", BLANKS), (b"0", EX), (b"", HEX), (b"", BLANKS), (b"Thread", BLANKS), (b"0", EX), (b"", HEX), (b")", Run::Nothing)], Says::ValueFirst),
    (&[(b"", SPACE), (b"[*]", BLANKS), (b"", WORD), (b"", BLANKS), (b"=", BLANKS), (b"0", EX), (b"", HEX_16), (b"", BLANKS), (b"<<", BLANKS),
       (b"", WORD), (b"", BLANKS), (b"", WORD), (b"", BLANKS), (b"", WORD), (b"", BLANKS), (b"", WORD), (b"", BLANKS), (b"(MSR", BLANKS), (b"0", EX), (b"", HEX), (b"", BLANKS), (b"Thread", BLANKS), (b"0", EX), (b"", HEX), (b")", Run::Nothing)], Says::ValueFirst),
    (&[(b"", SPACE), (b"[*]", BLANKS), (b"", WORD), (b"", BLANKS), (b"=", BLANKS), (b"0", EX), (b"", HEX_16), (b"", BLANKS), (b"<<", BLANKS),
       (b"", WORD), (b"", BLANKS), (b"", WORD), (b"", BLANKS), (b"", WORD), (b"", BLANKS), (b"", WORD), (b"", BLANKS), (b"", WORD), (b"", BLANKS), (b"(MSR", BLANKS), (b"0", EX), (b"", HEX), (b"", BLANKS), (b"Thread", BLANKS), (b"0", EX), (b"", HEX), (b")", Run::Nothing)], Says::ValueFirst),
    (&[(b"", SPACE), (b"[*]", BLANKS), (b"", WORD), (b"", BLANKS), (b"=", BLANKS), (b"0", EX), (b"", HEX_16), (b"", BLANKS), (b"<<", BLANKS),
       (b"", WORD), (b"", BLANKS), (b"", WORD), (b"", BLANKS), (b"", WORD), (b"", BLANKS), (b"", WORD), (b"", BLANKS), (b"", WORD), (b"", BLANKS), (b"", WORD), (b"", BLANKS), (b"(MSR", BLANKS), (b"0", EX), (b"", HEX), (b"", BLANKS), (b"Thread", BLANKS), (b"0", EX), (b"", HEX), (b")", Run::Nothing)], Says::ValueFirst),
];

/// What a line says.
pub(crate) fn chipsec_said(line: &Line<'_>) -> LineSays
    ensures { result ≡ chipsec_said line.now.number line.now.bytes.now }
{
    said_in(&CHIPSEC, line)
}
