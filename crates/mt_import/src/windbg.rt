ghost use Rattle.std.specs.Prelude.{◌≡◌};
ghost use Rattle.mt_import.specs.Windbg.{windbg_said};

use crate::LineSays;
use crate::tables::{Row, Says, said_in};
use mt_rows::{DECIMAL, EX, HEX, HEX_8, HEX_16, Kind, Run, SPACE};
use mt_text::Line;

// Two and more.
const DIGITS: Run = Run::Of(Kind::Figure, 2, 4096);

/// The lines of WinDbg's `rdmsr`.
#[rattlefmt::skip]
pub const WINDBG: [Row<'static>; 6] = [
    // `msr[200] = 00000000`00000006`
    (&[(b"", SPACE), (b"msr[", HEX), (b"]", SPACE), (b"=", SPACE), (b"", HEX_8), (b"`", HEX_8)], Says::BareHalves),
    (&[(b"", SPACE), (b"msr[0", EX), (b"", HEX), (b"]", SPACE), (b"=", SPACE), (b"", HEX_8), (b"`", HEX_8)], Says::BareHalves),
    // `msr[200] = 0000000000000006`
    (&[(b"", SPACE), (b"msr[", HEX), (b"]", SPACE), (b"=", SPACE), (b"", HEX_16)], Says::Bare),
    (&[(b"", SPACE), (b"msr[0", EX), (b"", HEX), (b"]", SPACE), (b"=", SPACE), (b"", HEX_16)], Says::Bare),
    // The prompt `1: kd>` names the processor. From 10 on its base isn't known.
    (&[(b"", DIGITS), (b": kd>", Run::Nothing)], Says::UnreadPrompt),
    (&[(b"", DECIMAL), (b": kd>", Run::Nothing)], Says::Turn(0)),
];

/// What a line says.
pub(crate) fn windbg_said(line: &Line<'_>) -> LineSays
    ensures { result ≡ windbg_said line.now.number line.now.bytes.now }
{
    said_in(&WINDBG, line)
}
