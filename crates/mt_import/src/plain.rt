ghost use Rattle.std.specs.Prelude.{◌≡◌};
ghost use Rattle.mt_import.specs.Plain.{plain_said};

use crate::tables::{Row, Says, said_in};
use crate::{LineSays, Reason};
use mt_rows::{BETWEEN, BLANKS, DECIMAL, FIGURE, FIGURES, Kind, NUMBER, Run, SPACE};
use mt_text::Line;

// More digits than a number of 64 bits has.
const LONG: Run = Run::Of(Kind::Figure, 17, 4096);

/// The lines of a list: a register and its value, or a processor in front of them.
#[rattlefmt::skip]
pub const PLAIN: [Row<'static>; 42] = [
    // `200 = 6`, `0x200,0x6`, `msr 200: 6`
    (&[(b"", SPACE), (b"", NUMBER), (b"", BETWEEN), (b"", NUMBER), (b"", SPACE)], Says::Lists),
    (&[(b"", SPACE), (b"msr", BLANKS), (b"", NUMBER), (b"", BETWEEN), (b"", NUMBER), (b"", SPACE)], Says::Lists),
    (&[(b"", SPACE), (b"MSR", BLANKS), (b"", NUMBER), (b"", BETWEEN), (b"", NUMBER), (b"", SPACE)], Says::Lists),
    // `0,200,6`, `cpu 0 200 6`, `CPU0: MSR 0x200 = 0x6`
    (&[(b"", SPACE), (b"", DECIMAL), (b"", BETWEEN), (b"", NUMBER), (b"", BETWEEN), (b"", NUMBER), (b"", SPACE)], Says::ListsProcessor),
    (&[(b"", SPACE), (b"cpu", SPACE), (b"", DECIMAL), (b"", BETWEEN), (b"", NUMBER), (b"", BETWEEN), (b"", NUMBER), (b"", SPACE)], Says::ListsProcessor),
    (&[(b"", SPACE), (b"CPU", SPACE), (b"", DECIMAL), (b"", BETWEEN), (b"", NUMBER), (b"", BETWEEN), (b"", NUMBER), (b"", SPACE)], Says::ListsProcessor),
    (&[(b"", SPACE), (b"cpu", SPACE), (b"", DECIMAL), (b"", BETWEEN), (b"msr", BLANKS), (b"", NUMBER), (b"", BETWEEN), (b"", NUMBER), (b"", SPACE)], Says::ListsProcessor),
    (&[(b"", SPACE), (b"CPU", SPACE), (b"", DECIMAL), (b"", BETWEEN), (b"MSR", BLANKS), (b"", NUMBER), (b"", BETWEEN), (b"", NUMBER), (b"", SPACE)], Says::ListsProcessor),
    // A processor is decimal.
    (&[(b"", SPACE), (b"", NUMBER), (b"", BETWEEN), (b"", NUMBER), (b"", BETWEEN), (b"", NUMBER), (b"", SPACE)], Says::ListsUnread),
    (&[(b"", SPACE), (b"maxphyaddr", BETWEEN), (b"", DECIMAL), (b"", SPACE)], Says::Width),
    // A value in another form, as `0d6` or `6h`.
    (&[(b"", SPACE), (b"", NUMBER), (b"", BETWEEN), (b"", DECIMAL), (b"", FIGURES), (b"", SPACE)], Says::Bad(Reason::BadNumber)),
    (&[(b"", SPACE), (b"msr", BLANKS), (b"", NUMBER), (b"", BETWEEN), (b"", DECIMAL), (b"", FIGURES), (b"", SPACE)], Says::Bad(Reason::BadNumber)),
    (&[(b"", SPACE), (b"MSR", BLANKS), (b"", NUMBER), (b"", BETWEEN), (b"", DECIMAL), (b"", FIGURES), (b"", SPACE)], Says::Bad(Reason::BadNumber)),
    (&[(b"", SPACE), (b"", DECIMAL), (b"", BETWEEN), (b"", NUMBER), (b"", BETWEEN), (b"", DECIMAL), (b"", FIGURES), (b"", SPACE)], Says::Bad(Reason::BadNumber)),
    (&[(b"", SPACE), (b"cpu", SPACE), (b"", DECIMAL), (b"", BETWEEN), (b"", NUMBER), (b"", BETWEEN), (b"", DECIMAL), (b"", FIGURES), (b"", SPACE)], Says::Bad(Reason::BadNumber)),
    (&[(b"", SPACE), (b"CPU", SPACE), (b"", DECIMAL), (b"", BETWEEN), (b"", NUMBER), (b"", BETWEEN), (b"", DECIMAL), (b"", FIGURES), (b"", SPACE)], Says::Bad(Reason::BadNumber)),
    (&[(b"", SPACE), (b"cpu", SPACE), (b"", DECIMAL), (b"", BETWEEN), (b"msr", BLANKS), (b"", NUMBER), (b"", BETWEEN), (b"", DECIMAL), (b"", FIGURES), (b"", SPACE)], Says::Bad(Reason::BadNumber)),
    (&[(b"", SPACE), (b"CPU", SPACE), (b"", DECIMAL), (b"", BETWEEN), (b"MSR", BLANKS), (b"", NUMBER), (b"", BETWEEN), (b"", DECIMAL), (b"", FIGURES), (b"", SPACE)], Says::Bad(Reason::BadNumber)),
    // A register in another form.
    (&[(b"", SPACE), (b"", DECIMAL), (b"", FIGURES), (b"", BETWEEN), (b"", FIGURE), (b"", SPACE)], Says::Bad(Reason::BadNumber)),
    (&[(b"", SPACE), (b"msr", BLANKS), (b"", DECIMAL), (b"", FIGURES), (b"", BETWEEN), (b"", FIGURE), (b"", SPACE)], Says::Bad(Reason::BadNumber)),
    (&[(b"", SPACE), (b"MSR", BLANKS), (b"", DECIMAL), (b"", FIGURES), (b"", BETWEEN), (b"", FIGURE), (b"", SPACE)], Says::Bad(Reason::BadNumber)),
    (&[(b"", SPACE), (b"", DECIMAL), (b"", BETWEEN), (b"", DECIMAL), (b"", FIGURES), (b"", BETWEEN), (b"", FIGURE), (b"", SPACE)], Says::Bad(Reason::BadNumber)),
    (&[(b"", SPACE), (b"cpu", SPACE), (b"", DECIMAL), (b"", BETWEEN), (b"", DECIMAL), (b"", FIGURES), (b"", BETWEEN), (b"", FIGURE), (b"", SPACE)], Says::Bad(Reason::BadNumber)),
    (&[(b"", SPACE), (b"CPU", SPACE), (b"", DECIMAL), (b"", BETWEEN), (b"", DECIMAL), (b"", FIGURES), (b"", BETWEEN), (b"", FIGURE), (b"", SPACE)], Says::Bad(Reason::BadNumber)),
    (&[(b"", SPACE), (b"cpu", SPACE), (b"", DECIMAL), (b"", BETWEEN), (b"msr", BLANKS), (b"", DECIMAL), (b"", FIGURES), (b"", BETWEEN), (b"", FIGURE), (b"", SPACE)], Says::Bad(Reason::BadNumber)),
    (&[(b"", SPACE), (b"CPU", SPACE), (b"", DECIMAL), (b"", BETWEEN), (b"MSR", BLANKS), (b"", DECIMAL), (b"", FIGURES), (b"", BETWEEN), (b"", FIGURE), (b"", SPACE)], Says::Bad(Reason::BadNumber)),
    // A value with more digits than any number, named by its register.
    (&[(b"", SPACE), (b"", NUMBER), (b"", BETWEEN), (b"", LONG), (b"", SPACE)], Says::Bad(Reason::BadNumber)),
    (&[(b"", SPACE), (b"msr", BLANKS), (b"", NUMBER), (b"", BETWEEN), (b"", LONG), (b"", SPACE)], Says::Bad(Reason::BadNumber)),
    (&[(b"", SPACE), (b"MSR", BLANKS), (b"", NUMBER), (b"", BETWEEN), (b"", LONG), (b"", SPACE)], Says::Bad(Reason::BadNumber)),
    (&[(b"", SPACE), (b"", DECIMAL), (b"", BETWEEN), (b"", NUMBER), (b"", BETWEEN), (b"", LONG), (b"", SPACE)], Says::Bad(Reason::BadNumber)),
    (&[(b"", SPACE), (b"cpu", SPACE), (b"", DECIMAL), (b"", BETWEEN), (b"", NUMBER), (b"", BETWEEN), (b"", LONG), (b"", SPACE)], Says::Bad(Reason::BadNumber)),
    (&[(b"", SPACE), (b"CPU", SPACE), (b"", DECIMAL), (b"", BETWEEN), (b"", NUMBER), (b"", BETWEEN), (b"", LONG), (b"", SPACE)], Says::Bad(Reason::BadNumber)),
    (&[(b"", SPACE), (b"cpu", SPACE), (b"", DECIMAL), (b"", BETWEEN), (b"msr", BLANKS), (b"", NUMBER), (b"", BETWEEN), (b"", LONG), (b"", SPACE)], Says::Bad(Reason::BadNumber)),
    (&[(b"", SPACE), (b"CPU", SPACE), (b"", DECIMAL), (b"", BETWEEN), (b"MSR", BLANKS), (b"", NUMBER), (b"", BETWEEN), (b"", LONG), (b"", SPACE)], Says::Bad(Reason::BadNumber)),
    // A register with more digits, named by its value.
    (&[(b"", SPACE), (b"", LONG), (b"", BETWEEN), (b"", NUMBER), (b"", SPACE)], Says::Bad(Reason::BadNumber)),
    (&[(b"", SPACE), (b"msr", BLANKS), (b"", LONG), (b"", BETWEEN), (b"", NUMBER), (b"", SPACE)], Says::Bad(Reason::BadNumber)),
    (&[(b"", SPACE), (b"MSR", BLANKS), (b"", LONG), (b"", BETWEEN), (b"", NUMBER), (b"", SPACE)], Says::Bad(Reason::BadNumber)),
    (&[(b"", SPACE), (b"", DECIMAL), (b"", BETWEEN), (b"", LONG), (b"", BETWEEN), (b"", NUMBER), (b"", SPACE)], Says::Bad(Reason::BadNumber)),
    (&[(b"", SPACE), (b"cpu", SPACE), (b"", DECIMAL), (b"", BETWEEN), (b"", LONG), (b"", BETWEEN), (b"", NUMBER), (b"", SPACE)], Says::Bad(Reason::BadNumber)),
    (&[(b"", SPACE), (b"CPU", SPACE), (b"", DECIMAL), (b"", BETWEEN), (b"", LONG), (b"", BETWEEN), (b"", NUMBER), (b"", SPACE)], Says::Bad(Reason::BadNumber)),
    (&[(b"", SPACE), (b"cpu", SPACE), (b"", DECIMAL), (b"", BETWEEN), (b"msr", BLANKS), (b"", LONG), (b"", BETWEEN), (b"", NUMBER), (b"", SPACE)], Says::Bad(Reason::BadNumber)),
    (&[(b"", SPACE), (b"CPU", SPACE), (b"", DECIMAL), (b"", BETWEEN), (b"MSR", BLANKS), (b"", LONG), (b"", BETWEEN), (b"", NUMBER), (b"", SPACE)], Says::Bad(Reason::BadNumber)),
];

/// What a line says.
pub(crate) fn plain_said(line: &Line<'_>) -> LineSays
    ensures { result ≡ plain_said line.now.number line.now.bytes.now }
{
    said_in(&PLAIN, line)
}
