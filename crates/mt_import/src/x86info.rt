ghost use Rattle.std.specs.Prelude.{◌≡◌};
ghost use Rattle.mt_import.specs.X86info.{is_listed, is_size, is_sizes, sizes_by_words, sizes_said, x86info_said};

use crate::LineSays;
use crate::pieces::{is_text, shows_width};
use crate::tables::{Row, Says, said_in};
use mt_rows::{BLANKS, DECIMAL, EX, HEX, HEX_16, MARKS, Run, SPACE, WORD};
use mt_text::{Line, Words, decimal};

/// The lines of x86info that show a register. Up to two that it couldn't read may stand in front, without their values and without
/// ends of their lines.
#[rattlefmt::skip]
pub const X86INFO: [Row<'static>; 8] = [
    // `CPU #1:`, alone: processors are counted from 1.
    (&[(b"CPU #", DECIMAL), (b":", Run::End)], Says::Turn(1)),
    (&[(b"CPU #", MARKS)], Says::TurnToUnread),
    // `MTRRphysBase0 (0x200): 0x0000000080000000 (..)`
    (&[(b"", SPACE), (b"MTRR", MARKS), (b"", BLANKS), (b"(0", EX), (b"", HEX), (b"):", BLANKS), (b"0", EX), (b"", HEX_16)], Says::Register),
    // `MTRRfix4K_D0000 0x26a: 0x0505050505050505`
    (&[(b"", SPACE), (b"MTRR", MARKS), (b"", BLANKS), (b"0", EX), (b"", HEX), (b":", BLANKS), (b"0", EX), (b"", HEX_16)], Says::Register),
    (&[(b"", SPACE), (b"MTRR", MARKS), (b"", BLANKS), (b"", WORD), (b"", BLANKS),
       (b"MTRR", MARKS), (b"", BLANKS), (b"(0", EX), (b"", HEX), (b"):", BLANKS), (b"0", EX), (b"", HEX_16)], Says::Register),
    (&[(b"", SPACE), (b"MTRR", MARKS), (b"", BLANKS), (b"", WORD), (b"", BLANKS),
       (b"MTRR", MARKS), (b"", BLANKS), (b"0", EX), (b"", HEX), (b":", BLANKS), (b"0", EX), (b"", HEX_16)], Says::Register),
    (&[(b"", SPACE), (b"MTRR", MARKS), (b"", BLANKS), (b"", WORD), (b"", BLANKS), (b"MTRR", MARKS), (b"", BLANKS), (b"", WORD), (b"", BLANKS),
       (b"MTRR", MARKS), (b"", BLANKS), (b"(0", EX), (b"", HEX), (b"):", BLANKS), (b"0", EX), (b"", HEX_16)], Says::Register),
    (&[(b"", SPACE), (b"MTRR", MARKS), (b"", BLANKS), (b"", WORD), (b"", BLANKS), (b"MTRR", MARKS), (b"", BLANKS), (b"", WORD), (b"", BLANKS),
       (b"MTRR", MARKS), (b"", BLANKS), (b"0", EX), (b"", HEX), (b":", BLANKS), (b"0", EX), (b"", HEX_16)], Says::Register),
];

fn is_sizes(words: &Words<'_>) -> bool
    ensures { result ≡ is_sizes words.now.words }
{
    (is_text(b"Address", words.text(0)) || is_text(b"address", words.text(0)))
        && is_text(b"sizes", words.text(1))
        && is_text(b"physical,", words.text(5))
}

fn is_size(words: &Words<'_>) -> bool
    ensures { result ≡ is_size words.now.words }
{
    is_text(b"Address", words.text(0))
        && is_text(b"Size:", words.text(1))
        && is_text(b"virtual,", words.text(4))
}

fn is_listed(words: &Words<'_>) -> bool
    ensures { result ≡ is_listed words.now.words }
{
    is_text(b"Address", words.text(0))
        && is_text(b"sizes:", words.text(1))
        && is_text(b"physical,", words.text(4))
}

/// The width that a line on the sizes of addresses shows.
pub(crate) fn sizes_said(line: &Line<'_>) -> LineSays
    ensures { result ≡ sizes_said line.now.number line.now.bytes.now }
{
    sizes_by_words(&line.first_words())
}

fn sizes_by_words(words: &Words<'_>) -> LineSays
    ensures { result ≡ sizes_by_words words.now.number words.now.words }
{
    if is_sizes(words) {
        shows_width(decimal(words.text(3), 255), words.place(3))
    } else if is_size(words) {
        shows_width(decimal(words.text(5), 255), words.place(5))
    } else if is_listed(words) {
        shows_width(decimal(words.text(2), 255), words.place(2))
    } else {
        LineSays::Nothing
    }
}

/// What a line says.
pub(crate) fn x86info_said(line: &Line<'_>) -> LineSays
    ensures { result ≡ x86info_said line.now.number line.now.bytes.now }
{
    said_in(&X86INFO, line)
}
