use crate::MemoryKind;
use crate::table::{Ends, Front, Named, Table};
use mt_rows::{BLANKS, FIGURES, Kind, Run, WORD};

// Linux writes eight digits at least.
const LONG_HEX: Run = Run::Of(Kind::Hexadecimal, 8, 16);

/// The lines of `/proc/iomem` that begin without a blank. Behind blanks stand parts of what is above them.
#[rattlefmt::skip]
pub const IOMEM: Table<'static> = (
    &[
        // `00001000-0009fbff : System RAM`
        (&[(b"", LONG_HEX), (b"-", LONG_HEX), (b"", BLANKS), (b":", Run::Nothing)], Front::Start, &[(b"", LONG_HEX), (b"-", LONG_HEX)], Ends::LastOrHidden, Named::BehindRange),
        // a line that ends in its range
        (&[(b"", LONG_HEX), (b"-", FIGURES), (b"", Run::End)], Front::Start, &[(b"", LONG_HEX), (b"-", LONG_HEX)], Ends::LastOrHidden, Named::BehindRange),
    ],
    &[
        (&[(b":", BLANKS), (b"System", BLANKS), (b"RAM", Run::Nothing)], MemoryKind::Ram),
        (&[(b":", BLANKS), (b"Reserved", Run::Nothing)], MemoryKind::Reserved),
        (&[(b":", BLANKS), (b"reserved", Run::Nothing)], MemoryKind::Reserved),
        (&[(b":", BLANKS), (b"Soft", BLANKS), (b"Reserved", Run::Nothing)], MemoryKind::Reserved),
        (&[(b":", BLANKS), (b"RAM", BLANKS), (b"buffer", Run::Nothing)], MemoryKind::Reserved),
        (&[(b":", BLANKS), (b"Unknown", BLANKS), (b"E820", BLANKS), (b"type", Run::Nothing)], MemoryKind::Reserved),
        (&[(b":", BLANKS), (b"Persistent", BLANKS), (b"Memory", Run::Nothing)], MemoryKind::Reserved),
        (&[(b":", BLANKS), (b"ACPI", BLANKS), (b"Tables", Run::Nothing)], MemoryKind::Acpi),
        (&[(b":", BLANKS), (b"ACPI", BLANKS), (b"Non-volatile", BLANKS), (b"Storage", Run::Nothing)], MemoryKind::Nvs),
        (&[(b":", BLANKS), (b"Unusable", BLANKS), (b"memory", Run::Nothing)], MemoryKind::Unusable),
        // every other name
        (&[(b":", BLANKS), (b"", WORD)], MemoryKind::Device),
    ],
    &[
        // Linux reserves the first page, so each map begins there.
        &[(b"00000000-", LONG_HEX), (b"", BLANKS), (b":", Run::Nothing)],
    ],
    true,
);
