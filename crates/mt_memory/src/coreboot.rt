use crate::MemoryKind;
use crate::table::{Ends, Front, Named, Table};
use mt_rows::{BLANKS, DECIMAL, HEX_16, MARKS, Run};

/// The lines of coreboot's memory table.
#[rattlefmt::skip]
pub const COREBOOT: Table<'static> = (
    &[
        // ` 0. 0000000000000000-0000000000000fff: CONFIGURATION TABLES`
        (&[(b"", DECIMAL), (b".", BLANKS), (b"", HEX_16), (b"-", MARKS)], Front::Word, &[(b"", HEX_16), (b"-", HEX_16), (b":", Run::Nothing)], Ends::Last, Named::BehindRange),
    ],
    &[
        (&[(b"RAM", Run::Nothing)], MemoryKind::Ram),
        // Both are RAM for the system.
        (&[(b"RAMSTAGE", Run::Nothing)], MemoryKind::Ram),
        (&[(b"PAYLOAD", Run::Nothing)], MemoryKind::Ram),
        (&[(b"RESERVED", Run::Nothing)], MemoryKind::Reserved),
        (&[(b"VENDOR", BLANKS), (b"RESERVED", Run::Nothing)], MemoryKind::Reserved),
        (&[(b"SOFT", BLANKS), (b"RESERVED", Run::Nothing)], MemoryKind::Reserved),
        (&[(b"CONFIGURATION", BLANKS), (b"TABLES", Run::Nothing)], MemoryKind::Reserved),
        (&[(b"BL31", Run::Nothing)], MemoryKind::Reserved),
        (&[(b"OPENSBI", Run::Nothing)], MemoryKind::Reserved),
        (&[(b"ACPI", Run::Nothing)], MemoryKind::Acpi),
        (&[(b"NVS", Run::Nothing)], MemoryKind::Nvs),
        (&[(b"UNUSABLE", Run::Nothing)], MemoryKind::Unusable),
    ],
    &[
        &[(b"0.", BLANKS), (b"", HEX_16), (b"-", HEX_16), (b":", Run::Nothing)],
    ],
    true,
);
