use crate::MemoryKind;
use crate::table::{Ends, Front, Named, Table};
use mt_rows::{BLANKS, DECIMAL, HEX, HEX_16, Run, SPACE, WORD};

/// The lines of Linux behind `BIOS-e820:`, and those of Xen's console.
#[rattlefmt::skip]
pub const E820: Table<'static> = (
    &[
        // `BIOS-e820: [mem 0x0000000000000000-0x000000000009fbff] usable`
        (&[(b"BIOS-e820:", Run::Nothing)], Front::Word, &[(b"[mem", BLANKS), (b"0x", HEX), (b"-0x", HEX), (b"]", Run::Nothing)], Ends::Last, Named::BehindRange),
        // `BIOS-e820: 0000000000000000 - 000000000009fc00 (usable)`
        (&[(b"BIOS-e820:", Run::Nothing)], Front::Word, &[(b"", HEX_16), (b"", BLANKS), (b"-", BLANKS), (b"", HEX_16)], Ends::Behind, Named::BehindRange),
        // `(XEN)  [0000000000000000, 000000000009fbff] (usable)`
        (&[(b"(XEN)", BLANKS), (b"[", HEX_16), (b",", Run::Nothing)], Front::Word, &[(b"[", HEX_16), (b",", BLANKS), (b"", HEX_16), (b"]", Run::Nothing)], Ends::Last, Named::BehindRange),
        // `(XEN) [    0.000000]  [0000000000000000, 000000000009fbff] (usable)`
        (&[(b"(XEN)", BLANKS), (b"[", SPACE), (b"", DECIMAL), (b".", DECIMAL), (b"]", BLANKS), (b"[", HEX_16), (b",", Run::Nothing)], Front::Word, &[(b"[", HEX_16), (b",", BLANKS), (b"", HEX_16), (b"]", Run::Nothing)], Ends::Last, Named::BehindRange),
        // `(XEN) [2026-12-01 08:00:01]  [0000000000000000, 000000000009fbff] (usable)`
        (&[(b"(XEN)", BLANKS), (b"[", DECIMAL), (b"-", WORD), (b"", BLANKS), (b"", WORD), (b"", BLANKS), (b"[", HEX_16), (b",", Run::Nothing)], Front::Word, &[(b"[", HEX_16), (b",", BLANKS), (b"", HEX_16), (b"]", Run::Nothing)], Ends::Last, Named::BehindRange),
        // `(XEN)  0000000000000000 - 000000000009fc00 (usable)`
        (&[(b"(XEN)", BLANKS), (b"", HEX_16), (b"", BLANKS), (b"-", Run::Nothing)], Front::Word, &[(b"", HEX_16), (b"", BLANKS), (b"-", BLANKS), (b"", HEX_16)], Ends::Behind, Named::BehindRange),
    ],
    &[
        (&[(b"usable", Run::Nothing)], MemoryKind::Ram),
        (&[(b"(usable)", Run::Nothing)], MemoryKind::Ram),
        (&[(b"reserved", Run::Nothing)], MemoryKind::Reserved),
        (&[(b"soft", BLANKS), (b"reserved", Run::Nothing)], MemoryKind::Reserved),
        (&[(b"(reserved)", Run::Nothing)], MemoryKind::Reserved),
        (&[(b"ACPI", BLANKS), (b"data", Run::Nothing)], MemoryKind::Acpi),
        (&[(b"(ACPI", BLANKS), (b"data)", Run::Nothing)], MemoryKind::Acpi),
        (&[(b"ACPI", BLANKS), (b"NVS", Run::Nothing)], MemoryKind::Nvs),
        (&[(b"(ACPI", BLANKS), (b"NVS)", Run::Nothing)], MemoryKind::Nvs),
        (&[(b"unusable", Run::Nothing)], MemoryKind::Unusable),
        (&[(b"(unusable)", Run::Nothing)], MemoryKind::Unusable),
        // `persistent (type 7)`, and types without a name
        (&[(b"persistent", Run::Nothing)], MemoryKind::Reserved),
        (&[(b"type", BLANKS), (b"", DECIMAL)], MemoryKind::Reserved),
    ],
    &[
        // `BIOS-provided physical RAM map:`, or `Xen-e820 RAM map:` of Xen
        &[(b"RAM", BLANKS), (b"map:", SPACE), (b"", Run::End)],
        // `Dom0 memory map:` of Xen, whose map is that of the first guest
        &[(b"Dom", DECIMAL), (b"", BLANKS), (b"memory", BLANKS), (b"map:", SPACE), (b"", Run::End)],
    ],
    true,
);
