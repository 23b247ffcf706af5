use crate::MemoryKind;
use crate::table::{Ends, Front, Named, Table};
use mt_rows::{BLANKS, DECIMAL, HEX_16, MARKS, Run, WORD};

/// The lines of Linux behind `efi:`, and those of the UEFI shell.
#[rattlefmt::skip]
pub const EFI: Table<'static> = (
    &[
        // `efi: mem00: [Conventional Memory|   |  |..] range=[0x0000000000000000-0x0000000000000fff] (0MB)`
        (&[(b"efi:", BLANKS), (b"mem", DECIMAL), (b":", Run::Nothing)], Front::Word, &[(b"range=[0x", HEX_16), (b"-0x", HEX_16), (b"]", BLANKS), (b"(", DECIMAL), (b"MB)", Run::Nothing)], Ends::LastBeforeSize, Named::BehindFront),
        // `Available  0000000000100000-00000000007FFFFF 0000000000000700 000000000000000F`
        (&[(b"", WORD), (b"", BLANKS), (b"", HEX_16), (b"-", MARKS)], Front::Start, &[(b"", HEX_16), (b"-", HEX_16), (b"", BLANKS), (b"", HEX_16), (b"", BLANKS), (b"", HEX_16)], Ends::LastBeforeTwo, Named::AtFront),
    ],
    &[
        // of Linux, where `|`, a blank or more of the name is behind it
        (&[(b"[Conventional", MARKS)], MemoryKind::Ram),
        (&[(b"[Loader", MARKS)], MemoryKind::Ram),
        (&[(b"[Boot", MARKS)], MemoryKind::Ram),
        (&[(b"[Unaccepted", MARKS)], MemoryKind::Ram),
        (&[(b"[Reserved", MARKS)], MemoryKind::Reserved),
        (&[(b"[Runtime", MARKS)], MemoryKind::Reserved),
        (&[(b"[PAL", MARKS)], MemoryKind::Reserved),
        (&[(b"[Persistent", MARKS)], MemoryKind::Reserved),
        (&[(b"[type=", MARKS)], MemoryKind::Reserved),
        (&[(b"[MMIO", MARKS)], MemoryKind::Device),
        (&[(b"[Memory", BLANKS), (b"Mapped", MARKS)], MemoryKind::Device),
        (&[(b"[ACPI", BLANKS), (b"Reclaim", MARKS)], MemoryKind::Acpi),
        (&[(b"[ACPI", BLANKS), (b"Mem", MARKS)], MemoryKind::Nvs),
        (&[(b"[Unusable", MARKS)], MemoryKind::Unusable),
        // of the shell
        (&[(b"Available", Run::Nothing)], MemoryKind::Ram),
        (&[(b"Loader", MARKS)], MemoryKind::Ram),
        (&[(b"BS_", MARKS)], MemoryKind::Ram),
        (&[(b"Unaccepted", Run::Nothing)], MemoryKind::Ram),
        (&[(b"Reserved", Run::Nothing)], MemoryKind::Reserved),
        (&[(b"RT_", MARKS)], MemoryKind::Reserved),
        (&[(b"PalCode", Run::Nothing)], MemoryKind::Reserved),
        (&[(b"Persistent", Run::Nothing)], MemoryKind::Reserved),
        (&[(b"MMIO", MARKS)], MemoryKind::Device),
        (&[(b"ACPI_Recl", MARKS)], MemoryKind::Acpi),
        (&[(b"ACPI_NVS", Run::Nothing)], MemoryKind::Nvs),
        (&[(b"Unusable", Run::Nothing)], MemoryKind::Unusable),
    ],
    &[
        &[(b"efi:", BLANKS), (b"mem00:", Run::Nothing)],
        // `Type       Start            End              # Pages          Attributes`
        &[(b"Type", BLANKS), (b"Start", BLANKS), (b"End", BLANKS), (b"#", BLANKS), (b"Pages", BLANKS), (b"Attributes", Run::End)],
    ],
    false,
);
