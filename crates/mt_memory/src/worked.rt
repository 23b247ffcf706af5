ghost use Rattle.std.specs.Prelude.{◌≡◌, ◌∷◌, [], codes, None, Some};
ghost use Rattle.mt_memory.specs.Pages.{pages_of};
ghost use Rattle.mt_memory.specs.Showing.{shown_in};
ghost use Rattle.mt_memory.specs.Worked.{AreNamed, ComesTo, Refuses, Shows, ShowsFault, at_column, overlapping, range, starting_over, two_maps};
ghost use Rattle.mt_memory.specs.declared.format.Format.{Format};
ghost use Rattle.mt_memory.specs.declared.format.MapFault.{MapFault};
ghost use Rattle.mt_memory.specs.declared.format.Shown.{Shown};
ghost use Rattle.mt_memory.specs.declared.format.WhichMap.{WhichMap};
ghost use Rattle.mt_memory_kinds.specs.declared.kind.MemoryKind.{MemoryKind};

/// A line of each form that Linux, Xen, the UEFI shell and coreboot print, and the range that it shows.
pub fn worked_lines()
    ensures linux { Shows Format.E820 (codes "[    0.000000] BIOS-e820: [mem 0x0000000000000000-0x000000000009fbff] usable") 0 0x9fbff MemoryKind.Ram }
    ensures older_linux { Shows Format.E820 (codes " BIOS-e820: 0000000000000000 - 000000000009fc00 (usable)") 0 0x9fbff MemoryKind.Ram }
    ensures xen { Shows Format.E820 (codes "(XEN)  [000000001ffe0000, 000000001fffffff] (ACPI data)") 0x1ffe0000 0x1fffffff MemoryKind.Acpi }
    ensures older_xen { Shows Format.E820 (codes "(XEN)  000000000009fc00 - 00000000000a0000 (reserved)") 0x9fc00 0x9ffff MemoryKind.Reserved }
    ensures efi { Shows Format.Efi (codes "efi: mem00: [Conventional|   |  |WB|UC] range=[0x0000000000001000-0x0000000000001fff] (0MB)") 0x1000 0x1fff MemoryKind.Ram }
    ensures shell { Shows Format.Efi (codes "ACPI_NVS   0000000000800000-0000000000807FFF 0000000000000008 000000000000000F") 0x800000 0x807fff MemoryKind.Nvs }
    ensures coreboot { Shows Format.Coreboot (codes "[DEBUG]   1. 0000000000001000-000000000009ffff: RAM") 0x1000 0x9ffff MemoryKind.Ram }
    ensures iomem { Shows Format.Iomem (codes "000a0000-000bffff : PCI Bus 0000:00") 0xa0000 0xbffff MemoryKind.Device }
{}

/// A range that ends before it begins, one that `/proc/iomem` hides, a kind that isn't known and UTF-16 are faults. An empty range is none.
pub fn worked_faults()
    ensures backward { ShowsFault Format.E820 (codes "BIOS-e820: [mem 0x0000000000002000-0x0000000000001000] usable") (MapFault.Backward (at_column 12)) }
    ensures half_open { ShowsFault Format.E820 (codes "(XEN)  00000000000a0000 - 000000000009fc00 (reserved)") (MapFault.Backward (at_column 8)) }
    ensures hidden { ShowsFault Format.Iomem (codes "00000000-00000000 : System RAM") (MapFault.Hidden (at_column 1)) }
    ensures unknown { ShowsFault Format.E820 (codes "BIOS-e820: [mem 0x0000000000001000-0x0000000000001fff] spare") (MapFault.UnknownKind (at_column 12)) }
    ensures wide { ShowsFault Format.Iomem (255 ∷ 254 ∷ 48 ∷ 0 ∷ []) (MapFault.Utf16 (at_column 1)) }
    ensures empty { shown_in Format.E820 1 (codes "BIOS-e820: [mem 0x0000000000001000-0x0000000000000fff] usable") ≡ Shown.Nothing }
{}

/// The names of kinds in each format.
pub fn worked_names()
    ensures e820 { AreNamed Format.E820 }
    ensures efi { AreNamed Format.Efi }
    ensures coreboot { AreNamed Format.Coreboot }
    ensures iomem { AreNamed Format.Iomem }
{}

/// The later of two lines that overlap counts.
pub fn worked_overlap()
    ensures { ComesTo WhichMap.Sole overlapping (range 0x1000 0x1fff MemoryKind.Ram ∷ range 0x2000 0x2fff MemoryKind.Reserved ∷ range 0x3000 0x4fff MemoryKind.Ram ∷ [])
        (Some (record { line = 3; earlier = 1 })) }
{}

/// The last of two maps is one range, and without a choice the second is a fault, with a heading or without.
pub fn worked_maps()
    ensures last { ComesTo WhichMap.Last two_maps (range 0x2000 0x3fff MemoryKind.Ram ∷ []) None }
    ensures first { ComesTo (WhichMap.Number 1) two_maps (range 0x1000 0x1fff MemoryKind.Ram ∷ []) None }
    ensures sole { Refuses WhichMap.Sole two_maps (MapFault.SeveralMaps (record { count = 2; first = 2; last = 4; broken = 0 })) }
    ensures over { Refuses WhichMap.Sole starting_over (MapFault.SeveralMaps (record { count = 2; first = 1; last = 2; broken = 3 })) }
    ensures third { Refuses (WhichMap.Number 3) two_maps (MapFault.NoMap (record { count = 2; first = 2; last = 4; broken = 0 })) }
{}

/// A page that is RAM in part is none, and one that ranges share has the first of their kinds.
pub fn worked_pages()
    ensures { pages_of (range 0 0x9fbff MemoryKind.Ram ∷ range 0x9fc00 0x9fdff MemoryKind.Acpi ∷ range 0x9fe00 0xfffff MemoryKind.Reserved ∷ range 0x100000 0x1ff7ff MemoryKind.Ram ∷ [])
        ≡ Some (range 0 0x9e MemoryKind.Ram ∷ range 0x9f 0xff MemoryKind.Reserved ∷ range 0x100 0x1fe MemoryKind.Ram ∷ []) }
{}
