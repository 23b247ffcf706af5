ghost use Rattle.std.specs.Prelude.{◌≡◌};
ghost use Rattle.mt_memory_kinds.specs.Ranges.{is_kind, kind_number};

/// What a range of memory is.
#[derive(Clone, Copy, Debug, Drop, PartialEq, Eq)]
pub enum MemoryKind {
    /// The system's own memory.
    Ram,
    /// Not to be used, for a reason that the map doesn't say.
    Reserved,
    /// Registers and memory of devices.
    Device,
    /// Tables of ACPI, which are RAM once they're read.
    Acpi,
    /// Memory that ACPI keeps while the system sleeps.
    Nvs,
    /// RAM with errors.
    Unusable,
}

impl MemoryKind {
    // Of the kinds in one page the one with the greatest number counts, unless that is RAM.
    fn number(self) -> u8
        ensures { result ≡ kind_number self }
    {
        match self {
            MemoryKind::Ram => 0,
            MemoryKind::Device => 1,
            MemoryKind::Acpi => 2,
            MemoryKind::Nvs => 3,
            MemoryKind::Reserved => 4,
            MemoryKind::Unusable => 5,
        }
    }

    /// Whether both are one kind.
    pub fn is(self, other: MemoryKind) -> bool
        ensures { result ≡ is_kind self other }
    {
        self.number() == other.number()
    }
}

/// Bytes of one kind, from the first to the last, or pages of 4 KB.
#[derive(Clone, Copy, Debug, Drop, PartialEq, Eq)]
pub struct MemoryRange {
    pub first: u64,
    pub last: u64,
    pub kind: MemoryKind,
}

impl Default for MemoryRange {
    ghost use Rattle.std.specs.Prelude.{⊤};

    ghost is_default = { λ _. ⊤ };

    fn default() -> MemoryRange {
        MemoryRange {
            first: 0,
            last: 0,
            kind: MemoryKind::Reserved,
        }
    }
}
