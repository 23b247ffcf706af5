use crate::{MemoryRange, Ranges};
use mt_text::Place;

/// A kind of log.
#[derive(Clone, Copy)]
pub enum Format {
    /// The firmware's map, as the kernel's log of Linux or Xen's console shows it.
    E820,
    /// UEFI's map, as the kernel's log of Linux or `memmap` of the UEFI shell shows it.
    Efi,
    /// The memory table of coreboot's console.
    Coreboot,
    /// `/proc/iomem` of Linux.
    Iomem,
}

/// Which of a log's maps is read.
#[derive(Clone, Copy)]
pub enum WhichMap {
    /// The only one. Several are a fault.
    Sole,
    Last,
    /// That of this number, counted from 1.
    Number(u64),
}

/// The maps of a log that have begun. One begins with the first range of all, with the first behind each heading, and with each range
/// that doesn't lie above the one before it, if the source lists ranges in ascending order.
#[derive(Clone, Copy)]
pub struct MapsBegun {
    pub count: u64,
    /// The line of the first one's first range, or 0 if none has begun.
    pub first: u64,
    /// That of the last one's.
    pub last: u64,
    /// The log's first line that breaks off, or 0 if none does.
    pub broken: u64,
}

/// Why a log shows no map, and where.
#[derive(Clone, Copy)]
pub enum MapFault {
    /// The line has more than 4,096 bytes.
    LongLine(Place),
    /// The range ends before it begins.
    Backward(Place),
    /// The range has a kind that isn't known, or none.
    UnknownKind(Place),
    /// `/proc/iomem` hides its numbers from all but root.
    Hidden(Place),
    /// The line begins as UTF-16 does.
    Utf16(Place),
    /// The map has more than 512 ranges.
    TooManyRanges(Place),
    /// The log has several maps, and none is named.
    SeveralMaps(MapsBegun),
    /// The log has no map, or not the one that is named.
    NoMap(MapsBegun),
}

/// A range that a line shows, and where.
#[derive(Clone, Copy)]
pub struct Claim {
    pub range: MemoryRange,
    pub place: Place,
}

/// What a line shows, whatever the other lines show.
#[derive(Clone, Copy)]
pub enum Shown {
    Nothing,
    Range(Claim),
    Fault(MapFault),
}

/// A line that shows bytes of a range before it, as something else or again. The later line counts.
#[derive(Clone, Copy)]
pub struct Overlap {
    pub line: u64,
    pub earlier: u64,
}

/// The map that a log shows.
#[derive(Drop)]
pub struct MemoryMap {
    pub format: Format,
    /// Neighbours of one kind don't touch.
    pub ranges: Ranges,
    /// The first line that shows bytes of a line before it.
    pub overlap: Option<Overlap>,
    /// The log's first line in which a range begins and isn't whole, or 0 if there is none.
    pub broken: u64,
}

impl Default for Claim {
    ghost use Rattle.std.specs.Prelude.{⊤};

    ghost is_default = { λ _. ⊤ };

    fn default() -> Claim {
        Claim {
            range: MemoryRange::default(),
            place: Place { line: 0, column: 0 },
        }
    }
}
