ghost use Rattle.std.specs.Prelude.{◌≡◌, ◌≤◌, ◌<◌, ◌+◌, ◌*◌, ◌^◌, true, false};
ghost use Rattle.mt_map.specs.Sizes.{IsNear, IsShort, kilobytes};

use crate::drawing::Part::{Decimal, Text};
use crate::drawing::{Drawing, append_label};

/// The units in which a picture tells sizes, each 1,024 of the one before it.
#[derive(Clone, Copy)]
pub enum Unit {
    Kilobyte,
    Megabyte,
    Gigabyte,
    Terabyte,
}

/// So many units and tenths of a unit, or about so many. Only a rounded size has tenths.
#[derive(Clone, Copy)]
pub struct Size {
    pub count: u64,
    pub tenths: u64,
    pub unit: Unit,
    pub is_rounded: bool,
}

// So many pages in the largest unit of which they are a whole number.
fn whole_size(pages: u64) -> Size
    requires few { pages ≤ 2 ^ 40 }
    ensures whole { result.count * kilobytes result.unit ≡ 4 * pages }
    ensures not_rounded { result.is_rounded ≡ false }
    ensures no_tenths { result.tenths ≡ 0 }
{
    let (count, unit) = if pages % 0x10000000 == 0 {
        (pages / 0x10000000, Unit::Terabyte)
    } else if pages % 0x40000 == 0 {
        (pages / 0x40000, Unit::Gigabyte)
    } else if pages % 0x100 == 0 {
        (pages / 0x100, Unit::Megabyte)
    } else {
        (4 * pages, Unit::Kilobyte)
    };
    Size {
        count,
        tenths: 0,
        unit,
        is_rounded: false,
    }
}

// So many pages in tenths of the largest unit from a megabyte on of which they are at least one.
fn rounded_size(pages: u64) -> Size
    requires few { pages ≤ 2 ^ 40 }
    requires some { 0x100 ≤ pages }
    ensures near { IsNear pages result }
    ensures short { IsShort result }
    ensures rounded { result.is_rounded ≡ true }
{
    let (tenths, unit) = if pages < 0x40000 {
        ((10 * pages + 0x80) / 0x100, Unit::Megabyte)
    } else if pages < 0x10000000 {
        ((10 * pages + 0x20000) / 0x40000, Unit::Gigabyte)
    } else {
        ((10 * pages + 0x8000000) / 0x10000000, Unit::Terabyte)
    };
    Size {
        count: tenths / 10,
        tenths: tenths % 10,
        unit,
        is_rounded: true,
    }
}

/// The size of so many pages: exact, in the largest unit of which they are a whole number, where that has at most four digits;
/// else rounded to a tenth of a unit.
pub fn page_size(pages: u64) -> Size
    requires few { pages ≤ 2 ^ 40 }
    ensures exact { result.is_rounded ≡ false → result.count * kilobytes result.unit ≡ 4 * pages }
    ensures near { IsNear pages result }
    ensures short { IsShort result }
{
    let whole = whole_size(pages);
    if whole.count < 10_000 {
        whole
    } else {
        rounded_size(pages)
    }
}

fn unit_name(unit: Unit) -> &'static [u8] {
    match unit {
        Unit::Kilobyte => b" KB",
        Unit::Megabyte => b" MB",
        Unit::Gigabyte => b" GB",
        Unit::Terabyte => b" TB",
    }
}

/// Adds the size of so many pages at height `y`, with the sign for "almost equal" in front of one that is rounded.
pub(crate) fn append_size(text: &mut Drawing, y: u64, pages: u64)
    requires few { pages ≤ 2 ^ 40 }
{
    let size = page_size(pages);
    let sign: &[u8] = if size.is_rounded { b"&#8776; " } else { b"" };
    let count = Decimal(sign, size.count);
    let unit = Text(unit_name(size.unit));
    if size.tenths > 0 {
        let parts = [count, Decimal(b".", size.tenths), unit];
        append_label(text, b"size", 310, y, &parts)
    } else {
        append_label(text, b"size", 310, y, &[count, unit])
    }
}
