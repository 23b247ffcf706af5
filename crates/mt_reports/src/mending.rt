ghost use Rattle.std.specs.Prelude.{◌≤◌};

use crate::NoReport;
use crate::ram::NamedMap;
use crate::text::Text;
use mt_explain::clashes;
use mt_kinds::{MemType, PAGE_BYTES};
use mt_memory_kinds::MemoryKind;
use mt_mend::{MAX_WISHES, Wish, WishFault};
use mt_regs::RegFile;
use mt_text::hex64;
use std::alloc::{AllocError, Global};

// The types, by whose names they are asked for.
const KINDS: [MemType; 5] = [
    MemType::UC,
    MemType::WC,
    MemType::WT,
    MemType::WP,
    MemType::WB,
];

/// How the registers to write are printed.
#[derive(Clone, Copy, Debug, PartialEq, Eq)]
pub enum Style {
    /// With all that changes, for a person or as JSON.
    Report,
    /// A dump of all registers.
    Dump,
    /// Commands of msr-tools.
    Wrmsr,
    /// A table in C.
    C,
    /// What EDK2's `MtrrSetAllMtrrs` takes.
    Edk2,
    /// Calls in coreboot.
    Coreboot,
}

/// What is asked of a mending.
#[derive(Clone, Copy)]
pub struct Mending<'a> {
    /// Ranges that are to have a type, later ones over earlier ones.
    pub sets: &'a [Wish],
    /// The processor whose registers all are to have.
    pub like: Option<u32>,
    /// The type of pages that have no defined one.
    pub take: Option<MemType>,
    /// So many pairs stay free.
    pub spare: u8,
    /// The most bytes of the larger of two ranges that share a page.
    pub chunk: u64,
    pub style: Style,
}

/// The type of a name.
pub fn type_of(name: &str) -> Option<MemType> {
    for kind in KINDS {
        if kind.name() == name {
            return Some(kind);
        }
    }
    None
}

// What is before the first such sign of a text, and what is behind it.
fn cut(text: &str, sign: u8) -> Option<(&str, &str)> {
    let bytes = text.as_bytes();
    for i in 0..bytes.len() {
        if bytes[i] == sign {
            let (front, back) = bytes.split_at(i);
            let (_, back) = back.split_at(1);
            return Some((str::from_utf8(front).ok()?, str::from_utf8(back).ok()?));
        }
    }
    None
}

/// The wish of a word `FIRST-LAST=TYPE`, whose ends are bytes.
pub fn wish_of(word: &str) -> Result<Wish, &'static str> {
    let Some((range, name)) = cut(word, b'=') else {
        return Err("no = and type behind the range");
    };
    let Some((first, last)) = cut(range, b'-') else {
        return Err("no - between the first and the last address");
    };
    let Some(kind) = type_of(name) else {
        return Err("no type UC, WC, WT, WP or WB");
    };
    let Ok(first) = hex64(first.as_bytes()) else {
        return Err("no hexadecimal first address of 1 to 16 digits");
    };
    let Ok(last) = hex64(last.as_bytes()) else {
        return Err("no hexadecimal last address of 1 to 16 digits");
    };
    if last < first {
        return Err("the range ends before it begins");
    }
    if first % PAGE_BYTES != 0 {
        return Err("the first address is no multiple of 1000, which is 4 KB");
    }
    if last % PAGE_BYTES != PAGE_BYTES - 1 {
        return Err("the last address isn't the last of a page of 4 KB: it ends in fff");
    }
    Ok(Wish {
        first: first / PAGE_BYTES,
        last: last / PAGE_BYTES,
        kind,
    })
}

// Adds a wish for each run of pages with no defined type.
fn add_taken(
    alloc: Global,
    wishes: &mut Vec<Wish>,
    f: &RegFile,
    kind: MemType,
) -> Result<(), AllocError> {
    if f.register_fault().is_some() {
        return Ok(());
    }
    for run in clashes(alloc, f)?.as_slice() {
        wishes.push(Wish {
            first: run.first,
            last: run.first.saturating_add(run.count).saturating_sub(1),
            kind,
        })?;
    }
    Ok(())
}

// How many pages the fixed range of a page has.
fn fixed_pages(page: u64) -> u64
    ensures { 1 ≤ result }
{
    if page < 0x80 {
        0x10
    } else if page < 0xc0 {
        4
    } else {
        1
    }
}

// The first page of a range that fills its fixed range from there on.
fn whole_first(page: u64) -> u64 {
    let pages = fixed_pages(page);
    (page.saturating_add(pages - 1) / pages).saturating_mul(pages)
}

// The page behind the last one that fills its fixed range.
fn whole_end(page: u64) -> u64 {
    let pages = fixed_pages(page);
    (page.saturating_add(1) / pages).saturating_mul(pages)
}

// Adds a wish for each range of RAM. Of fixed ranges that are on only those that are RAM as a whole count.
fn add_ram(wishes: &mut Vec<Wish>, f: &RegFile, map: NamedMap<'_>) -> Result<(), AllocError> {
    for range in map.ranges {
        let (first, end) = if f.is_fixed_enabled() {
            (whole_first(range.first), whole_end(range.last))
        } else {
            (range.first, range.last.saturating_add(1))
        };
        if range.kind.is(MemoryKind::Ram) && first < end {
            wishes.push(Wish {
                first,
                last: end.saturating_sub(1),
                kind: MemType::WB,
            })?;
        }
    }
    Ok(())
}

/// What is wished of a file none of whose registers is at fault by itself, later wishes over earlier ones.
pub fn wishes_of(
    alloc: Global,
    f: &RegFile,
    map: NamedMap<'_>,
    mending: &Mending<'_>,
) -> Result<Vec<Wish>, AllocError> {
    let mut wishes = Vec::new(alloc);
    if let Some(kind) = mending.take {
        add_taken(alloc, &mut wishes, f, kind)?;
    }
    add_ram(&mut wishes, f, map)?;
    for wish in mending.sets {
        wishes.push(*wish)?;
    }
    Ok(wishes)
}

fn problem(fault: WishFault) -> &'static str {
    match fault {
        WishFault::NoPage => "the range ends before it begins",
        WishFault::BeyondWidth => "beyond the address width",
        WishFault::UnsupportedType => "0fe says that the processor has no WC",
    }
}

/// Why a wish can't be met.
pub fn no_wish(alloc: Global, wish: Wish, fault: WishFault) -> NoReport {
    let mut text = Text::new(alloc);
    text.add_range(wish.first, wish.last.saturating_add(1));
    text.add_all(&["=", wish.kind.name(), ": ", problem(fault)]);
    told(text)
}

/// A fixed range that is to have several types.
pub fn no_fixed(alloc: Global, page: u64) -> NoReport {
    let pages = fixed_pages(page);
    let first = page.saturating_sub(page % pages);
    let mut text = Text::new(alloc);
    text.add_range(first, first.saturating_add(pages));
    text.add(" is one fixed range, which has one type");
    told(text)
}

/// More wishes than can be met.
pub fn many_wishes(alloc: Global, count: usize) -> NoReport {
    let mut text = Text::new(alloc);
    text.add_decimal("", count as u64);
    text.add_decimal(
        " ranges are to have a type, which are more than ",
        MAX_WISHES as u64,
    );
    told(text)
}

fn told(text: Text) -> NoReport {
    match text.finish() {
        Ok(text) => NoReport::NoMend(text),
        Err(error) => NoReport::Memory(error),
    }
}
