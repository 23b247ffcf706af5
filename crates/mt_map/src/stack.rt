ghost use Rattle.std.specs.Prelude.{◌≡◌, ◌≤◌, ◌<◌, ◌*◌, ◌^◌, IfOk};
ghost use Rattle.std.specs.List.{All};
ghost use Rattle.mt_map.specs.Bands.{IsPlaced, bands, bottom, height, other_type};

use crate::Band;
use mt_regs::{PageType, RegFile};
use std::alloc::{AllocError, Global};

/// The bands of a picture, and where the last one ends.
#[derive(Drop)]
pub struct Stack {
    pub bands: Vec<Band>,
    pub bottom: u64,
}

/// How high a band of so many pages is, in pixels.
pub fn height(pages: u64) -> u64
    ensures height { result ≡ height pages }
    ensures label { 26 ≤ result }
    ensures few { 0 < pages → result ≤ 26 * pages }
{
    if pages < 0x10 {
        26
    } else if pages < 0x100 {
        32
    } else if pages < 0x4000 {
        40
    } else if pages < 0x40000 {
        50
    } else if pages < 0x1000000 {
        62
    } else {
        76
    }
}

// The type of a page in the second file.
fn other_type(others: &[RegFile], page: u64) -> Option<PageType>
    ensures { result ≡ other_type others.now page }
{
    match others {
        [] => None,
        [other, ..] => Some(other.page_type(page)),
    }
}

/// The bands between edges in ascending order. An edge past the end of the address space counts as its end.
pub fn bands(
    alloc: Global,
    f: &RegFile,
    others: &[RegFile],
    cuts: &[u64],
) -> Result<Stack, AllocError>
    ensures bands { IfOk result (λ stack. stack.bands.items ≡ bands f.now others.now cuts.now) }
    ensures bottom { IfOk result (λ stack. stack.bottom ≡ bottom f.now cuts.now) }
    ensures placed { IfOk result (λ stack. All IsPlaced stack.bands.items) }
    ensures few { IfOk result (λ stack. stack.bottom ≤ 2 ^ 50) }
{
    let mut bands = Vec::new(alloc);
    let mut page = 0;
    let mut top = 0;
    let pages = f.pages();
    'cuts: for cut in cuts {
        let end = (*cut).min(pages);
        if page < end {
            let count = end - page;
            bands.push(Band {
                first: page,
                count,
                top,
                kind: f.page_type(page),
                other: other_type(others, page),
            })?;
            top += height(count);
            page = end;
        }
    }
    Ok(Stack { bands, bottom: top })
}

/// Where a page lies at which a band begins; for a page behind the last band's first it is the bottom.
pub fn top_of(bottom: u64, bands: &[Band], page: u64) -> u64
    ensures { result ≤ bottom }
{
    for band in bands {
        if page <= band.first {
            return band.top.min(bottom);
        }
    }
    bottom
}
