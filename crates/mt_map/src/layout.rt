ghost use Rattle.std.specs.Prelude.{◌≤◌, ◌^◌};

use crate::ranges::bars;
use mt_regs::RegFile;

/// Where the parts of a picture are, in pixels: the bottom of the rows and the left edges of the bars of each file. The
/// width and height are those of the whole without its caption. `has_caption` says whether it has one.
#[derive(Clone, Copy)]
pub(crate) struct Layout {
    pub bottom: u64,
    pub first_bar: u64,
    pub second_bar: u64,
    pub width: u64,
    pub height: u64,
    pub has_caption: bool,
    ghost low: { bottom ≤ 2 ^ 50 },
    ghost first_near: { first_bar ≤ 10000 },
    ghost second_near: { second_bar ≤ 10000 },
    ghost wide: { 24 ≤ width },
}

// How wide the bars of a file are, or their head where that is wider.
fn group_width(f: &RegFile) -> u64
    ensures few { result ≤ 1140 }
{
    (32 * bars(f).len() as u64).max(96) + 24
}

fn second_width(others: &[RegFile]) -> u64
    ensures few { result ≤ 1140 }
{
    match others {
        [] => 0,
        [other, ..] => group_width(other),
    }
}

fn value_lines(f: &RegFile, others: &[RegFile]) -> u64
    ensures few { result ≤ 33 }
{
    let count = bars(f).len() as u64;
    match others {
        [] => count,
        [other, ..] => count.max(bars(other).len() as u64),
    }
}

fn caption_height(title: Option<&[u8]>) -> u64
    ensures few { result ≤ 24 }
{
    match title {
        None => 0,
        Some(_) => 24,
    }
}

// How wide a caption is at most, except with very wide letters.
fn title_width(title: Option<&[u8]>) -> u64 {
    match title {
        None => 0,
        Some(title) => 24 + 11 * title.len().min(80) as u64,
    }
}

/// Where the parts of a picture stand whose rows end at this bottom.
pub(crate) fn layout_of(
    f: &RegFile,
    others: &[RegFile],
    title: Option<&[u8]>,
    bottom: u64,
) -> Layout
    requires { bottom ≤ 2 ^ 50 }
{
    let first_bar = if others.is_empty() { 442 } else { 566 };
    let second_bar = first_bar + group_width(f);
    let width = (second_bar + second_width(others)).max(700);
    Layout {
        bottom,
        first_bar,
        second_bar,
        width: width.max(title_width(title)),
        height: bottom + 212 + 16 * value_lines(f, others) + caption_height(title),
        has_caption: title.is_some(),
    }
}
