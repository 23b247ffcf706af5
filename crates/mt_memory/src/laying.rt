ghost use Rattle.std.specs.Prelude.{◌≡◌, ◌≤◌, ◌+◌, ◌++◌, length};
ghost use Rattle.std.specs.List.{filter_map};
ghost use Rattle.mt_memory.specs.Laying.{above, below, cut, goes_on, joined, laid, meets, overlapped, part_of, ranges_of};

use crate::format::{Claim, Overlap};
use crate::{MemoryRange, Ranges};
use arrayvec::ArrayVec;

/// Ranges of lines, cut where a later line shows their bytes, in ascending order: room for what one more line makes of 512.
pub(crate) type Pieces = ArrayVec<Claim, 1025>;

fn cut(piece: &Claim, first: u64, last: u64) -> Claim
    ensures { result ≡ cut piece.now first last }
{
    Claim {
        range: MemoryRange {
            first,
            last,
            kind: piece.range.kind,
        },
        place: piece.place,
    }
}

// What a piece has below a range.
fn below(range: &MemoryRange, piece: &Claim) -> Option<Claim>
    ensures { result ≡ below range.now piece.now }
{
    if piece.range.first < range.first {
        let last = if piece.range.last < range.first {
            piece.range.last
        } else {
            range.first - 1
        };
        Some(cut(piece, piece.range.first, last))
    } else {
        None
    }
}

// What a piece has above a range.
fn above(range: &MemoryRange, piece: &Claim) -> Option<Claim>
    ensures { result ≡ above range.now piece.now }
{
    if range.last < piece.range.last {
        let first = if range.last < piece.range.first {
            piece.range.first
        } else {
            range.last + 1
        };
        Some(cut(piece, first, piece.range.last))
    } else {
        None
    }
}

fn part_of(is_above: bool, range: &MemoryRange, piece: &Claim) -> Option<Claim>
    ensures { result ≡ part_of is_above range.now piece.now }
{
    if is_above {
        above(range, piece)
    } else {
        below(range, piece)
    }
}

fn add_parts(list: &mut Pieces, is_above: bool, range: &MemoryRange, pieces: &[Claim])
    requires { length list.old.items + length pieces.now ≤ 1025 }
    ensures items { list.new.items ≡ list.old.items ++ filter_map (part_of is_above range.now) pieces.now }
    ensures few { length list.new.items ≤ length list.old.items + length pieces.now }
{
    'pieces: for piece in pieces {
        if let Some(part) = part_of(is_above, range, piece) {
            list.push(part);
        }
    }
}

/// The pieces behind one more line, which counts before those that were there.
pub(crate) fn laid(claim: &Claim, pieces: &[Claim]) -> Pieces
    requires { length pieces.now ≤ 512 }
    ensures { result.items ≡ laid claim.now pieces.now }
{
    let mut list = ArrayVec::new();
    add_parts(&mut list, false, &claim.range, pieces);
    list.push(*claim);
    add_parts(&mut list, true, &claim.range, pieces);
    list
}

fn meets(range: &MemoryRange, piece: &Claim) -> bool
    ensures { result ≡ meets range.now piece.now }
{
    piece.range.first <= range.last && range.first <= piece.range.last
}

/// The first of the pieces that has a byte of a range.
pub(crate) fn overlapped(claim: &Claim, pieces: &[Claim]) -> Option<Overlap>
    ensures { result ≡ overlapped claim.now pieces.now }
{
    'pieces: for piece in pieces {
        if meets(&claim.range, piece) {
            return Some(Overlap {
                line: claim.place.line,
                earlier: piece.place.line,
            });
        }
    }
    None
}

fn goes_on(range: &MemoryRange, next: &MemoryRange) -> bool
    ensures { result ≡ goes_on range.now next.now }
{
    range.kind.is(next.kind) && range.last < next.first && next.first - range.last == 1
}

/// The ranges of pieces.
pub(crate) fn ranges_of(pieces: &[Claim]) -> Ranges
    requires { length pieces.now ≤ 512 }
    ensures ranges { result.items ≡ ranges_of pieces.now }
    ensures few { length result.items ≤ 512 }
{
    let mut list = ArrayVec::new();
    'pieces: for piece in pieces {
        list.push(piece.range);
    }
    list
}

/// Ranges, where those of one kind that touch are one.
pub(crate) fn joined(ranges: &[MemoryRange]) -> Ranges
    requires { length ranges.now ≤ 512 }
    ensures ranges { result.items ≡ joined ranges.now }
    ensures few { length result.items ≤ 512 }
{
    let mut list = ArrayVec::new();
    let Some((first, rest)) = ranges.split_first() else {
        return list;
    };
    let mut range = *first;
    'nexts: for next in rest {
        if goes_on(&range, next) {
            range.last = next.last;
        } else {
            list.push(range);
            range = *next;
        }
    }
    list.push(range);
    list
}
