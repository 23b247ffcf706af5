ghost use Rattle.std.specs.Prelude.{◌≡◌, ℕ, ◌<◌, ◌≤◌, [], ◌∷◌, ◌++◌, length, slice_get, None, Some};
ghost use Rattle.std.specs.List.{position};
ghost use Rattle.mt_cache.specs.declared.line.CacheLine.{CacheLine};
ghost use Rattle.mt_cache.specs.Lines.{IsLine, find_line, has_number, oldest_of_full, without_line};
ghost use Rattle.mt_cache.specs.Calls.{AreLines, change_at, with_room, write_word};

use crate::line::CacheLine;
use crate::words::put;
use arrayvec::ArrayVec;

/// The place of the line of this number.
pub(crate) fn place_of(lines: &[CacheLine], number: u64) -> Option<usize>
    ensures { result ≡ position (has_number number) lines.now }
{
    lines.iter().position(|l| l.number == number)
}

/// Writes a word of the line at a place.
pub(crate) fn put_at<const N: usize>(
    lines: &mut ArrayVec<CacheLine, N>,
    i: usize,
    word: u8,
    v: u64,
    dirty: bool,
)
    requires kept { AreLines lines.old.items }
    requires place { i < length lines.old.items }
    requires word { word < 8 }
    ensures lines { lines.new.items ≡ change_at i (write_word word v dirty) lines.old.items }
    ensures kept { AreLines lines.new.items }
{
    put(&mut lines.as_mut_slice()[i], word, v, dirty);
}

/// Takes out the line at a place.
pub(crate) fn take_at<const N: usize>(lines: &mut ArrayVec<CacheLine, N>, i: usize) -> CacheLine
    requires kept { AreLines lines.old.items }
    requires place { i < length lines.old.items }
    ensures line { slice_get lines.old.items i ≡ Some result }
    ensures whole { IsLine result }
    ensures lines { lines.new.items ≡ without_line result.number lines.old.items }
    ensures kept { AreLines lines.new.items }
{
    lines.remove(i)
}

/// Adds a line. Where the list is full, it first takes out the oldest and hands it back.
pub(crate) fn add<const N: usize>(
    lines: &mut ArrayVec<CacheLine, N>,
    line: CacheLine,
) -> Option<CacheLine>
    requires size { 0 < N }
    requires kept { AreLines lines.old.items }
    requires absent { find_line line.number lines.old.items ≡ None }
    requires whole { IsLine line }
    ensures out { result ≡ oldest_of_full N lines.old.items }
    ensures lines { lines.new.items ≡ with_room N lines.old.items ++ line ∷ [] }
    ensures room { length lines.new.items ≤ N }
    ensures kept { AreLines lines.new.items }
{
    let oldest = if lines.is_full() {
        Some(lines.remove(0))
    } else {
        None
    };
    lines.push(line);
    oldest
}
