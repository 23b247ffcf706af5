ghost use Rattle.std.specs.Prelude.{◌≡◌, ℕ, ◌<◌, ◌==◌, replicate};
ghost use Rattle.std.specs.List.{find};
ghost use Rattle.mt_kinds.specs.Bits.{is_bit_set};
ghost use Rattle.mt_cache.specs.declared.line.CacheLine.{CacheLine};
ghost use Rattle.mt_cache.specs.Lines.{IsLine, clean_line, clean_word, eight, write_dirty};
ghost use Rattle.mt_cache.specs.Calls.{clean_line_of, write_word};

use crate::line::CacheLine;

/// Clears the dirty bit of a word.
pub(crate) fn clean(line: &mut CacheLine, word: u8)
    requires { word < 8 }
    ensures line { line.new ≡ clean_word word line.old }
    ensures whole { IsLine line.new }
{
    line.dirty &= 255 - (1 << word);
}

/// Clears all dirty bits.
pub(crate) fn clean_all(line: &mut CacheLine)
    ensures line { line.new ≡ clean_line line.old }
    ensures whole { IsLine line.new }
{
    line.dirty = 0;
}

/// Writes a word and its dirty bit.
pub(crate) fn put(line: &mut CacheLine, word: u8, v: u64, dirty: bool)
    requires { word < 8 }
    ensures line { line.new ≡ write_word word v dirty line.old }
    ensures whole { IsLine line.new }
{
    line.words[word as usize] = v;
    if dirty {
        line.dirty |= 1 << word;
    } else {
        clean(line, word);
    }
}

/// A buffer with one written word.
pub(crate) fn first_written(number: u64, word: u8, v: u64, era: u64) -> CacheLine
    requires { word < 8 }
    ensures line { result ≡ write_dirty word v (clean_line_of number (replicate 8 0) era) }
    ensures whole { IsLine result }
{
    let mut line = CacheLine {
        number,
        words: [0; 8],
        dirty: 0,
        era,
    };
    put(&mut line, word, v, true);
    line
}

/// Whether these dirty bits say that all eight words are written.
pub(crate) fn has_all_words(dirty: u8) -> bool
    ensures { result ≡ (dirty == 0xff) }
{
    dirty == 0xff
}

/// The first dirty word of a line with these dirty bits.
pub(crate) fn first_word(dirty: u8) -> Option<u8>
    ensures { result ≡ find (is_bit_set dirty) eight }
{
    if dirty == 0 {
        None
    } else {
        Some(dirty.trailing_zeros() as u8)
    }
}
