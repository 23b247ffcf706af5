ghost use Rattle.std.specs.Prelude.{◌≡◌, ◌<◌, ◌^◌, slice_index, if◌then◌else◌};
ghost use Rattle.mt_cache.specs.Lines.{has_number};
ghost use Rattle.mt_machine.specs.Memory.{line_words, put_word, word_address, word_at, write_back, write_back_of, write_back_word};
ghost use Rattle.mt_list_machine.specs.Parts.{memory, write_back_if};

use mt_cache::CacheLine;
use mt_kinds::{LINE_BYTES, WORD_BYTES, is_bit_set};
use mt_ram::Ram;

/// The lines below the end of the physical addresses.
pub(crate) const PHYSICAL_LINES: u64 = 1 << 46;

/// The word at an address, in the windows of a layout.
pub(crate) fn read(layout: &Ram, words: &[u64], address: u64) -> u64
    ensures { result ≡ word_at (memory layout.now words.now) address }
{
    match layout.place(address) {
        Some(i) => word(words, i),
        None => 0,
    }
}

fn word(words: &[u64], i: usize) -> u64
    ensures { result ≡ slice_index words.now i }
{
    if i < words.len() { words[i] } else { 0 }
}

/// Writes the word at an address. Nothing changes if no window has it.
pub(crate) fn write(layout: &Ram, words: &mut [u64], address: u64, v: u64)
    ensures { memory layout.now words.new ≡ put_word (memory layout.now words.old) address v }
{
    if let Some(i) = layout.place(address)
        && i < words.len()
    {
        words[i] = v;
    }
}

/// The address of a word of a line.
pub(crate) fn word_address(number: u64, word: u8) -> u64
    requires line { number < 2 ^ 46 }
    requires word { word < 8 }
    ensures { result ≡ word_address number word }
{
    LINE_BYTES * number + WORD_BYTES * word as u64
}

fn line_word(layout: &Ram, words: &[u64], number: u64, word: u8) -> u64
    requires line { number < 2 ^ 46 }
    requires word { word < 8 }
    ensures { result ≡ word_at (memory layout.now words.now) (word_address number word) }
{
    read(layout, words, word_address(number, word))
}

/// The eight words of a line in memory.
pub(crate) fn line_words(layout: &Ram, words: &[u64], number: u64) -> [u64; 8]
    ensures { result ≡ line_words (memory layout.now words.now) number }
{
    if number >= PHYSICAL_LINES {
        let _ = layout.words(); // a fact for the proof
        return [0; 8];
    }
    [
        line_word(layout, words, number, 0),
        line_word(layout, words, number, 1),
        line_word(layout, words, number, 2),
        line_word(layout, words, number, 3),
        line_word(layout, words, number, 4),
        line_word(layout, words, number, 5),
        line_word(layout, words, number, 6),
        line_word(layout, words, number, 7),
    ]
}

// Writes one word of a line to memory, if it is dirty.
fn write_back_word(layout: &Ram, words: &mut [u64], line: &CacheLine, word: u8)
    requires line { line.now.number < 2 ^ 46 }
    requires word { word < 8 }
    ensures { memory layout.now words.new ≡ write_back_word line.now (memory layout.now words.old) word }
{
    if is_bit_set(line.dirty as u64, word) {
        write(
            layout,
            words,
            word_address(line.number, word),
            line.words[word as usize],
        );
    }
}

/// Writes the dirty words of a line to memory, in ascending order.
pub(crate) fn write_back(layout: &Ram, words: &mut [u64], line: &CacheLine)
    ensures { memory layout.now words.new ≡ write_back (memory layout.now words.old) line.now }
{
    if line.number >= PHYSICAL_LINES {
        let _ = layout.words(); // a fact for the proof
        return;
    }
    for word in 0..8 {
        write_back_word(layout, words, line, word);
    }
}

fn write_back_if(layout: &Ram, words: &mut [u64], line: &CacheLine, number: u64)
    ensures { memory layout.now words.new ≡ write_back_if number line.now (memory layout.now words.old) }
{
    if line.number == number {
        write_back(layout, words, line);
    }
}

/// Writes the dirty words of each line of this number to memory.
pub(crate) fn write_back_of(layout: &Ram, words: &mut [u64], lines: &[CacheLine], number: u64)
    ensures { memory layout.now words.new ≡ write_back_of number (memory layout.now words.old) lines.now }
{
    for line in lines {
        write_back_if(layout, words, line, number);
    }
}
