ghost use Rattle.std.specs.Prelude.{◌≡◌, ℕ, ◌<◌, ◌≤◌, ◌+◌, ◌^◌, length, IfSome, Some};
ghost use Rattle.std.specs.Option.{option_map};
ghost use Rattle.mt_machine.specs.Memory.{line_words, place, word_address, write_back, write_back_word};

use mt_cache::CacheLine;
use mt_kinds::{LINE_BYTES, is_bit_set};
use mt_ram::Ram;

/// The lines below the end of the physical addresses.
const PHYSICAL_LINES: u64 = 1 << 46;

// The place of the first word of a line, if a window has the line. The others follow it.
fn line_place(ram: &Ram, number: u64) -> Option<usize>
    ensures places { (word : ℕ) → word < 8 → place ram.now (word_address number word) ≡ option_map (λ i. i + word) result }
    ensures within { IfSome result (λ i. (i + 8 ≤ length ram.now.words) × (i + 8 < 2 ^ 64)) }
{
    let _ = ram.words(); // a fact for the proof
    if number < PHYSICAL_LINES {
        ram.place(LINE_BYTES * number)
    } else {
        None
    }
}

/// The eight words of a line in memory.
pub(crate) fn line_words(ram: &Ram, number: u64) -> [u64; 8]
    ensures { result ≡ line_words ram.now number }
{
    match line_place(ram, number) {
        Some(i) => [
            ram.word(i),
            ram.word(i + 1),
            ram.word(i + 2),
            ram.word(i + 3),
            ram.word(i + 4),
            ram.word(i + 5),
            ram.word(i + 6),
            ram.word(i + 7),
        ],
        None => [0; 8],
    }
}

// Writes one word of a line to its place in memory, if it is dirty.
fn write_back_word(ram: &mut Ram, i: usize, line: &CacheLine, word: u8)
    requires word { word < 8 }
    requires at { place ram.old (word_address line.now.number word) ≡ Some i }
    requires within { i < length ram.old.words }
    ensures memory { ram.new ≡ write_back_word line.now ram.old word }
    ensures windows { ram.new.windows ≡ ram.old.windows }
    ensures count { length ram.new.words ≡ length ram.old.words }
{
    if is_bit_set(line.dirty as u64, word) {
        ram.put(i, line.words[word as usize]);
    }
}

// Writes the dirty words of a line to memory, where its words stand from a place on.
fn write_back_at(ram: &mut Ram, first: usize, line: &CacheLine)
    requires places { (word : ℕ) → word < 8 → place ram.old (word_address line.now.number word) ≡ Some (first + word) }
    requires within { first + 8 ≤ length ram.old.words }
    requires number { first + 8 < 2 ^ 64 }
    ensures { ram.new ≡ write_back ram.old line.now }
{
    for word in 0..8 {
        write_back_word(ram, first + word as usize, line, word);
    }
}

/// Writes the dirty words of a line to memory, in ascending order.
pub(crate) fn write_back(ram: &mut Ram, line: &CacheLine)
    ensures { ram.new ≡ write_back ram.old line.now }
{
    if line.dirty == 0 {
        return;
    }
    if let Some(first) = line_place(ram, line.number) {
        write_back_at(ram, first, line);
    }
}
