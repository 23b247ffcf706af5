ghost use Rattle.std.specs.Prelude.{◌≡◌, ◌<◌, [], ◌∷◌, ◌++◌, IfSome, OnOk, if◌then◌else◌};
ghost use Rattle.mt_cache.specs.Calls.{write_word};
ghost use Rattle.mt_cache.specs.Lines.{change_line, clean_line, clean_word, clear_bit, combined_with, find_line, first_dirty_line, first_dirty_word, has_number, oldest_of_full, without_line};

use mt_cache::CacheLine;
use mt_kinds::is_bit_set;
use mt_ports::NoMemory;

/// The line of this number.
pub fn find_line(lines: &[CacheLine], number: u64) -> Option<CacheLine>
    ensures { result ≡ find_line number lines.now }
{
    for line in lines {
        if line.number == number {
            return Some(*line);
        }
    }
    None
}

/// The oldest line of a list of so many.
pub(crate) fn oldest_of_full(lines: &[CacheLine], size: usize) -> Option<CacheLine>
    ensures { result ≡ oldest_of_full size lines.now }
{
    match lines {
        [] => None,
        [oldest, rest @ ..] => if rest.len() + 1 == size {
            Some(*oldest)
        } else {
            None
        },
    }
}

/// Marks the line of this number clean.
pub(crate) fn clean_line(lines: &mut [CacheLine], number: u64)
    ensures { lines.new ≡ change_line number clean_line lines.old }
{
    for i in 0..lines.len() {
        if lines[i].number == number {
            lines[i].dirty = 0;
        }
    }
}

fn clean_bit(dirty: u8, word: u8) -> u8
    requires { word < 8 }
    ensures { result ≡ clear_bit dirty word }
{
    dirty & (255 - (1 << word))
}

/// Marks a word of the line of this number clean.
pub(crate) fn clean_word(lines: &mut [CacheLine], number: u64, word: u8)
    requires { word < 8 }
    ensures { lines.new ≡ change_line number (clean_word word) lines.old }
{
    for i in 0..lines.len() {
        if lines[i].number == number {
            lines[i].dirty = clean_bit(lines[i].dirty, word);
        }
    }
}

fn put(line: &mut CacheLine, word: u8, v: u64, dirty: bool)
    requires { word < 8 }
    ensures { line.new ≡ write_word word v dirty line.old }
{
    line.words[word as usize] = v;
    if dirty {
        line.dirty |= 1 << word;
    } else {
        line.dirty = clean_bit(line.dirty, word);
    }
}

/// Writes a word of the line of this number.
pub(crate) fn write_word(lines: &mut [CacheLine], number: u64, word: u8, v: u64, dirty: bool)
    requires { word < 8 }
    ensures { lines.new ≡ change_line number (write_word word v dirty) lines.old }
{
    for i in 0..lines.len() {
        if lines[i].number == number {
            put(&mut lines[i], word, v, dirty);
        }
    }
}

/// Drops the line of this number.
pub(crate) fn drop_line(lines: &mut Vec<CacheLine>, number: u64)
    ensures { lines.new.items ≡ without_line number lines.old.items }
{
    lines.retain(|l| l.number != number);
}

/// Adds a line at the end.
pub(crate) fn add(lines: &mut Vec<CacheLine>, line: CacheLine) -> Result<(), NoMemory>
    ensures { OnOk result (lines.new.items ≡ lines.old.items ++ line ∷ []) }
{
    match lines.push(line) {
        Ok(()) => Ok(()),
        Err(_) => Err(NoMemory),
    }
}

/// Combines a word into the buffer of its line, which is added if there is none.
pub(crate) fn combine(
    buffers: &mut Vec<CacheLine>,
    number: u64,
    word: u8,
    v: u64,
    era: u64,
) -> Result<(), NoMemory>
    requires { word < 8 }
    ensures { OnOk result (buffers.new.items ≡ combined_with number word v era buffers.old.items) }
{
    if find_line(buffers.as_slice(), number).is_some() {
        write_word(buffers.as_mut_slice(), number, word, v, true);
        return Ok(());
    }
    let mut buffer = CacheLine {
        number,
        words: [0; 8],
        dirty: 0,
        era,
    };
    put(&mut buffer, word, v, true);
    add(buffers, buffer)
}

/// The first dirty word of a line.
pub fn first_dirty_word(line: &CacheLine) -> Option<u8>
    ensures word { result ≡ first_dirty_word line.now }
    ensures small { IfSome result (λ word. word < 8) }
{
    for word in 0..8 {
        if is_bit_set(line.dirty as u64, word) {
            return Some(word);
        }
    }
    None
}

/// The first line with a dirty word.
pub fn first_dirty_line(lines: &[CacheLine]) -> Option<CacheLine>
    ensures { result ≡ first_dirty_line lines.now }
{
    for line in lines {
        if first_dirty_word(line).is_some() {
            return Some(*line);
        }
    }
    None
}
