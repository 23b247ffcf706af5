ghost use Rattle.std.specs.Prelude.{◌≡◌, map, string_bytes};
ghost use Rattle.mt_memory.specs.Command.{asked_by, asked_by_word, asked_of, command_of, format_named, is_memory, is_text, map_named, which_named};

use crate::{Format, WhichMap};
use mt_text::decimal;

const MOST_MAPS: u64 = 65_535;

/// What the words of a command line ask for.
#[derive(Clone, Copy)]
pub struct Asked {
    /// None: that of the first line that tells one.
    pub format: Option<Format>,
    pub which: WhichMap,
}

fn is_text(text: &[u8], word: &[u8]) -> bool
    ensures { result ≡ is_text text.now word.now }
{
    word == text
}

// The format of this name, or none for `auto`.
fn format_named(word: &[u8]) -> Option<Option<Format>>
    ensures { result ≡ format_named word.now }
{
    let format = if is_text(b"auto", word) {
        return Some(None);
    } else if is_text(b"e820", word) {
        Format::E820
    } else if is_text(b"efi", word) {
        Format::Efi
    } else if is_text(b"coreboot", word) {
        Format::Coreboot
    } else if is_text(b"iomem", word) {
        Format::Iomem
    } else {
        return None;
    };
    Some(Some(format))
}

fn map_named(name: &[u8]) -> Option<WhichMap>
    ensures { result ≡ map_named name.now }
{
    if is_text(b"first", name) {
        return Some(WhichMap::Number(1));
    }
    if is_text(b"last", name) {
        return Some(WhichMap::Last);
    }
    match decimal(name, MOST_MAPS) {
        Ok(number) if number > 0 => Some(WhichMap::Number(number)),
        _ => None,
    }
}

fn which_named(word: &[u8]) -> Option<WhichMap>
    ensures { result ≡ which_named word.now }
{
    match word.strip_prefix(b"table=") {
        Some(name) => map_named(name),
        None => None,
    }
}

fn asked_by(format: Option<Option<Format>>, which: Option<WhichMap>) -> Option<Asked>
    ensures { result ≡ asked_by format which }
{
    match (format, which) {
        (Some(format), Some(which)) => Some(Asked { format, which }),
        _ => None,
    }
}

// What a word alone asks for: a format, or one of a log's maps.
fn asked_by_word(word: &[u8]) -> Option<Asked>
    ensures { result ≡ asked_by_word word.now }
{
    match asked_by(format_named(word), Some(WhichMap::Sole)) {
        Some(asked) => Some(asked),
        None => asked_by(Some(None), which_named(word)),
    }
}

// What the words behind `memory` ask for.
fn asked_of(words: &[String]) -> Option<Asked>
    ensures { result ≡ asked_of (map string_bytes words.now) }
{
    match words {
        [] => asked_by(Some(None), Some(WhichMap::Sole)),
        [word] => asked_by_word(word.as_bytes()),
        [format, table] => asked_by(
            format_named(format.as_bytes()),
            which_named(table.as_bytes()),
        ),
        _ => None,
    }
}

/// Whether the first word asks for a memory map.
pub fn is_memory(words: &[String]) -> bool
    ensures { result ≡ is_memory (map string_bytes words.now) }
{
    match words {
        [word, ..] => is_text(b"memory", word.as_bytes()),
        [] => false,
    }
}

/// What words ask for: `memory`, a format, and which of a log's maps.
pub fn command_of(words: &[String]) -> Option<Asked>
    ensures { result ≡ command_of (map string_bytes words.now) }
{
    if is_memory(words) {
        asked_of(&words[1..])
    } else {
        None
    }
}
