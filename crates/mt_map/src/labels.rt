ghost use Rattle.std.specs.Prelude.{◌≡◌, map, string_bytes, ◌++◌, None, Some, MatchOption, IfOk, OnOk};
ghost use Rattle.mt_map.specs.Asked.{behind, escaped, escaped_byte, has_files, is_files, is_noncharacter_tail, is_plain, is_title, title_in, title_of};

use std::alloc::{AllocError, Global};

const LONGEST_TITLE: usize = 80;

/// What the words of the command line add to a picture.
#[derive(Clone, Copy, Default)]
pub struct Labels<'a> {
    /// The caption, in UTF-8: 1 to 80 bytes, without control characters, U+FFFE and U+FFFF.
    pub title: Option<&'a [u8]>,
    /// Whether the two sections of a dump are two files, and not two processors.
    pub are_files: bool,
}

// Whether a text is the rest of U+FFFE or U+FFFF in UTF-8, behind its first byte.
fn is_noncharacter_tail(text: &[u8]) -> bool
    ensures { result ≡ is_noncharacter_tail text.now }
{
    match text {
        [second, third, ..] => *second == 0xbf && *third >= 0xbe,
        _ => false,
    }
}

// Whether a text has no control characters, and only characters that XML has.
fn is_plain(text: &[u8]) -> bool
    ensures { result ≡ is_plain text.now }
{
    let mut rest = text;
    'bytes: while let Some((byte, more)) = rest.split_first() {
        if *byte < 0x20 || (*byte == 0xef && is_noncharacter_tail(more)) {
            return false;
        }
        rest = more;
    }
    true
}

fn is_title(text: &[u8]) -> bool
    ensures { result ≡ is_title text.now }
{
    !text.is_empty() && text.len() <= LONGEST_TITLE && is_plain(text)
}

fn behind<'a>(head: &[u8], word: &'a [u8]) -> Option<&'a [u8]>
    ensures { MatchOption result (behind head.now word.now ≡ None) (λ x. behind head.now word.now ≡ Some x.now) }
{
    word.strip_prefix(head)
}

/// The caption that a word gives.
pub(crate) fn title_of(word: &[u8]) -> Option<&[u8]>
    ensures { MatchOption result (title_of word.now ≡ None) (λ x. title_of word.now ≡ Some x.now) }
{
    match behind(b"title=", word) {
        Some(text) if is_title(text) => Some(text),
        _ => None,
    }
}

/// Whether a word says that the sections of a dump are files.
pub(crate) fn is_files(word: &[u8]) -> bool
    ensures { result ≡ is_files word.now }
{
    word == b"files".as_slice()
}

fn title_in(words: &[String]) -> Option<&[u8]>
    ensures { MatchOption result (title_in (map string_bytes words.now) ≡ None) (λ x. title_in (map string_bytes words.now) ≡ Some x.now) }
{
    match words {
        [] => None,
        [word] => title_of(word.as_str().as_bytes()),
        [word, second, ..] => match title_of(word.as_str().as_bytes()) {
            Some(title) => Some(title),
            None => title_of(second.as_str().as_bytes()),
        },
    }
}

fn has_files(words: &[String]) -> bool
    ensures { result ≡ has_files (map string_bytes words.now) }
{
    match words {
        [] => false,
        [word] => is_files(word.as_str().as_bytes()),
        [word, second, ..] => {
            is_files(word.as_str().as_bytes()) || is_files(second.as_str().as_bytes())
        }
    }
}

/// What the words of the command line add to a picture.
pub fn labels_of(words: &[String]) -> Labels<'_>
    ensures title { MatchOption result.title (title_in (map string_bytes words.now) ≡ None) (λ x. title_in (map string_bytes words.now) ≡ Some x.now) }
    ensures files { result.are_files ≡ has_files (map string_bytes words.now) }
{
    Labels {
        title: title_in(words),
        are_files: has_files(words),
    }
}

// Adds a byte of a caption.
fn append_escaped(text: &mut Vec<u8>, byte: u8) -> Result<(), AllocError>
    ensures { OnOk result (text.new.items ≡ text.old.items ++ escaped_byte byte) }
{
    match byte {
        b'&' => text.extend_from_slice(b"&amp;"),
        b'<' => text.extend_from_slice(b"&lt;"),
        b'>' => text.extend_from_slice(b"&gt;"),
        _ => text.extend_from_slice(&[byte]),
    }
}

/// A caption as a picture has it: markup in it is text.
pub(crate) fn escaped(alloc: Global, title: &[u8]) -> Result<Vec<u8>, AllocError>
    ensures { IfOk result (λ text. text.items ≡ escaped title.now) }
{
    let mut text = Vec::new(alloc);
    'bytes: for byte in title {
        append_escaped(&mut text, *byte)?;
    }
    Ok(text)
}
