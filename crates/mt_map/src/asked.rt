ghost use Rattle.std.specs.Prelude.{◌≡◌, map, string_bytes};
ghost use Rattle.mt_map.specs.Asked.{are_labels, asked_by, asked_by_one, help_text, version_text};

use crate::labels::{is_files, title_of};

/// What the words of the command line ask for.
#[derive(Clone, Copy)]
pub enum Asked {
    /// The picture of a dump.
    Picture,
    /// What the program does. It reads nothing.
    Help,
    /// The version of the program. It reads nothing.
    Version,
}

fn asked_by_one(word: &[u8]) -> Option<Asked>
    ensures { result ≡ asked_by_one word.now }
{
    if word == b"--help".as_slice() || word == b"-h".as_slice() {
        Some(Asked::Help)
    } else if word == b"--version".as_slice() {
        Some(Asked::Version)
    } else if title_of(word).is_some() || is_files(word) {
        Some(Asked::Picture)
    } else {
        None
    }
}

// Whether two words are a caption and `files`, in either order.
fn are_labels(word: &[u8], second: &[u8]) -> bool
    ensures { result ≡ are_labels word.now second.now }
{
    (title_of(word).is_some() && is_files(second)) || (is_files(word) && title_of(second).is_some())
}

/// What the words of the command line ask for. Returns `None` if and only if they are wrong usage.
pub fn asked_by(words: &[String]) -> Option<Asked>
    ensures { result ≡ asked_by (map string_bytes words.now) }
{
    match words {
        [] => Some(Asked::Picture),
        [word] => asked_by_one(word.as_str().as_bytes()),
        [word, second] => {
            if are_labels(word.as_str().as_bytes(), second.as_str().as_bytes()) {
                Some(Asked::Picture)
            } else {
                None
            }
        }
        [_, _, _, ..] => None,
    }
}

/// What `--help` writes.
pub(crate) fn help_text() -> &'static [u8]
    ensures { result.now ≡ help_text }
{
    b"usage: mtrr-map [title=TEXT] [files] [DUMP] > PICTURE

Draws the memory types that a dump of registers gives, as an SVG picture.

  title=TEXT  a caption of 1 to 80 bytes, without control characters
  files       the two sections are files, named before and after
  DUMP        names the dump; without it, or if it is -, standard input is read
  -h, --help  this text
  --version   the version

-h, --help and --version read nothing.

Exit status:
  0  done
  1  the registers have a fault
  2  wrong usage
  3  the input is no dump
  4  reading failed
  5  writing failed
  6  out of memory
  7  the input has more than 16,777,216 bytes
"
}

/// What `--version` writes.
pub(crate) fn version_text() -> &'static [u8]
    ensures { result.now ≡ version_text }
{
    b"mtrr-map 1.0.0\n"
}
