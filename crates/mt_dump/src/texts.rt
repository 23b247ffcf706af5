ghost use Rattle.std.specs.Prelude.{◌≡◌, ◌≤◌, ◌+◌, ◌++◌, length};
ghost use Rattle.arrayvec.specs.ArrayVec.{array_vec_len};
ghost use Rattle.mt_dump.specs.Canon.{canon, canon_lines};

use crate::canon::write_dump;
use crate::dumps::Dump;
use arrayvec::ArrayVec;

const LONGEST_LINE: usize = 24;

const TEXT_ROOM: usize = 0x8000;

/// Room for the canonical text of any dump behind 224 bytes.
pub type TextBuffer = ArrayVec<u8, TEXT_ROOM>;

/// Adds bytes to a text.
pub fn append_text(text: &mut TextBuffer, bytes: &[u8])
    requires { array_vec_len text.old + length bytes.now ≤ TEXT_ROOM }
    ensures { text.new.items ≡ text.old.items ++ bytes.now }
{
    match text.try_extend_from_slice(bytes) {
        Ok(()) => {}
        Err(_) => unreachable!(),
    }
}

// How many lines the canonical text of a dump has.
fn line_count(d: &Dump) -> u32
    ensures count { result ≡ length (canon_lines d.now) }
    ensures few { result ≤ 1281 }
{
    let lines = d.first_file().count() + 2;
    if d.version == 2 {
        1 + d.files.len() as u32 * (lines + 1)
    } else {
        lines
    }
}

/// Adds the canonical text of a dump.
pub fn append_canon(text: &mut TextBuffer, d: &Dump)
    requires { array_vec_len text.old ≤ 224 }
    ensures { text.new.items ≡ text.old.items ++ canon d.now }
{
    'lines: for i in 0..line_count(d) {
        let mut line = [0; LONGEST_LINE];
        let count = write_dump(d, i, &mut line);
        append_text(text, &line[..count]);
    }
}

/// The canonical text of a dump.
pub fn canonical_text(d: &Dump) -> TextBuffer
    ensures { result.items ≡ canon d.now }
{
    let mut text = ArrayVec::new();
    append_canon(&mut text, d);
    text
}
