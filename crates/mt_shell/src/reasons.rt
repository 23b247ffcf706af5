ghost use Rattle.std.specs.Prelude.{◌≡◌, ◌≤◌, ◌+◌, ◌++◌, length};
ghost use Rattle.arrayvec.specs.ArrayVec.{array_vec_len};
ghost use Rattle.mt_output.specs.Ports.{sink_run};
ghost use Rattle.mt_shell.specs.Reasons.{Took, shown_byte, told_line};

use arrayvec::ArrayVec;
use mt_ports::{Sink, put};

// A reason of at most 2,000 bytes. What is longer is cut.
pub(crate) type Reason = ArrayVec<u8, 2000>;

// A line with it, after a name of at most 32 bytes.
type Line = ArrayVec<u8, 4096>;

fn append_front(reason: &mut Reason, text: &[u8]) {
    let room = reason.remaining_capacity();
    let _ = reason.try_extend_from_slice(&text[..text.len().min(room)]);
}

// A reason in two parts.
pub(crate) fn reason(text: &str, word: &str) -> Reason {
    let mut reason = ArrayVec::new();
    append_front(&mut reason, text.as_bytes());
    append_front(&mut reason, word.as_bytes());
    reason
}

fn append(line: &mut Line, text: &[u8])
    requires { array_vec_len line.old + length text.now ≤ 4096 }
    ensures { line.new.items ≡ line.old.items ++ text.now }
{
    line.try_extend_from_slice(text).unwrap();
}

// Adds a byte, or `^` and a letter for a control character.
fn append_shown(line: &mut Line, byte: u8)
    requires { array_vec_len line.old + 2 ≤ 4096 }
    ensures shown { line.new.items ≡ line.old.items ++ shown_byte byte }
    ensures short { array_vec_len line.new ≤ array_vec_len line.old + 2 }
{
    if byte < 0x20 {
        append(line, &[b'^', byte + 0x40]);
    } else if byte == 0x7f {
        append(line, b"^?");
    } else {
        append(line, &[byte]);
    }
}

fn told_line(name: &str, reason: &[u8]) -> Line
    requires name { length name.now ≤ 32 }
    requires reason { length reason.now ≤ 2000 }
    ensures { result.items ≡ told_line name.now reason.now }
{
    let mut line = ArrayVec::new();
    append(&mut line, name.as_bytes());
    append(&mut line, b": ");
    'bytes: for byte in reason {
        append_shown(&mut line, *byte);
    }
    append(&mut line, b"\n");
    line
}

// Writes `NAME: REASON` as a line. A sink that fails is let alone.
pub(crate) fn tell<E: Sink>(errors: &mut E, name: &str, reason: &[u8])
    requires name { length name.now ≤ 32 }
    requires reason { length reason.now ≤ 2000 }
    ensures { Took (told_line name.now reason.now) (sink_run E.taken E.faults errors.old errors.new) }
{
    let _ = put(errors, told_line(name, reason).as_slice());
}
