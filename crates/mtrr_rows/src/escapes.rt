ghost use Rattle.std.specs.Prelude.{◌≡◌, ◌<◌, ◌++◌, ◌∷◌, [], IfOk, IfSome, OnOk};
ghost use Rattle.std.specs.List.{All};
ghost use Rattle.mtrr_rows.specs.declared.escapes.Escape.TheVariants.{No};
ghost use Rattle.mtrr_rows.specs.Plain.{IsPlain};

use crate::row::Fault;

/// What follows an escaped text: a line feed, or nothing behind a backslash.
#[derive(Clone, Copy, PartialEq, Eq)]
pub enum End {
    Closed,
    Open,
}

// What of an escape has been read.
#[derive(Clone, Copy)]
enum Escape {
    No,
    Begun,
    Digits,
    Digit(u8),
}

// The value of a lower-case hexadecimal digit.
fn digit(byte: u8) -> Option<u8>
    ensures { IfSome result (λ d. d < 16) }
{
    match byte {
        b'0'..=b'9' => Some(byte - b'0'),
        b'a'..=b'f' => Some(byte - b'a' + 10),
        _ => None,
    }
}

// The byte of an escape of one letter.
fn letter(byte: u8) -> Option<u8> {
    match byte {
        b'\\' => Some(b'\\'),
        b't' => Some(b'\t'),
        b'r' => Some(b'\r'),
        _ => None,
    }
}

/// Adds the bytes that an escaped text stands for: a text without a backslash stands for itself.
pub fn append_unescaped(bytes: &mut Vec<u8>, text: &[u8]) -> Result<End, Fault>
    ensures plain { OnOk result (All IsPlain text.now → bytes.new.items ≡ bytes.old.items ++ text.now) }
{
    let mut escape = Escape::No;
    for byte in text {
        escape = after_byte(bytes, escape, *byte)?;
    }
    match escape {
        Escape::No => Ok(End::Closed),
        Escape::Begun => Ok(End::Open),
        _ => Err(Fault::BadEscape),
    }
}

// Takes one byte, which adds one or goes on with an escape.
fn after_byte(bytes: &mut Vec<u8>, escape: Escape, byte: u8) -> Result<Escape, Fault>
    ensures plain { IfOk result (λ after. escape ≡ No → IsPlain byte → (after ≡ No) × (bytes.new.items ≡ bytes.old.items ++ byte ∷ [])) }
{
    match escape {
        Escape::No if byte == b'\\' => return Ok(Escape::Begun),
        Escape::No => bytes.push(byte)?,
        Escape::Begun if byte == b'x' => return Ok(Escape::Digits),
        Escape::Begun => bytes.push(letter(byte).ok_or(Fault::BadEscape)?)?,
        Escape::Digits => return Ok(Escape::Digit(digit(byte).ok_or(Fault::BadEscape)?)),
        Escape::Digit(high) => {
            let low = digit(byte).ok_or(Fault::BadEscape)?;
            bytes.push(high << 4 | low)?;
        }
    }
    Ok(Escape::No)
}
