//! Dumps beside a plain and slow reader, which shares nothing with that of `mt_dump`.
use crate::checks::holds_at;
use arrayvec::ArrayVec;
use mt_dump::{Dump, DumpFault, DumpReason, read_dump};
use mt_text::Place;
use std::test::Fail;

// What the width is kept under, beside the numbers of registers.
const WIDTH: u64 = u64::MAX;

const CAP: u64 = 0xfe;

const FIXED: [u64; 11] = [
    0x250, 0x258, 0x259, 0x268, 0x269, 0x26a, 0x26b, 0x26c, 0x26d, 0x26e, 0x26f,
];

// What a line gives to the section before which so many others stand.
#[derive(Clone, Copy, Default)]
struct Given {
    section: u64,
    key: u64,
    value: u64,
}

// The version, the number of `cpu` lines, and all that lines give.
#[derive(Drop)]
struct Plain {
    version: Option<u64>,
    spoken: bool,
    sections: u64,
    given: ArrayVec<Given, 16>,
}

// What is wrong with a line, and the column.
type Wrong = (DumpReason, u64);

fn plain_number(word: &[u8], base: u64) -> Option<u64> {
    let mut value: u64 = 0;
    for byte in word {
        let digit = char::from(*byte).to_digit(16)? as u64;
        if digit >= base {
            return None;
        }
        value = value.wrapping_mul(base).wrapping_add(digit);
    }
    if word.is_empty() { None } else { Some(value) }
}

fn plain_hexadecimal(word: &[u8]) -> Option<u64> {
    match word {
        [b'0', b'x' | b'X', digits @ ..] => plain_number(digits, 16),
        _ => plain_number(word, 16),
    }
}

impl Plain {
    fn value(&self, section: u64, key: u64) -> Option<u64> {
        for given in self.given.iter() {
            if given.section == section && given.key == key {
                return Some(given.value);
            }
        }
        None
    }

    // The number of the present section. A text without `cpu` lines has one.
    fn present(&self) -> u64 {
        self.sections.saturating_sub(1)
    }

    fn is_writable(&self, key: u64) -> bool {
        let cap = self.value(0, CAP).unwrap_or(0);
        (key >= 0x200 && key - 0x200 < 2 * (cap % 256))
            || (cap / 256 % 2 == 1 && FIXED.contains(&key))
            || key == 0x277
            || key == 0x2ff
    }

    fn take_version(&mut self, version: u64, at: u64, then: u64) -> Result<(), Wrong> {
        if version < 1 || version > 2 {
            return Err((DumpReason::BadVersion, then));
        }
        if self.spoken {
            return Err((DumpReason::BadSection, at));
        }
        self.version = Some(version);
        Ok(())
    }

    fn take_section(&mut self, number: u64, at: u64) -> Result<(), Wrong> {
        if self.version != Some(2) || number != self.sections {
            return Err((DumpReason::BadSection, at));
        }
        if number > 0 && self.value(0, CAP).is_none() {
            return Err((DumpReason::NoCap, at));
        }
        self.sections = number.wrapping_add(1);
        Ok(())
    }

    // What is wrong with this width or register, wherever it stands.
    fn is_bad(key: u64, value: u64) -> Option<DumpReason> {
        if key == WIDTH && (value < 32 || value > 52) {
            Some(DumpReason::BadWidth)
        } else if key == CAP && value % 256 > 32 {
            Some(DumpReason::TooManyPairs)
        } else {
            None
        }
    }

    fn give(&mut self, key: u64, value: u64, at: u64, then: u64) -> Result<(), Wrong> {
        if let Some(reason) = Plain::is_bad(key, value) {
            return Err((reason, then));
        }
        if self.version == Some(2) && self.sections == 0 {
            return Err((DumpReason::BadSection, at));
        }
        let first = if key == WIDTH {
            self.value(0, WIDTH).or(Some(36))
        } else {
            self.value(0, CAP)
        };
        if key == WIDTH || key == CAP {
            if self.sections > 1 && first != Some(value) {
                return Err((DumpReason::Differs, then));
            }
        } else if first.is_none() {
            return Err((DumpReason::NoCap, at));
        } else if !self.is_writable(key) {
            return Err((DumpReason::UnknownRegister, at));
        }
        let section = self.present();
        if self.value(section, key).is_some() {
            return Err((DumpReason::Repeated, at));
        }
        let _ = self.given.try_push(Given {
            section,
            key,
            value,
        });
        Ok(())
    }

    // Takes two words, which begin at these columns.
    fn take(&mut self, name: &[u8], value: &[u8], at: u64, then: u64) -> Result<(), Wrong> {
        let name = name.strip_suffix(b":").unwrap_or(name);
        let bad = (DumpReason::BadNumber, then);
        if name == b"version".as_slice() {
            return self.take_version(plain_number(value, 10).ok_or(bad)?, at, then);
        }
        if name == b"cpu".as_slice() {
            return self.take_section(plain_number(value, 10).ok_or(bad)?, at);
        }
        if name == b"maxphyaddr".as_slice() {
            return self.give(WIDTH, plain_number(value, 10).ok_or(bad)?, at, then);
        }
        let key = plain_hexadecimal(name).ok_or((DumpReason::BadNumber, at))?;
        self.give(key, plain_hexadecimal(value).ok_or(bad)?, at, then)
    }

    fn take_line(&mut self, line: &[u8]) -> Result<(), Wrong> {
        let line = line.strip_suffix(b"\r").unwrap_or(line);
        let text = line.split(|b| *b == b'#').next().unwrap_or(line);
        let mut column: u64 = 1;
        let mut words: ArrayVec<(&[u8], u64), 2> = ArrayVec::new();
        for piece in text.split(|b| *b == b' ' || *b == b'\t') {
            if !piece.is_empty() && words.try_push((piece, column)).is_err() {
                return Err((DumpReason::BadLine, column));
            }
            column = column.wrapping_add(piece.len() as u64).wrapping_add(1);
        }
        let taken = match words.as_slice() {
            [] => return Ok(()),
            [(_, at)] => Err((DumpReason::BadLine, *at)),
            [(name, at), (value, then), ..] => self.take(name, value, *at, *then),
        };
        self.spoken = true;
        taken
    }
}

fn plain_reading(text: &[u8]) -> Result<Plain, DumpFault> {
    let mut plain = Plain {
        version: None,
        spoken: false,
        sections: 0,
        given: ArrayVec::new(),
    };
    let mut place = Place { line: 0, column: 1 };
    for bytes in text.split(|b| *b == b'\n') {
        place.line = place.line.wrapping_add(1);
        place.column = (bytes.len() as u64).wrapping_add(1);
        if let Err((reason, column)) = plain.take_line(bytes) {
            let place = Place {
                line: place.line,
                column,
            };
            return Err(DumpFault { reason, place });
        }
    }
    if plain.value(0, CAP).is_none() {
        return Err(DumpFault {
            reason: DumpReason::NoCap,
            place,
        });
    }
    Ok(plain)
}

// Whether a dump has what the plain reader found.
fn has_found(dump: &Dump, plain: &Plain) -> bool {
    if dump.version as u64 != plain.version.unwrap_or(1)
        || dump.files.len() as u64 != plain.sections.max(1)
    {
        return false;
    }
    for file in dump.files.iter() {
        if file.maxphy as u64 != plain.value(0, WIDTH).unwrap_or(36)
            || Some(file.cap) != plain.value(0, CAP)
        {
            return false;
        }
    }
    for given in plain.given.iter() {
        let Some(file) = dump.files.get(given.section as usize) else {
            return false;
        };
        let number = u32::try_from(given.key).unwrap_or_default();
        if given.key != WIDTH && file.get(number) != Some(given.value) {
            return false;
        }
    }
    true
}

// Whether both readers agree on a text.
fn agree(text: &[u8]) -> bool {
    match (read_dump(text), plain_reading(text)) {
        (Ok(dump), Ok(plain)) => has_found(&dump, &plain),
        (Err(fault), Err(plain)) => fault == plain,
        _ => false,
    }
}

// A text of each version, with each byte at each place.
#[test]
fn any_byte_at_any_place(rt: HostRuntime) -> Result<(), Fail> {
    for text in [
        b"maxphyaddr 40\n0fe: 101\r\n 200 1#2\n0x250 8".as_slice(),
        b"version 2\ncpu 0\n0fe 101\n200 1\n# x\ncpu 1\nmaxphyaddr 36\n0fe: 101\ncpu 2\n2ff c",
    ] {
        let mut changed = text.to_vec(rt.alloc())?;
        for place in 0..changed.len() {
            let kept = changed[place];
            for byte in 0..=255 {
                changed[place] = byte;
                holds_at(&rt, place as u64, agree(&changed));
            }
            changed[place] = kept;
        }
    }
    Ok(())
}
