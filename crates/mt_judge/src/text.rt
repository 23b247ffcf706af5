ghost use Rattle.std.specs.Prelude.{◌<◌, ◌≤◌};

use itoa::Buffer;
use mt_ports::NoMemory;
use std::alloc::Global;

const DIGITS: [&str; 16] = [
    "0", "1", "2", "3", "4", "5", "6", "7", "8", "9", "a", "b", "c", "d", "e", "f",
];

/// A text that is put together part by part. If an allocation fails, `finish` says so.
#[derive(Drop)]
pub(crate) struct Text {
    text: String,
    failed: bool,
}

// The hexadecimal digit at a place, counted from the last one.
fn digit_at(n: u64, place: u32) -> usize
    requires { place < 16 }
    ensures { result < 16 }
{
    ((n >> (4 * place)) % 16) as usize
}

impl Text {
    pub(crate) fn new(alloc: Global) -> Text {
        Text {
            text: String::new(alloc),
            failed: false,
        }
    }

    pub(crate) fn add(&mut self, part: &str) {
        if self.text.push_str(part).is_err() {
            self.failed = true;
        }
    }

    /// Adds a text, and a number in decimal behind it.
    pub(crate) fn add_decimal(&mut self, front: &str, n: u64) {
        let mut buffer = Buffer::new();
        self.add(front);
        self.add(buffer.format(n));
    }

    /// Adds a text, and a number in at least so many hexadecimal digits behind it.
    pub(crate) fn add_hex(&mut self, front: &str, n: u64, least: u32)
        requires { least ≤ 16 }
    {
        self.add(front);
        let mut begun = false;
        for i in 0..16 {
            let digit = digit_at(n, 15 - i);
            begun = begun || digit > 0 || i + least >= 16;
            if begun {
                self.add(DIGITS[digit]);
            }
        }
    }

    /// The whole text. Fails if an allocation failed.
    pub(crate) fn finish(self) -> Result<String, NoMemory> {
        if self.failed {
            Err(NoMemory)
        } else {
            Ok(self.text)
        }
    }
}
