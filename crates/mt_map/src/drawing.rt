ghost use Rattle.std.specs.Prelude.{◌≡◌, ◌<◌};
ghost use Rattle.mt_map.specs.Bands.{is_different};
ghost use Rattle.mt_map.specs.Shapes.{label};

use crate::drawing::Part::{Decimal, Hex, Text};
use crate::{Band, Rect};
use itoa::Buffer;
use mt_dump::value_text;
use mt_regs::{PageType, same_page_type};
use std::alloc::{AllocError, Global};

/// A part of a text: bytes, or a number behind bytes.
#[derive(Clone, Copy)]
pub(crate) enum Part<'a> {
    Text(&'a [u8]),
    Decimal(&'a [u8], u64),
    Hex(&'a [u8], u64),
}

// The place of the first digit that isn't 0, or of the last one.
fn first_digit(digits: &[u8; 16]) -> usize
    ensures { result < 16 }
{
    for i in 0..15 {
        if digits[i] != b'0' {
            return i;
        }
    }
    15
}

/// The text of a picture, put together part by part. If an allocation fails, `finish` says so.
#[derive(Drop)]
pub(crate) struct Drawing {
    text: Vec<u8>,
    failed: bool,
}

impl Drawing {
    pub(crate) fn new(alloc: Global) -> Drawing {
        Drawing {
            text: Vec::new(alloc),
            failed: false,
        }
    }

    pub(crate) fn add(&mut self, bytes: &[u8]) {
        if self.text.extend_from_slice(bytes).is_err() {
            self.failed = true;
        }
    }

    fn add_decimal(&mut self, n: u64) {
        let mut buffer = Buffer::new();
        self.add(buffer.format(n).as_bytes());
    }

    fn add_hex(&mut self, n: u64) {
        let digits = value_text(n);
        self.add(&digits[first_digit(&digits)..]);
    }

    fn add_part(&mut self, part: Part<'_>) {
        match part {
            Text(bytes) => self.add(bytes),
            Decimal(front, n) => {
                self.add(front);
                self.add_decimal(n);
            }
            Hex(front, n) => {
                self.add(front);
                self.add_hex(n);
            }
        }
    }

    /// Adds parts, in their order.
    pub(crate) fn add_all(&mut self, parts: &[Part<'_>]) {
        for part in parts {
            self.add_part(*part);
        }
    }

    /// The whole text, or that an allocation failed.
    pub(crate) fn finish(self) -> Result<Vec<u8>, AllocError> {
        if self.failed {
            Err(AllocError)
        } else {
            Ok(self.text)
        }
    }
}

/// Adds a rectangle of a class, filled with a pattern.
pub(crate) fn append_box<'x>(text: &mut Drawing, class: &'x [u8], fill: &'x [u8], r: &Rect) {
    let parts = [
        Text(b"<rect class='"),
        Text(class),
        Decimal(b"' x='", r.x),
        Decimal(b"' y='", r.y),
        Decimal(b"' width='", r.width),
        Decimal(b"' height='", r.height),
        Text(b"' fill='url(#"),
        Text(fill),
        Text(b")'/>\n"),
    ];
    text.add_all(&parts);
}

/// Adds a text of a class.
pub(crate) fn append_label(text: &mut Drawing, class: &[u8], x: u64, y: u64, content: &[Part<'_>]) {
    let head = [
        Text(b"<text class='"),
        Text(class),
        Decimal(b"' x='", x),
        Decimal(b"' y='", y),
        Text(b"'>"),
    ];
    text.add_all(&head);
    text.add_all(content);
    text.add(b"</text>\n");
}

/// Adds a thin line from the left edge on.
pub(crate) fn append_rule(text: &mut Drawing, y: u64, width: u64) {
    let parts = [
        Decimal(b"<path class='rule' d='M12 ", y),
        Decimal(b"h", width),
        Text(b"'/>\n"),
    ];
    text.add_all(&parts);
}

/// The name of a type, which is also that of its pattern.
pub(crate) fn name_of_kind(kind: PageType) -> &'static str
    ensures { result.now ≡ label kind }
{
    match kind {
        PageType::Kind(kind) => kind.name(),
        PageType::Undefined => "undefined",
    }
}

/// Whether the two files give a row different types.
pub(crate) fn is_different(row: &Band) -> bool
    ensures { result ≡ is_different row.now }
{
    match row.other {
        None => false,
        Some(other) => !same_page_type(row.kind, other),
    }
}
