use mt_kinds::PAGE_BYTES;
use std::alloc::{AllocError, Global};

// The units behind KB, each of 1,024 of the one before.
const UNITS: [&str; 4] = [" MB", " GB", " TB", " PB"];

// So many KB in the largest unit of which they are a multiple.
fn exact_size(kilobytes: u64) -> (u64, &'static str) {
    let mut count = kilobytes;
    let mut unit = " KB";
    for larger in UNITS {
        if count > 0 && count % 1024 == 0 {
            count /= 1024;
            unit = larger;
        }
    }
    (count, unit)
}

// So many KB in tenths of the largest unit of which they have one.
fn rounded_size(kilobytes: u64) -> (u64, &'static str) {
    let mut scale = 1u64;
    let mut unit = " KB";
    for larger in UNITS {
        if kilobytes / 1024 >= scale {
            scale = scale.saturating_mul(1024);
            unit = larger;
        }
    }
    let tenths = kilobytes.saturating_mul(10).saturating_add(scale / 2);
    (tenths / scale.max(1), unit)
}

/// How the numbers of a list are written.
#[derive(Clone, Copy)]
pub enum Digits {
    /// Those of processors.
    Decimal,
    /// Those of registers, in three digits.
    Hex,
}

// Whether the number `by` places behind a place is greater by as much.
fn rises(numbers: &[u32], place: Option<usize>, by: u32) -> bool {
    let Some(place) = place else {
        return false;
    };
    match (
        numbers.get(place),
        numbers.get(place.saturating_add(by as usize)),
    ) {
        (Some(low), Some(high)) => high.saturating_sub(*low) == by,
        _ => false,
    }
}

/// A text that is put together part by part. If an allocation fails, `finish` says so.
#[derive(Drop)]
pub struct Text {
    text: String,
    failed: bool,
}

impl Text {
    pub fn new(alloc: Global) -> Text {
        Text {
            text: String::new(alloc),
            failed: false,
        }
    }

    pub fn add(&mut self, part: &str) {
        if self.text.push_str(part).is_err() {
            self.failed = true;
        }
    }

    pub fn add_all(&mut self, parts: &[&str]) {
        for part in parts {
            self.add(*part);
        }
    }

    /// Adds a text and a decimal number behind it.
    pub fn add_decimal(&mut self, before: &str, n: u64) {
        if write!(self.text, "{before}{n}").is_err() {
            self.failed = true;
        }
    }

    /// Adds a hexadecimal number in at least so many digits.
    pub fn add_hex(&mut self, n: u64, digits: usize) {
        if write!(self.text, "{n:0digits$x}").is_err() {
            self.failed = true;
        }
    }

    /// Adds the address of the first byte of a page.
    pub fn add_first(&mut self, page: u64) {
        self.add_hex(page.saturating_mul(PAGE_BYTES), 13);
    }

    /// Adds the address of the last byte before a page.
    pub fn add_last(&mut self, end: u64) {
        self.add_hex(end.saturating_mul(PAGE_BYTES).saturating_sub(1), 13);
    }

    /// Adds the first and the last address of the pages from one up to another.
    pub fn add_range(&mut self, first: u64, end: u64) {
        self.add_first(first);
        self.add("-");
        self.add_last(end);
    }

    /// Adds a number of pages and their size.
    pub fn add_pages(&mut self, count: u64) {
        self.add_decimal("", count);
        self.add(" pages (");
        self.add_size(count);
        self.add(")");
    }

    /// Adds the addresses of so many pages from one on, their number and their size.
    pub fn add_run(&mut self, first: u64, count: u64) {
        self.add_range(first, first.saturating_add(count));
        self.add_decimal(" (", count);
        self.add(" pages, ");
        self.add_size(count);
        self.add(")");
    }

    /// Adds the numbers of so many bits from one on.
    pub fn add_bits(&mut self, low: u8, count: u8) {
        self.add_decimal("", (low as u64 + count as u64).saturating_sub(1));
        self.add_decimal(":", low as u64);
    }

    /// Adds the size of so many pages: exact, in the largest unit of which it is a multiple, if that has at most four digits, and else
    /// rounded to a tenth of a unit.
    pub fn add_size(&mut self, pages: u64) {
        let kilobytes = pages.saturating_mul(PAGE_BYTES / 1024);
        let (count, unit) = exact_size(kilobytes);
        if count < 10_000 {
            self.add_decimal("", count);
            self.add(unit);
        } else {
            let (tenths, unit) = rounded_size(kilobytes);
            self.add_decimal("", tenths / 10);
            self.add_decimal(".", tenths % 10);
            self.add(unit);
        }
    }

    /// Adds numbers in ascending order. Of three or more neighbours there are the first and the last.
    pub fn add_numbers(&mut self, numbers: &[u32], digits: Digits) {
        for i in 0..numbers.len() {
            let goes_on = rises(numbers, i.checked_sub(1), 1);
            if goes_on && rises(numbers, Some(i), 1) {
                continue;
            }
            if goes_on && rises(numbers, i.checked_sub(2), 2) {
                self.add("-");
            } else if i > 0 {
                self.add(", ");
            }
            match digits {
                Digits::Decimal => self.add_decimal("", numbers[i] as u64),
                Digits::Hex => self.add_hex(numbers[i] as u64, 3),
            }
        }
    }

    /// Adds the numbers of processors.
    pub fn add_cpus(&mut self, cpus: &[u32]) {
        self.add("cpu ");
        self.add_numbers(cpus, Digits::Decimal);
    }

    pub fn as_str(&self) -> &str {
        self.text.as_str()
    }

    pub fn clear(&mut self) {
        self.text.clear();
    }

    /// The whole text. Fails if an allocation failed.
    pub fn finish(self) -> Result<String, AllocError> {
        if self.failed {
            Err(AllocError)
        } else {
            Ok(self.text)
        }
    }
}
