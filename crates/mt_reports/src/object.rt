use crate::text::Text;
use json::Writer;
use mt_kinds::PAGE_BYTES;
use std::alloc::{AllocError, Global};

/// A line of JSON that is written member by member. If an allocation fails, `finish` says so.
#[derive(Drop)]
pub struct Json {
    out: Writer<Global>,
    failed: bool,
    /// What the next `text` writes.
    pub part: Text,
}

fn note(failed: &mut bool, written: Result<(), AllocError>) {
    if written.is_err() {
        *failed = true;
    }
}

impl Json {
    pub fn new(alloc: Global) -> Json {
        Json {
            out: Writer::new(Vec::new(alloc)),
            failed: false,
            part: Text::new(alloc),
        }
    }

    pub fn begin_object(&mut self) {
        note(&mut self.failed, self.out.begin_object());
    }

    pub fn end_object(&mut self) {
        note(&mut self.failed, self.out.end_object());
    }

    /// Begins a member whose value follows.
    pub fn key(&mut self, name: &str) {
        note(&mut self.failed, self.out.key(name));
    }

    pub fn begin_list(&mut self, name: &str) {
        self.key(name);
        note(&mut self.failed, self.out.begin_array());
    }

    pub fn end_list(&mut self) {
        note(&mut self.failed, self.out.end_array());
    }

    pub fn null(&mut self, name: &str) {
        self.key(name);
        note(&mut self.failed, self.out.null());
    }

    pub fn flag(&mut self, name: &str, value: bool) {
        self.key(name);
        note(&mut self.failed, self.out.boolean(value));
    }

    pub fn optional_flag(&mut self, name: &str, value: Option<bool>) {
        match value {
            Some(value) => self.flag(name, value),
            None => self.null(name),
        }
    }

    pub fn number(&mut self, name: &str, value: u64) {
        self.key(name);
        note(&mut self.failed, self.out.u64(value));
    }

    pub fn string(&mut self, name: &str, value: &str) {
        self.key(name);
        note(&mut self.failed, self.out.string(value));
    }

    pub fn optional_string(&mut self, name: &str, value: Option<&str>) {
        match value {
            Some(value) => self.string(name, value),
            None => self.null(name),
        }
    }

    /// Writes what was added to `part`, which is empty then.
    pub fn text(&mut self, name: &str) {
        self.key(name);
        note(&mut self.failed, self.out.string(self.part.as_str()));
        self.part.clear();
    }

    /// Writes a number in hexadecimal, in at least so many digits, as a text.
    pub fn hex(&mut self, name: &str, value: u64, digits: usize) {
        self.part.add_hex(value, digits);
        self.text(name);
    }

    /// Writes the first and the last address of the pages from one up to another.
    pub fn range(&mut self, first: u64, end: u64) {
        self.part.add_first(first);
        self.text("first");
        self.part.add_last(end);
        self.text("last");
    }

    /// Writes the addresses of so many pages from one on, their number and their bytes.
    pub fn run(&mut self, first: u64, count: u64) {
        self.range(first, first.saturating_add(count));
        self.pages(Some(count));
    }

    /// Writes a number of pages and their bytes.
    pub fn pages(&mut self, count: Option<u64>) {
        self.optional_number("pages", count);
        self.bytes("bytes", count);
    }

    /// Writes the bytes of so many pages.
    pub fn bytes(&mut self, name: &str, pages: Option<u64>) {
        match pages {
            Some(pages) => self.number(name, pages.saturating_mul(PAGE_BYTES)),
            None => self.null(name),
        }
    }

    /// Writes the list of the numbers of processors.
    pub fn cpus(&mut self, cpus: &[u32]) {
        self.begin_list("cpus");
        for cpu in cpus {
            note(&mut self.failed, self.out.u64(*cpu as u64));
        }
        self.end_list();
    }

    /// Writes the list of the numbers of registers.
    pub fn numbers(&mut self, registers: &[u32]) {
        self.begin_list("registers");
        for msr in registers {
            self.part.add_hex(*msr as u64, 3);
            note(&mut self.failed, self.out.string(self.part.as_str()));
            self.part.clear();
        }
        self.end_list();
    }

    /// Writes the numbers of so many bits from one on.
    pub fn bits(&mut self, low: u8, count: u8) {
        self.part.add_bits(low, count);
        self.text("bits");
    }

    pub fn optional_number(&mut self, name: &str, value: Option<u64>) {
        match value {
            Some(value) => self.number(name, value),
            None => self.null(name),
        }
    }

    /// The bytes of the line. Fails if an allocation failed.
    pub fn finish(self) -> Result<Vec<u8>, AllocError> {
        self.part.finish()?;
        let mut line = self.out.into_inner();
        if self.failed || line.push(b'\n').is_err() {
            return Err(AllocError);
        }
        Ok(line)
    }
}
