use crate::escapes::{End, append_unescaped};
use crate::row::{Fault, Row};
use std::alloc::Global;
use std::mem;

// Where in a row a line stands.
#[derive(Clone, Copy, PartialEq, Eq)]
enum Stage {
    Between,
    Named,
    Input,
    Output,
}

/// Reads rows line by line.
#[derive(Drop)]
pub struct Reader {
    alloc: Global,
    stage: Stage,
    row: Row,
}

impl Reader {
    pub fn new(alloc: Global) -> Reader {
        Reader {
            alloc,
            stage: Stage::Between,
            row: Row::new(alloc, String::new(alloc)),
        }
    }

    /// Whether the lines so far are whole rows.
    pub fn is_between(&self) -> bool {
        self.stage == Stage::Between
    }

    /// Takes a line without its line feed. Returns the row that it ends. After an `Err` the reader
    /// says nothing.
    pub fn add(&mut self, line: &str) -> Result<Option<Row>, Fault> {
        if !line.bytes().all(is_printed) || line.ends_with(' ') {
            return Err(Fault::BadByte);
        }
        if self.stage == Stage::Between && (line.is_empty() || line.starts_with('#')) {
            return Ok(None);
        }
        let (kind, text) = line.split_once(' ').unwrap_or((line, ""));
        match (self.stage, kind) {
            (Stage::Between, "-") if !text.is_empty() => {
                self.row = Row::new(self.alloc, String::from_str(self.alloc, text)?);
                self.stage = Stage::Named;
            }
            (Stage::Named, "$") => {
                self.row.words = words_of(self.alloc, text)?;
                self.stage = Stage::Input;
            }
            (Stage::Input, "<") => append_line(&mut self.row.input, text)?,
            (Stage::Input | Stage::Output, ">") => {
                append_line(&mut self.row.output, text)?;
                self.stage = Stage::Output;
            }
            (Stage::Input | Stage::Output, "=") => {
                self.row.status = text.parse().map_err(|_| Fault::BadStatus)?;
                self.stage = Stage::Between;
                let next = Row::new(self.alloc, String::new(self.alloc));
                return Ok(Some(mem::replace(&mut self.row, next)));
            }
            _ => return Err(Fault::BadKind),
        }
        Ok(None)
    }
}

fn is_printed(byte: u8) -> bool {
    matches!(byte, b' '..=b'~')
}

// Adds a line of an input or of an output.
fn append_line(bytes: &mut Vec<u8>, text: &str) -> Result<(), Fault> {
    if append_unescaped(bytes, text.as_bytes())? == End::Closed {
        bytes.push(b'\n')?;
    }
    Ok(())
}

// The words between single blanks.
fn words_of(alloc: Global, text: &str) -> Result<Vec<String>, Fault> {
    let mut words = Vec::new(alloc);
    if text.is_empty() {
        return Ok(words);
    }
    for word in text.split(' ') {
        words.push(word_of(alloc, word)?)?;
    }
    Ok(words)
}

// A word, of which `""` is the empty one.
fn word_of(alloc: Global, text: &str) -> Result<String, Fault> {
    if text.is_empty() {
        return Err(Fault::BadWord);
    }
    let mut bytes = Vec::new(alloc);
    if text != "\"\"" && append_unescaped(&mut bytes, text.as_bytes())? == End::Open {
        return Err(Fault::BadWord);
    }
    String::from_utf8(bytes).map_err(|_| Fault::BadWord)
}
