use anyhow::{Result, bail};
use mt_dump::GivenDump;
use mt_memory::Ranges;
use mt_reports::{given_by, pages_by};
use mt_text::LONGEST_INPUT;
use std::alloc::Global;
use std::env::{Env, FillError};
use std::fs::{File, Files};
use std::io::{Input, Read};

// Linux takes no longer argument.
const LONGEST_WORD: usize = 0x2_0000;

/// The words of a command line. In one that isn't UTF-8, U+FFFD stands for what isn't.
#[derive(Drop)]
pub struct Words {
    pub words: Vec<String>,
    /// Those that aren't UTF-8.
    pub garbled: Vec<String>,
}

/// The program's name and its arguments.
pub fn words_of<R: Env + AllocGlobal>(rt: &R) -> Result<Words> {
    let alloc = rt.alloc();
    let mut words = Vec::new(alloc);
    let mut garbled = Vec::new(alloc);
    let mut bytes = Vec::new(alloc);
    bytes.resize(LONGEST_WORD, 0u8)?;
    for i in 0..usize::MAX {
        match rt.arg(i, bytes.as_mut_slice()) {
            Ok(count) => {
                let word = &bytes[..count];
                if str::from_utf8(word).is_err() {
                    garbled.push(String::from_utf8_lossy(alloc, word)?)?;
                }
                words.push(String::from_utf8_lossy(alloc, word)?)?;
            }
            Err(FillError::NotPresent) => break,
            Err(FillError::TooLong) => bail!("an argument is too long"),
        }
    }
    Ok(Words { words, garbled })
}

// The bytes of a text. Of one that is too long, the first bytes that are too many.
fn bytes_of<S: Read + Drop>(alloc: Global, source: S) -> Result<Vec<u8>> {
    let mut bytes = Vec::new(alloc);
    source
        .take(LONGEST_INPUT as u64 + 1)
        .read_to_end(&mut bytes)?;
    Ok(bytes)
}

// The bytes of a file, or of standard input for `-`. A garbled word isn't the name of its file.
fn bytes_at<R: Files + Input + AllocGlobal>(
    rt: &R,
    file: &str,
    garbled: &[String],
) -> Result<Vec<u8>> {
    if garbled.iter().any(|word| word.as_str() == file) {
        bail!("its name isn't UTF-8");
    }
    if file == "-" {
        bytes_of(rt.alloc(), rt.reader())
    } else {
        bytes_of(rt.alloc(), File::open(rt, file)?)
    }
}

/// Reads a dump.
pub fn read<R: Files + Input + AllocGlobal>(
    rt: &R,
    file: &str,
    garbled: &[String],
) -> Result<GivenDump> {
    let bytes = bytes_at(rt, file, garbled)?;
    Ok(given_by(bytes.as_slice())?)
}

/// Reads a memory map.
pub fn read_map<R: Files + Input + AllocGlobal>(
    rt: &R,
    file: &str,
    garbled: &[String],
) -> Result<Ranges> {
    let bytes = bytes_at(rt, file, garbled)?;
    Ok(pages_by(rt.alloc(), bytes)?)
}
