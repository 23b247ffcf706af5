use crate::case::Trouble;
use crate::words::bad;
use mt_kinds::{LINE_BYTES, PAGE_BYTES};
use mt_procedure::Turn;
use mt_script::{ScriptReason, any, limited};
use mt_text::{Word, decimal, hex64};

/// Virtual addresses are below.
const VIRTUAL_LIMIT: u64 = 1 << 48;

// The parts of a text before and behind its first colon.
fn parted(text: &[u8]) -> (&[u8], &[u8]) {
    for i in 0..text.len() {
        if text[i] == b':' {
            let (front, _) = text.split_at(i);
            let (_, back) = text.split_at(i + 1);
            return (front, back);
        }
    }
    (text, &[])
}

fn cpu_of(word: &Word<'_>, text: &[u8], cpus: u64) -> Result<usize, Trouble> {
    Ok(limited(word.place, decimal(text, cpus.saturating_sub(1)))? as usize)
}

fn address_of(word: &Word<'_>, text: &[u8]) -> Result<u64, Trouble> {
    let address = any(word.place, hex64(text))?;
    if address < VIRTUAL_LIMIT {
        Ok(address)
    } else {
        bad(word.place, ScriptReason::OutOfRange)
    }
}

fn translation(word: &Word<'_>, rest: &[u8], cpus: u64) -> Result<Turn, Trouble> {
    let (cpu, address) = parted(rest);
    let cpu = cpu_of(word, cpu, cpus)?;
    let address = address_of(word, address)?;
    if address % PAGE_BYTES == 0 {
        Ok(Turn::Translate(cpu, address / PAGE_BYTES))
    } else {
        bad(word.place, ScriptReason::OutOfRange)
    }
}

fn fetch(word: &Word<'_>, rest: &[u8], cpus: u64) -> Result<Turn, Trouble> {
    let (cpu, address) = parted(rest);
    let cpu = cpu_of(word, cpu, cpus)?;
    let address = address_of(word, address)?;
    if address % LINE_BYTES == 0 {
        Ok(Turn::Fetch(cpu, address / LINE_BYTES))
    } else {
        bad(word.place, ScriptReason::OutOfRange)
    }
}

/// The turn that a word names: `K` for a step of processor K, of so many, and if the case speculates `translate:K:VA` or `fetch:K:VA`.
pub(crate) fn turn_of(word: &Word<'_>, cpus: u64, speculates: bool) -> Result<Turn, Trouble> {
    let turn = if let Some(rest) = word.text.strip_prefix(b"translate:") {
        translation(word, rest, cpus)?
    } else if let Some(rest) = word.text.strip_prefix(b"fetch:") {
        fetch(word, rest, cpus)?
    } else {
        return Ok(Turn::Step(cpu_of(word, word.text, cpus)?));
    };
    if speculates {
        Ok(turn)
    } else {
        bad(word.place, ScriptReason::BadLine)
    }
}
