ghost use Rattle.std.specs.Prelude.{map, string_bytes};
ghost use Rattle.mt_web.specs.Importing.{ImportsFor};
ghost use Rattle.mt_web.specs.Words.{words_in};

use crate::ports::{ByteSource, TextSink};
use crate::told::{PageText, ended, no_memory};
use crate::words::words_in;
use mt_import::import;
use std::alloc::Global;

// What these words make of a log.
fn imported_by(alloc: Global, words: &[String], input: &[u8]) -> PageText
    ensures { ImportsFor (map string_bytes words.now) input.now result.text.items result.number }
{
    let mut source = ByteSource::new(input);
    let mut sink = TextSink::new(alloc);
    let status = import(words, &mut source, &mut sink);
    ended(alloc, status, sink)
}

/// What the words in a text make of a log.
pub(crate) fn imported(alloc: Global, words: &[u8], input: &[u8]) -> PageText
    ensures { ImportsFor (words_in words.now) input.now result.text.items result.number }
{
    match words_in(alloc, words) {
        Ok(words) => imported_by(alloc, words.as_slice(), input),
        Err(_) => no_memory(alloc),
    }
}
