ghost use Rattle.std.specs.Prelude.{map, string_bytes};
ghost use Rattle.mt_web.specs.Drawing.{DrawsFor};
ghost use Rattle.mt_web.specs.Words.{words_in};

use crate::ports::{ByteSource, TextSink};
use crate::told::{PageText, ended, no_memory};
use crate::words::words_in;
use mt_map::{asked_by, labels_of, map};
use std::alloc::Global;

// The picture of a dump, or what else these words ask for.
fn drawn_by(alloc: Global, words: &[String], input: &[u8]) -> PageText
    ensures { DrawsFor (map string_bytes words.now) input.now result.text.items result.number }
{
    let mut source = ByteSource::new(input);
    let mut sink = TextSink::new(alloc);
    let status = map(
        alloc,
        asked_by(words),
        labels_of(words),
        &mut source,
        &mut sink,
    );
    ended(alloc, status, sink)
}

/// The picture of a dump, or what else the words in a text ask for.
pub(crate) fn drawn(alloc: Global, words: &[u8], input: &[u8]) -> PageText
    ensures { DrawsFor (words_in words.now) input.now result.text.items result.number }
{
    match words_in(alloc, words) {
        Ok(words) => drawn_by(alloc, words.as_slice(), input),
        Err(_) => no_memory(alloc),
    }
}
