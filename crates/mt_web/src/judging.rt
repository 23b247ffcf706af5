use crate::ports::{ByteSource, TextSink};
use crate::told::{PageText, ended, no_memory};
use crate::words::words_in;
use mt_judge::{Quiet, run_judge};
use std::alloc::Global;

/// What the words in a text make of a case.
pub(crate) fn judged(alloc: Global, words: &[u8], input: &[u8]) -> PageText {
    let Ok(words) = words_in(alloc, words) else {
        return no_memory(alloc);
    };
    let mut source = ByteSource::new(input);
    let mut sink = TextSink::new(alloc);
    let status = run_judge(&Quiet { alloc }, words.as_slice(), &mut source, &mut sink);
    ended(alloc, status, sink)
}
