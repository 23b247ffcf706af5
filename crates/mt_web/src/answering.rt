ghost use Rattle.std.specs.Prelude.{map, string_bytes};
ghost use Rattle.mt_web.specs.Answering.{AnswersFor};
ghost use Rattle.mt_web.specs.Words.{words_in};

use crate::ports::{ByteSource, TextSink};
use crate::told::{PageText, ended, no_memory, threaded};
use crate::words::words_in;
use mt_answers::{Command, command_of, run_serial};
use mt_output::wrong_usage;
use std::alloc::Global;

// What these words come to.
fn answered_by(alloc: Global, words: &[String], input: &[u8]) -> PageText
    ensures { AnswersFor (map string_bytes words.now) input.now result.text.items result.number }
{
    let mut source = ByteSource::new(input);
    let mut sink = TextSink::new(alloc);
    let Some(command) = command_of(words) else {
        let status = wrong_usage(&mut sink);
        return ended(alloc, status, sink);
    };
    match command {
        Command::Serial(command) => {
            let status = run_serial(alloc, command, &mut source, &mut sink);
            ended(alloc, status, sink)
        }
        Command::Threaded(_) => threaded(alloc),
    }
}

/// What the words in a text come to.
pub(crate) fn answered(alloc: Global, words: &[u8], input: &[u8]) -> PageText
    ensures { AnswersFor (words_in words.now) input.now result.text.items result.number }
{
    match words_in(alloc, words) {
        Ok(words) => answered_by(alloc, words.as_slice(), input),
        Err(_) => no_memory(alloc),
    }
}
