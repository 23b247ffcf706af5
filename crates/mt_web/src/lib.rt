//! The programs' answers over buffers, as the host of a WebAssembly module calls them.
#![tactic(auto)]

mod answering;
mod drawing;
mod explaining;
mod importing;
mod judging;
mod ports;
mod told;
mod words;

ghost use Rattle.std.specs.Prelude.{◌≡◌};
ghost use Rattle.mt_web.specs.Drawing.{DrawsFor};
ghost use Rattle.mt_web.specs.Importing.{ImportsFor};
ghost use Rattle.mt_web.specs.Placed.{IsAnyText, Placed};
ghost use Rattle.mt_web.specs.Answering.{AnswersFor};
ghost use Rattle.mt_web.specs.Words.{words_in};

use answering::answered;
use drawing::drawn;
use explaining::explained;
use importing::imported;
use judging::judged;
use std::alloc::Global;
use told::place;

/// Writes what `mtrr` writes for these words and this input to the front of `output`, and its length to `written`.
/// In `words` a zero byte ends each word of the command line.
///
/// Returns the exit status of the program. Except:
/// - 64 if the text has more bytes than `output`, which stays as it was. `written` is the room that the text needs.
/// - 65 if the command runs on threads. Then the text is empty.
///
/// At status 6, for memory, and at 7, for an input of more than 16,777,216 bytes, the text is empty too.
#[unsafe(no_mangle)]
pub extern "C" fn mtrr_run(
    alloc: Global,
    words: &[u8],
    input: &[u8],
    output: &mut [u8],
    written: &mut usize,
) -> u32
    ensures { Placed (AnswersFor (words_in words.now) input.now) output.old output.new written.new result }
{
    place(&answered(alloc, words, input), output, written)
}

/// Does for `mtrr-import` what `mtrr_run` does for `mtrr`.
#[unsafe(no_mangle)]
pub extern "C" fn mtrr_import(
    alloc: Global,
    words: &[u8],
    input: &[u8],
    output: &mut [u8],
    written: &mut usize,
) -> u32
    ensures { Placed (ImportsFor (words_in words.now) input.now) output.old output.new written.new result }
{
    place(&imported(alloc, words, input), output, written)
}

/// Does for `mtrr-map` what `mtrr_run` does for `mtrr`.
#[unsafe(no_mangle)]
pub extern "C" fn mtrr_map(
    alloc: Global,
    words: &[u8],
    input: &[u8],
    output: &mut [u8],
    written: &mut usize,
) -> u32
    ensures { Placed (DrawsFor (words_in words.now) input.now) output.old output.new written.new result }
{
    place(&drawn(alloc, words, input), output, written)
}

/// Does for `mtrr-explain` what `mtrr_run` does for `mtrr`, with the report as JSON. Its words are `faults FILE`, `page
/// ADDR FILE`, `fit [--spare N] FILE`, `diff OLD NEW` or `diff --cpus I J FILE`. The names stand for the inputs, in
/// their order. Without a second name `second` isn't read.
#[unsafe(no_mangle)]
pub extern "C" fn mtrr_explain(
    alloc: Global,
    words: &[u8],
    first: &[u8],
    second: &[u8],
    output: &mut [u8],
    written: &mut usize,
) -> u32
    ensures { Placed IsAnyText output.old output.new written.new result }
{
    place(&explained(alloc, words, first, second), output, written)
}

/// Does for `mtrr-judge` what `mtrr_run` does for `mtrr`. It tells nothing in the course of a search.
#[unsafe(no_mangle)]
pub extern "C" fn mtrr_judge(
    alloc: Global,
    words: &[u8],
    input: &[u8],
    output: &mut [u8],
    written: &mut usize,
) -> u32
    ensures { Placed IsAnyText output.old output.new written.new result }
{
    place(&judged(alloc, words, input), output, written)
}
