ghost use Rattle.std.specs.Prelude.{◌≤◌, IfOk, IsErr};

use crate::case::{Reason, Trouble};
use mt_script::{ScriptReason, count_at};
use mt_text::{Line, Place, Words};

pub(crate) fn bad<T>(place: Place, reason: ScriptReason) -> Result<T, Trouble>
    ensures { IsErr result }
{
    Err(Trouble::Bad {
        place,
        reason: Reason::Line(reason),
    })
}

/// Whether a word is this text.
pub(crate) fn is(word: &[u8], text: &str) -> bool {
    word == text.as_bytes()
}

/// Whether a line has so many words. Fails at the last word if there are fewer, at the first one too many if there are more.
pub(crate) fn shape(words: &Words<'_>, count: usize) -> Result<(), Trouble> {
    if words.count() < count {
        bad(
            words.place(words.count().saturating_sub(1)),
            ScriptReason::BadLine,
        )
    } else if words.count() > count {
        bad(words.place(count), ScriptReason::BadLine)
    } else {
        Ok(())
    }
}

/// The decimal number of a line's word, which is in a range.
#[tactic(auto, using(mt_script::proofs::Fitting::count_fact))]
pub(crate) fn count(words: &Words<'_>, i: usize, first: u64, last: u64) -> Result<u64, Trouble>
    ensures { IfOk result (λ n. (first ≤ n) × (n ≤ last)) }
{
    match count_at(words, i, first, last) {
        Ok(n) => Ok(n),
        Err(fault) => Err(Trouble::from(fault)),
    }
}

/// Whether a word is `on`. Fails if it is neither `on` nor `off`.
pub(crate) fn switch(words: &Words<'_>, i: usize) -> Result<bool, Trouble> {
    if is(words.text(i), "on") {
        Ok(true)
    } else if is(words.text(i), "off") {
        Ok(false)
    } else {
        bad(words.place(i), ScriptReason::BadLine)
    }
}

/// Whether the only word of a line is `end`.
pub(crate) fn is_end(line: &Line<'_>) -> bool {
    let words = line.first_words();
    words.count() == 1 && is(words.text(0), "end")
}
