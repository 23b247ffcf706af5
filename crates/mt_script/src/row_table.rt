ghost use Rattle.std.specs.Prelude.{◌≡◌, codes, false};
ghost use Rattle.mt_dump.specs.Line.{is_word};
ghost use Rattle.mt_script.specs.Rows.{row_of, plain};
ghost use Rattle.mt_script.specs.Stages.{is_in_dump, stands, takes_commands};

use crate::row::{AskVerb, Last, Row, Turn, Verb};
use crate::{Newcomer, Stage};

/// Whether a word has these bytes.
pub fn is_word(word: &[u8], name: &[u8]) -> bool
    ensures { result ≡ is_word name.now word.now }
{
    word == name
}

/// Whether a word is `load`.
pub fn is_load(word: &[u8]) -> bool
    ensures { result ≡ is_word (codes "load") word.now }
{
    matches!(word, b"load")
}

/// Whether a word is `store`.
pub fn is_store(word: &[u8]) -> bool
    ensures { result ≡ is_word (codes "store") word.now }
{
    matches!(word, b"store")
}

/// Whether a word is `step`.
pub fn is_step(word: &[u8]) -> bool
    ensures { result ≡ is_word (codes "step") word.now }
{
    matches!(word, b"step")
}

// The row of lines of so many words.
fn plain(verb: Verb, count: usize, turn: Turn) -> Row
    ensures { result ≡ plain verb count turn }
{
    Row {
        verb,
        least: count,
        most: count,
        last: Last::Any,
        turn,
    }
}

/// The row of lines of so many words that ask something of a processor.
pub fn ask_row(verb: AskVerb, count: usize) -> Row
    ensures { result ≡ plain (Verb.Ask verb) count Turn.Commands }
{
    plain(Verb::Ask(verb), count, Turn::Commands)
}

/// The row whose first word this is, which is neither `load` nor `store` nor `step`.
#[inline(never)]
pub fn other_row(word: &[u8]) -> Option<Row>
    requires load { is_word (codes "load") word.now ≡ false }
    requires store { is_word (codes "store") word.now ≡ false }
    requires step { is_word (codes "step") word.now ≡ false }
    ensures { result ≡ row_of word.now }
{
    if is_word(word, b"cpus") {
        Some(plain(Verb::Cpus, 2, Turn::Cpus))
    } else if is_word(word, b"dump") {
        Some(plain(Verb::Dump, 1, Turn::Dump))
    } else if is_word(word, b"ram") {
        Some(plain(Verb::Ram, 3, Turn::Windows))
    } else if is_word(word, b"selfsnoop") {
        Some(plain(Verb::Selfsnoop, 2, Turn::Windows))
    } else if is_word(word, b"fence") {
        Some(ask_row(AskVerb::Fence, 2))
    } else if is_word(word, b"map") {
        Some(Row {
            least: 5,
            last: Last::Global,
            ..ask_row(AskVerb::Map, 6)
        })
    } else if is_word(word, b"invlpg") {
        Some(ask_row(AskVerb::Invlpg, 3))
    } else if is_word(word, b"cr3") {
        Some(ask_row(AskVerb::Cr3, 2))
    } else if is_word(word, b"pge") {
        Some(Row {
            last: Last::Switch,
            ..ask_row(AskVerb::Pge, 3)
        })
    } else if is_word(word, b"cd") {
        Some(Row {
            last: Last::Switch,
            ..ask_row(AskVerb::Cd, 3)
        })
    } else if is_word(word, b"update") {
        Some(plain(Verb::Update, 1, Turn::Commands))
    } else if is_word(word, b"begin") {
        Some(plain(Verb::Begin, 1, Turn::Commands))
    } else if is_word(word, b"go") {
        Some(plain(Verb::Go, 1, Turn::Commands))
    } else if is_word(word, b"cancel") {
        Some(plain(Verb::Cancel, 1, Turn::Commands))
    } else if is_word(word, b"report") {
        Some(plain(Verb::Report, 1, Turn::Commands))
    } else if is_word(word, b"up") {
        Some(plain(Verb::Newcomer(Newcomer::Up), 1, Turn::Commands))
    } else if is_word(word, b"join") {
        Some(plain(Verb::Newcomer(Newcomer::Join), 1, Turn::Commands))
    } else if is_word(word, b"retire") {
        Some(plain(Verb::Retire, 1, Turn::Commands))
    } else if is_word(word, b"word") {
        Some(plain(Verb::Word, 2, Turn::Commands))
    } else if is_word(word, b"msr") {
        Some(ask_row(AskVerb::Msr, 3))
    } else {
        None
    }
}

/// Whether the lines of the dump are read.
pub fn is_in_dump(stage: Stage) -> bool
    ensures { result ≡ is_in_dump stage }
{
    matches!(stage, Stage::InDump)
}

/// Whether commands may be given, and the text may end.
pub fn takes_commands(stage: Stage) -> bool
    ensures { result ≡ takes_commands stage }
{
    matches!(stage, Stage::Rams | Stage::Commands)
}

/// Whether lines of this turn may stand in this stage.
pub fn stands(turn: Turn, stage: Stage) -> bool
    ensures { result ≡ stands turn stage }
{
    match turn {
        Turn::Cpus => matches!(stage, Stage::NeedCpus),
        Turn::Dump => matches!(stage, Stage::NeedDump),
        Turn::Windows => matches!(stage, Stage::Rams),
        Turn::Commands => takes_commands(stage),
    }
}
