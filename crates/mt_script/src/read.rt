ghost use Rattle.std.specs.Prelude.{◌≡◌, nat_eq, codes, ◌≤◌, ◌<◌, length, Ok, Err, None, Some, MatchResult, if◌then◌else◌};
ghost use Rattle.std.specs.Set.{is_member};
ghost use Rattle.std.specs.Result.{IfOk};
ghost use Rattle.mt_script.specs.Accept.{Fits};
ghost use Rattle.mt_text.specs.Text.{is_too_long, past_limit, words_of};
ghost use Rattle.mt_script.specs.Commands.{ask_in, command_of, outside, in_section, row_line, ends_dump, verb_answer, register_line, is_end, end_fault};
ghost use Rattle.mt_script.specs.Numbers.{fault_at};
ghost use Rattle.mt_script.specs.Words.{text_of};
ghost use Rattle.mt_dump.specs.Line.{is_word};
ghost use Rattle.mt_script.specs.declared.fault.ScriptReason.TheVariants.{BadLine};

use crate::number::{
    MOST_CPUS, any, base_at, count_at, fault, physical_at, processor_at, register_at, value_at,
    virtual_at, writable,
};
use crate::room::has_room;
use crate::row::{AskVerb, Row, Verb};
use crate::row_table::{
    ask_row, is_load, is_step, is_store, is_word, other_row, stands, takes_commands,
};
use crate::shape::shape_fault;
use crate::{Ask, Command, Mapped, ScriptFault, ScriptReason, Section, Setup, Stage};
use mt_kinds::{MOST_LINES, PAGE_BYTES, WORD_BYTES};
use mt_text::{Line, Place, Words, hex64, without_ending};

const LAST_INDEX: u64 = 7;

fn read_ram(words: &Words<'_>, setup: &Setup) -> Result<Command, ScriptFault>
    ensures { result ≡ verb_answer setup.now words.now.number words.now.words Verb.Ram }
{
    let base = base_at(words, 1)?;
    let lines = count_at(words, 2, 1, MOST_LINES)? as u32;
    if has_room(setup, base, lines) {
        Ok(Command::Ram(base, lines))
    } else {
        Err(fault(ScriptReason::OutOfRange, words.place(2)))
    }
}

fn read_map(words: &Words<'_>, setup: &Setup) -> Result<Ask, ScriptFault>
    ensures { result ≡ ask_in setup.now words.now.number words.now.words AskVerb.Map }
{
    let address = virtual_at(words, 2, PAGE_BYTES)?;
    let physical = physical_at(words, 3, PAGE_BYTES, setup)?;
    let index = count_at(words, 4, 0, LAST_INDEX)? as u8;
    let global = is_word(words.text(5), b"global");
    Ok(Ask::Map(Mapped {
        address,
        physical,
        index,
        global,
    }))
}

fn is_on(words: &Words<'_>) -> bool
    ensures { result ≡ is_word (codes "on") (text_of words.now.words 2) }
{
    is_word(words.text(2), b"on")
}

// What is asked of a processor, by the words behind its number.
#[inline(always)] // so that the verb may be a constant
fn read_ask(words: &Words<'_>, setup: &Setup, verb: AskVerb) -> Result<Ask, ScriptFault>
    ensures { result ≡ ask_in setup.now words.now.number words.now.words verb }
{
    match verb {
        AskVerb::Load => Ok(Ask::Load(virtual_at(words, 2, WORD_BYTES)?)),
        AskVerb::Store => {
            let address = virtual_at(words, 2, WORD_BYTES)?;
            Ok(Ask::Store(address, value_at(words, 3)?))
        }
        AskVerb::Fence => Ok(Ask::Fence),
        AskVerb::Map => read_map(words, setup),
        AskVerb::Invlpg => Ok(Ask::Invlpg(virtual_at(words, 2, 1)?)),
        AskVerb::Cr3 => Ok(Ask::Cr3),
        AskVerb::Pge => Ok(Ask::Pge(is_on(words))),
        AskVerb::Cd => Ok(Ask::Cd(is_on(words))),
        AskVerb::Step => Ok(Ask::Step),
        AskVerb::Msr => Ok(Ask::Msr(register_at(words, 2, setup)?)),
    }
}

// The processor, and what is asked of it.
#[inline(always)] // so that the verb may be a constant
fn read_asked(words: &Words<'_>, setup: &Setup, verb: AskVerb) -> Result<Command, ScriptFault>
    ensures { result ≡ verb_answer setup.now words.now.number words.now.words (Verb.Ask verb) }
{
    let k = processor_at(words, 1, setup)?;
    let ask = read_ask(words, setup, verb)?;
    Ok(Command::Ask(k, ask))
}

// The numbers of a line with this verb, and the command that it asks for.
#[inline(always)] // so that the verb may be a constant
fn read_verb(words: &Words<'_>, setup: &Setup, verb: Verb) -> Result<Command, ScriptFault>
    ensures { result ≡ verb_answer setup.now words.now.number words.now.words verb }
{
    match verb {
        Verb::Cpus => Ok(Command::Cpus(count_at(words, 1, 1, MOST_CPUS as u64)? as u32)),
        Verb::Dump => Ok(Command::Dump),
        Verb::Ram => read_ram(words, setup),
        Verb::Selfsnoop => Ok(Command::Selfsnoop(processor_at(words, 1, setup)?)),
        Verb::Update => Ok(Command::Section(Section::Update)),
        Verb::Begin => Ok(Command::Section(Section::Begin)),
        Verb::Ask(asked) => read_asked(words, setup, asked),
        Verb::Newcomer(newcomer) => Ok(Command::Newcomer(newcomer)),
        Verb::Retire => Ok(Command::Retire),
        Verb::Go => Ok(Command::Go),
        Verb::Cancel => Ok(Command::Cancel),
        Verb::Report => Ok(Command::Report),
        Verb::Word => Ok(Command::Word(physical_at(words, 1, WORD_BYTES, setup)?)),
    }
}

// What a line of this row asks for.
#[inline(always)] // so that the row may be a constant
fn read_row(words: &Words<'_>, setup: &Setup, row: Row) -> Result<Command, ScriptFault>
    requires { 1 ≤ length words.now.words }
    ensures { result ≡ row_line setup.now words.now.number words.now.words (Some row) }
{
    if let Some(fault) = shape_fault(words, row) {
        return Err(fault);
    }
    if !stands(row.turn, setup.stage()) {
        return Err(fault(ScriptReason::NotNow, words.place(0)));
    }
    read_verb(words, setup, row.verb)
}

// The same of a row that most lines don't have.
#[inline(never)]
fn read_other(words: &Words<'_>, setup: &Setup, row: Row) -> Result<Command, ScriptFault>
    requires { 1 ≤ length words.now.words }
    ensures { result ≡ row_line setup.now words.now.number words.now.words (Some row) }
{
    read_row(words, setup, row)
}

// The rows that most lines have are tried first.
fn read_outside(words: &Words<'_>, setup: &Setup) -> Result<Command, ScriptFault>
    ensures { result ≡ outside setup.now words.now.number words.now.words }
{
    if words.count() == 0 {
        return Ok(Command::Blank);
    }
    let word = words.text(0);
    if is_load(word) {
        return read_row(words, setup, ask_row(AskVerb::Load, 3));
    }
    if is_store(word) {
        return read_row(words, setup, ask_row(AskVerb::Store, 4));
    }
    if is_step(word) {
        return read_row(words, setup, ask_row(AskVerb::Step, 2));
    }
    match other_row(word) {
        Some(row) => read_other(words, setup, row),
        None => Err(fault(ScriptReason::BadLine, words.place(0))),
    }
}

fn was_seen(seen: &[u32], msr: u32) -> bool
    ensures { result ≡ is_member nat_eq seen.now msr }
{
    seen.iter().any(|seen| msr == *seen)
}

fn read_register(words: &Words<'_>, setup: &Setup) -> Result<Command, ScriptFault>
    ensures { result ≡ register_line setup.now words.now.number words.now.words }
{
    let first = words.place(0);
    let number = any(first, hex64(without_ending(words.text(0), b':')))?;
    let value = value_at(words, 1)?;
    let Some(msr) = writable(setup, number) else {
        return Err(fault(ScriptReason::UnknownRegister, first));
    };
    if was_seen(setup.seen(), msr) {
        return Err(fault(ScriptReason::Repeated, first));
    }
    Ok(Command::Section(Section::Register { msr, value }))
}

fn is_end(words: &Words<'_>) -> bool
    ensures { result ≡ is_end words.now.words }
{
    words.count() == 1 && is_word(words.text(0), b"end")
}

fn read_in_section(words: &Words<'_>, setup: &Setup) -> Result<Command, ScriptFault>
    ensures { result ≡ in_section setup.now words.now.number words.now.words }
{
    if is_end(words) {
        return Ok(Command::Section(Section::End));
    }
    match words.count() {
        0 => Ok(Command::Blank),
        1 => Err(fault(ScriptReason::BadLine, words.place(0))),
        2 => read_register(words, setup),
        _ => Err(fault(ScriptReason::BadLine, words.place(2))),
    }
}

/// Whether a line ends the dump.
#[tactic(auto, using(crate::proofs::FirstWords::is_end_first))]
pub(crate) fn ends_dump(line: &Line<'_>) -> bool
    ensures { result ≡ ends_dump line.now.bytes.now }
{
    !line.too_long() && is_end(&line.first_words())
}

fn read_in_dump(line: &Line<'_>) -> Command
    ensures { result ≡ (if ends_dump line.now.bytes.now then Command.Section Section.End else Command.DumpLine) }
{
    if ends_dump(line) {
        Command::Section(Section::End)
    } else {
        Command::DumpLine
    }
}

fn length_fault(line: &Line<'_>) -> Option<ScriptFault>
    ensures { result ≡ (if is_too_long line.now.bytes.now then Some (fault_at BadLine (past_limit line.now.number)) else None) }
{
    if !line.too_long() {
        return None;
    }
    Some(fault(ScriptReason::BadLine, line.past_limit()))
}

/// What a line asks for, or its offence. Each command fits the setup.
pub fn read_command(line: &Line<'_>, st: &Setup) -> Result<Command, ScriptFault>
    ensures answer { result ≡ command_of st.now line.now.number line.now.bytes.now }
    ensures fits { IfOk result (λ command. Fits st.now command) }
{
    read_line(line, st)
}

#[tactic(auto, using(crate::proofs::FirstWords::section_first))]
fn read_section_line(line: &Line<'_>, st: &Setup) -> Result<Command, ScriptFault>
    ensures { result ≡ in_section st.now line.now.number (words_of line.now.bytes.now) }
{
    read_in_section(&line.first_words(), st)
}

fn read_outside_line(line: &Line<'_>, st: &Setup) -> Result<Command, ScriptFault>
    ensures { result ≡ outside st.now line.now.number (words_of line.now.bytes.now) }
{
    let mut words = Words::new();
    line.find_words(&mut words);
    read_outside(&words, st)
}

fn read_line(line: &Line<'_>, st: &Setup) -> Result<Command, ScriptFault>
    ensures { result ≡ command_of st.now line.now.number line.now.bytes.now }
{
    let stage = st.stage();
    if stage == Stage::InDump {
        return Ok(read_in_dump(line));
    }
    if let Some(fault) = length_fault(line) {
        return Err(fault);
    }
    match stage {
        Stage::InUpdate | Stage::InBegin => read_section_line(line, st),
        _ => read_outside_line(line, st),
    }
}

/// The offence of a text that ends too early.
pub fn read_end(st: &Setup, at: Place) -> Result<(), ScriptFault>
    ensures { MatchResult result (λ _. end_fault st.now.stage at ≡ None) (λ fault. end_fault st.now.stage at ≡ Some fault) }
{
    if takes_commands(st.stage()) {
        Ok(())
    } else {
        Err(fault(ScriptReason::NoEnd, at))
    }
}
