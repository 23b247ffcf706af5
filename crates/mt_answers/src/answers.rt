ghost use Rattle.std.specs.Prelude.{◌≡◌, ◌≢◌, ◌<◌, ◌≤◌, ◌^◌, ◌↔◌, ℕ, List, IfErr, IfOk, MatchResult, None, OnErr, Some};
ghost use Rattle.mt_ports.specs.Causes.{StatusHasCause};
ghost use Rattle.mt_regs.specs.Faults.{IsAccepted};
ghost use Rattle.mt_regs.specs.Agreement.{first_refusal};
ghost use Rattle.mt_dump.specs.Dumps.{first_file};
ghost use Rattle.mt_text.specs.Feed.{GaveTooMuch};
ghost use Rattle.mt_answers.specs.declared.command.DumpCommand.TheVariants.{Check, Show, Types, Page, Tidy, Gran};
ghost use Rattle.mt_answers.specs.CommandLine.{IsSound, MayTakeMemory};
ghost use Rattle.mt_answers.specs.Answer.{Answer, FileAnswer, MayChoose};
ghost use Rattle.mt_answers.specs.Generator.{make_text};
ghost use Rattle.mt_answers.specs.declared.command.Command.TheVariants.{Serial};
ghost use Rattle.mt_answers.specs.declared.command.SerialCommand.TheVariants.{Dump as OfDump};
ghost use Rattle.mt_output.specs.Ports.{held, port};
ghost use Rattle.mt_answers.specs.Written.{Answers, AnswersInput, Makes};
ghost use Rattle.mt_regs.specs.Registers.{HasThreeDigits};

use crate::DumpCommand;
use crate::generator::make_text;
use crate::lines::{check_text, disabled_line, page_text, too_few_line};
use crate::texts::{grained_text, tidied_text, types_text};
use mt_dump::{Dump, canonical_text, read_dump_from};
use mt_gran::gran_enabled;
use mt_output::{bad_text_line, dump_refused_line, written};
use mt_ports::{Sink, Source, Status};
use mt_regs::{Fault, RegFile, first_refusal};
use mt_text::FeedFault;
use mt_tidy::{TooFew, WorkArea, tidy_enabled};
use mt_types::page_runs;
use std::alloc::Global;

// Returns processor 0's file. Fails with the first refusal if a file isn't accepted.
fn accepted(d: &Dump) -> Result<&RegFile, (u32, Fault)>
    ensures file { IfOk result (λ f. f.now ≡ first_file d.now) }
    ensures accepted { IfOk result (λ f. IsAccepted f.now) }
    ensures refusal { MatchResult result (λ _. first_refusal d.now.files ≡ None) (λ found. first_refusal d.now.files ≡ Some found) }
    ensures short { IfErr result (λ found. HasThreeDigits found.1.msr) }
{
    d.is_dump(); // a fact for the proof
    match first_refusal(d.files.as_slice()) {
        None => Ok(d.first_file()),
        Some(found) => Err(found),
    }
}

// Says that each file is accepted, and whether they are equal.
fn check<K: Sink>(d: &Dump, sink: &mut K) -> Status
    requires { first_refusal d.now.files ≡ None }
    ensures bytes { Answers (Answer d.now Check) (K.taken sink.old) (K.taken sink.new) result }
    ensures no_memory { result ≢ Status.NoMemory }
    ensures cause { StatusHasCause Status.WriteFault (K.faults sink.old) (K.faults sink.new) result }
{
    written(sink, check_text(d).as_slice(), Status::Done)
}

fn show<K: Sink>(d: &Dump, sink: &mut K) -> Status
    ensures bytes { Answers (Answer d.now Show) (K.taken sink.old) (K.taken sink.new) result }
    ensures no_memory { result ≢ Status.NoMemory }
    ensures cause { StatusHasCause Status.WriteFault (K.faults sink.old) (K.faults sink.new) result }
{
    written(sink, canonical_text(d).as_slice(), Status::Done)
}

fn types<K: Sink>(alloc: Global, f: &RegFile, sink: &mut K) -> Status
    requires { IsAccepted f.now }
    ensures bytes { Answers (FileAnswer f.now Types) (K.taken sink.old) (K.taken sink.new) result }
    ensures cause { StatusHasCause Status.WriteFault (K.faults sink.old) (K.faults sink.new) result }
{
    let Ok(runs) = page_runs(alloc, f) else {
        return Status::NoMemory;
    };
    match types_text(alloc, runs.all()) {
        Ok(text) => written(sink, text.as_slice(), Status::Done),
        Err(_) => Status::NoMemory,
    }
}

fn page<K: Sink>(f: &RegFile, address: u64, index: u8, sink: &mut K) -> Status
    requires address { address < 2 ^ 52 }
    requires index { index < 8 }
    ensures bytes { Answers (FileAnswer f.now (Page address index)) (K.taken sink.old) (K.taken sink.new) result }
    ensures no_memory { result ≢ Status.NoMemory }
    ensures cause { StatusHasCause Status.WriteFault (K.faults sink.old) (K.faults sink.new) result }
{
    written(sink, page_text(f, address, index).as_slice(), Status::Done)
}

// Writes a file of the same types with the fewest pairs, or why there is none.
fn tidied<K: Sink>(f: &RegFile, spare: u8, chunk: u64, sink: &mut K) -> Status
    requires { IsAccepted f.now }
    ensures bytes { Answers (FileAnswer f.now (Tidy spare chunk)) (K.taken sink.old) (K.taken sink.new) result }
    ensures no_memory { result ≢ Status.NoMemory }
    ensures cause { StatusHasCause Status.WriteFault (K.faults sink.old) (K.faults sink.new) result }
{
    if !f.is_enabled() {
        return written(sink, disabled_line(f.deftype).as_slice(), Status::Disabled);
    }
    let mut area = WorkArea::new();
    match tidy_enabled(f, spare, chunk, &mut area) {
        Ok(tidied) => {
            let text = tidied_text(tidied.used, &tidied.file);
            written(sink, text.as_slice(), Status::Done)
        }
        Err(TooFew { needs, has }) => {
            written(sink, too_few_line(needs, has).as_slice(), Status::TooFew)
        }
    }
}

// Writes a file of the rounded types with the fewest pairs and what is lost, or why there is none.
fn grained<K: Sink>(
    alloc: Global,
    f: &RegFile,
    log: u8,
    spare: u8,
    chunk: u64,
    sink: &mut K,
) -> Status
    requires accepted { IsAccepted f.now }
    requires log { log ≤ 28 }
    ensures bytes { Answers (FileAnswer f.now (Gran log spare chunk)) (K.taken sink.old) (K.taken sink.new) result }
    ensures cause { StatusHasCause Status.WriteFault (K.faults sink.old) (K.faults sink.new) result }
{
    if !f.is_enabled() {
        return written(sink, disabled_line(f.deftype).as_slice(), Status::Disabled);
    }
    f.is_register_file(); // a fact for the proof
    let mut area = WorkArea::new();
    match gran_enabled(f, log, spare, chunk, &mut area) {
        Ok(grained) => {
            let tidied = &grained.tidied;
            let parts = grained.parts.as_slice();
            match grained_text(alloc, parts, grained.lost, tidied.used, &tidied.file) {
                Ok(text) => written(sink, text.as_slice(), Status::Done),
                Err(_) => Status::NoMemory,
            }
        }
        Err(TooFew { needs, has }) => {
            written(sink, too_few_line(needs, has).as_slice(), Status::TooFew)
        }
    }
}

// Writes the answer of a command, and returns the status. Fails with the first refusal if the command isn't `show`
// and a file isn't accepted, and then writes nothing.
fn answer_or_refuse<K: Sink>(
    alloc: Global,
    command: DumpCommand,
    d: &Dump,
    sink: &mut K,
) -> Result<Status, (u32, Fault)>
    requires { IsSound command }
    ensures bytes { IfOk result (Answers (Answer d.now command) (K.taken sink.old) (K.taken sink.new)) }
    ensures no_memory { IfOk result (λ status. status ≡ Status.NoMemory → MayTakeMemory (Serial (OfDump command))) }
    ensures cause { IfOk result (StatusHasCause Status.WriteFault (K.faults sink.old) (K.faults sink.new)) }
    ensures refused { OnErr result (command ≢ Show) }
    ensures refusal { IfErr result (λ found. first_refusal d.now.files ≡ Some found) }
    ensures short { IfErr result (λ found. HasThreeDigits found.1.msr) }
    ensures kept { OnErr result (sink.new ≡ sink.old) }
{
    match command {
        DumpCommand::Show => Ok(show(d, sink)),
        DumpCommand::Check => {
            accepted(d)?;
            Ok(check(d, sink))
        }
        DumpCommand::Types => Ok(types(alloc, accepted(d)?, sink)),
        DumpCommand::Page { address, index } => Ok(page(accepted(d)?, address, index, sink)),
        DumpCommand::Tidy { spare, chunk } => Ok(tidied(accepted(d)?, spare, chunk, sink)),
        DumpCommand::Gran { log, spare, chunk } => {
            Ok(grained(alloc, accepted(d)?, log, spare, chunk, sink))
        }
    }
}

/// Writes the answer of a command about a dump, and returns the status.
pub fn answer<K: Sink>(alloc: Global, command: DumpCommand, d: &Dump, sink: &mut K) -> Status
    requires sound { IsSound command }
    ensures bytes { Answers (Answer d.now command) (K.taken sink.old) (K.taken sink.new) result }
    ensures no_memory { result ≡ Status.NoMemory → MayTakeMemory (Serial (OfDump command)) }
    ensures cause { StatusHasCause Status.WriteFault (K.faults sink.old) (K.faults sink.new) result }
{
    match answer_or_refuse(alloc, command, d, sink) {
        Ok(status) => status,
        Err((k, fault)) => {
            let line = dump_refused_line(d.version, k, &fault);
            written(sink, line.as_slice(), Status::Refused)
        }
    }
}

/// Writes the text for measurements that a number determines.
pub fn make<K: Sink>(alloc: Global, n: u64, sink: &mut K) -> Status
    ensures bytes { Makes (make_text n) (K.taken sink.old) (K.taken sink.new) result }
    ensures cause { StatusHasCause Status.WriteFault (K.faults sink.old) (K.faults sink.new) result }
{
    match make_text(alloc, n) {
        Ok(text) => written(sink, text.as_slice(), Status::Done),
        Err(_) => Status::NoMemory,
    }
}

/// Reads a dump to its end, and writes the answer of a command about it. If the source fails or gives too much, nothing
/// is written.
pub fn answer_input<S: Source, K: Sink>(
    alloc: Global,
    command: DumpCommand,
    source: &mut S,
    sink: &mut K,
) -> Status
    requires sound { IsSound command }
    ensures bytes { (bytes : List ℕ) → S.left source.old ≡ Some bytes → AnswersInput command (held bytes (S.left source.new)) (port K.taken sink.old sink.new) result }
    ensures usage { result ≢ Status.Usage }
    ensures few { result ≡ Status.TooFew → MayChoose command }
    ensures disabled { result ≡ Status.Disabled → MayChoose command }
    ensures no_memory { result ≡ Status.NoMemory → MayTakeMemory (Serial (OfDump command)) }
    ensures read_fault { StatusHasCause Status.ReadFault (S.faults source.old) (S.faults source.new) result }
    ensures write_fault { StatusHasCause Status.WriteFault (K.faults sink.old) (K.faults sink.new) result }
    ensures too_long { (result ≡ Status.TooLong) ↔ GaveTooMuch (S.given source.old) (S.given source.new) }
{
    match read_dump_from(source) {
        Ok(Ok(dump)) => answer(alloc, command, &dump, sink),
        Ok(Err(fault)) => written(sink, bad_text_line(&fault).as_slice(), Status::BadText),
        Err(FeedFault::ReadFault) => Status::ReadFault,
        Err(FeedFault::TooLong) => Status::TooLong,
    }
}
