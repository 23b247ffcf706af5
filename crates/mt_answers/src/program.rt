ghost use Rattle.std.specs.Prelude.{◌≡◌, ◌≢◌, [], IfErr, IfOk, IsErr, IsOkAnd, None, OnErr, MatchResult, Some, map, string_bytes};
ghost use Rattle.std.specs.IoError.{error_kind};
ghost use Rattle.std.specs.Process.{exit_status};
ghost use Rattle.mt_ports.specs.Exit.{code};
ghost use Rattle.mt_output.specs.Ports.{sink_run, source_run};
ghost use Rattle.mt_output.specs.Program.{Exits, words_of};
ghost use Rattle.mt_answers.specs.CommandLine.{command_of, threaded_of};
ghost use Rattle.mt_answers.specs.Runs.{EndsAlone, IsAnswered, IsUsageEnd};

use crate::command::{Command, ThreadedCommand};
use crate::serial::run_serial;
use crate::words::command_of;
use mt_output::{NoWords, exit_code, wrong_usage};
use mt_ports::{NoMemory, Sink, Source, Status};
use std::alloc::Global;
use std::env::Args;
use std::io::{self, ErrorKind};
use std::process::ExitCode;

/// Returns the words of the command line. An argument that is no text makes it an empty one, which is wrong usage.
/// Fails if and only if memory is refused to the arguments or to the list.
pub fn words_from(alloc: Global, args: io::Result<Args>) -> Result<Vec<String>, NoMemory>
    ensures words { IfOk result (λ words. map string_bytes words.items ≡ words_of args) }
    ensures no_memory { IfErr args (λ error. error_kind error ≡ ErrorKind.OutOfMemory → IsErr result) }
    ensures no_text { IfErr args (λ error. error_kind error ≢ ErrorKind.OutOfMemory → IsOkAnd result (λ words. words.items ≡ [])) }
{
    match mt_output::words_from(alloc, args) {
        Ok(words) => Ok(words),
        Err(NoWords::NoText) => Ok(Vec::new(alloc)),
        Err(NoWords::NoMemory) => Err(NoMemory),
    }
}

/// Does what words ask for that start no thread: those of `check`, `show`, `types`, `page`, `tidy`, `gran`, `make`,
/// `--help` and `--version`, and those that are no command line. Returns any other command, and then calls no port.
pub fn answer_words<S: Source, K: Sink>(
    alloc: Global,
    words: &[String],
    source: &mut S,
    sink: &mut K,
) -> Result<Status, ThreadedCommand>
    ensures answered { IfOk result (IsAnswered (map string_bytes words.now)
        (source_run S.left S.faults S.given source.old source.new) (sink_run K.taken K.faults sink.old sink.new)) }

    // A command is returned if and only if the words are those of one that starts threads, and then it is that one.
    ensures threaded { let asked = threaded_of (command_of (map string_bytes words.now)) in
        MatchResult result (λ _. asked ≡ None) (λ command. asked ≡ Some command) }
    ensures untouched { OnErr result ((source.new ≡ source.old) × (sink.new ≡ sink.old)) }
{
    let Some(command) = command_of(words) else {
        return Ok(wrong_usage(sink));
    };
    match command {
        Command::Serial(command) => Ok(run_serial(alloc, command, source, sink)),
        Command::Threaded(command) => Err(command),
    }
}

// Runs these commands alone.
fn run<S: Source, K: Sink>(
    alloc: Global,
    args: io::Result<Args>,
    source: &mut S,
    sink: &mut K,
) -> Status
    ensures ends { EndsAlone (words_of args)
        (source_run S.left S.faults S.given source.old source.new) (sink_run K.taken K.faults sink.old sink.new) result }
    ensures no_memory { IfErr args (λ error. error_kind error ≡ ErrorKind.OutOfMemory → result ≡ Status.NoMemory) }
    ensures no_text { IfErr args (λ error. error_kind error ≢ ErrorKind.OutOfMemory → IsUsageEnd result) }
{
    let Ok(words) = words_from(alloc, args) else {
        return Status::NoMemory;
    };
    match answer_words(alloc, &words, source, sink) {
        Ok(status) => status,
        Err(_) => wrong_usage(sink),
    }
}

/// Runs a program that has only the commands that start no thread, and returns its exit code. Any other command is
/// wrong usage to it. Its help is that of `mtrr`, with all commands.
pub fn serial_status<S: Source, K: Sink>(
    alloc: Global,
    args: io::Result<Args>,
    source: &mut S,
    sink: &mut K,
) -> ExitCode
    ensures ends { Exits result (EndsAlone (words_of args)
        (source_run S.left S.faults S.given source.old source.new) (sink_run K.taken K.faults sink.old sink.new)) }

    // If memory is refused to the arguments, nothing is run.
    ensures no_memory { IfErr args (λ error. error_kind error ≡ ErrorKind.OutOfMemory → exit_status result ≡ code Status.NoMemory) }

    // An argument that is no text is wrong usage.
    ensures no_text { Exits result (λ status. IfErr args (λ error. error_kind error ≢ ErrorKind.OutOfMemory → IsUsageEnd status)) }
{
    exit_code(run(alloc, args, source, sink))
}
