ghost use Rattle.std.specs.Prelude.{◌≡◌, ◌≤◌, ◌⊎◌, [], ◌∷◌, Bool, None, IfErr, IfSome, IsFalse, IsTrue, List, MatchOption, Some, length, ℕ, map, string_bytes};
ghost use Rattle.std.specs.IoError.{error_kind};
ghost use Rattle.std.specs.Process.{exit_status};
ghost use Rattle.mt_ports.specs.Causes.{StatusHasCause};
ghost use Rattle.mt_ports.specs.Exit.{code};
ghost use Rattle.mt_ports.specs.declared.status.Status.{Status as End};
ghost use Rattle.mt_output.specs.Ports.{SinkRun, SourceRun, sink_run, source_run};
ghost use Rattle.mt_output.specs.Program.{Exits, texts_of};
ghost use Rattle.mt_shell.specs.Reasons.{TookHint, TookReason};
ghost use Rattle.mt_shell.specs.Runs.{Commands, HasGoneOn, HasReadCause, IsProgramRun, IsToldRun, IsUnopened, NamesFile, NamesNoFile, given_words, is_empty_or_option, may_name_file};

use crate::FileSource;
use crate::own::own_text;
use crate::reasons::{Reason, reason, tell};
use mt_output::{NoWords, exit_code, words_from};
use mt_ports::{Sink, Source, Status};
use std::alloc::Global;
use std::env::Args;
use std::io::{self, ErrorKind};
use std::process::ExitCode;

/// The command lines of a program that reads one input.
pub trait CommandLines {
    /// What the functions below return.
    ghost commands: { Commands };

    /// The program's name, of at most 32 bytes.
    fn name(&self) -> &'static str
        ensures name { result.now ≡ commands.name }
        ensures short { length result.now ≤ 32 };

    /// Whether words are a command line that reads the input.
    fn reads(&self, words: &[String]) -> bool
        ensures { result ≡ commands.reads (map string_bytes words.now) };

    /// What is worth saying of an input that begins so, if its run didn't end with `Done`. It has at most 2,000 bytes.
    fn hint(&self, _front: &[u8]) -> Option<&'static str>
        ensures hint { IfSome result (λ hint. commands.hint ≡ Some hint.now) }
        ensures short { IfSome result (λ hint. length hint.now ≤ 2000) }
    {
        None
    }
}

/// A program that reads one input.
pub trait Program<R, S: Source, K: Sink, E: Sink>: CommandLines {
    /// What a run for words leaves in the source, in the sink and in standard error, and its status.
    ghost ends: { List (List ℕ) → SourceRun S → SinkRun K → SinkRun E → End → Type 0 };

    /// Does all that the program does for words. It returns `Usage` if they are no command line.
    fn run(&self, rt: &R, words: &[String], source: &mut S, sink: &mut K, errors: &mut E) -> Status
        ensures ends { ends (map string_bytes words.now) (source_run S.left S.faults S.given source.old source.new)
            (sink_run K.taken K.faults sink.old sink.new) (sink_run E.taken E.faults errors.old errors.new) result }
        ensures read_fault { StatusHasCause Status.ReadFault (S.faults source.old) (S.faults source.new) result };
}

/// A program, and the runtime that it runs on.
#[derive(Drop)]
pub struct Started<'a, P, R> {
    pub program: &'a P,
    pub rt: &'a R,
}

fn is_empty_or_option(word: &[u8]) -> bool
    ensures { result ≡ is_empty_or_option word.now }
{
    match word {
        [] => true,
        [first, ..] => *first == b'-',
    }
}

// Whether a word may name a file. `-` does so: it stands for the source.
fn may_name_file(word: &[u8]) -> bool
    ensures { result ≡ may_name_file word.now }
{
    word == b"-".as_slice()
        || (!is_empty_or_option(word) && (word.contains(&b'/') || !word.contains(&b'=')))
}

// The file that words name, and the words before it.
fn file_in<'a, P: CommandLines>(program: &P, words: &'a [String]) -> Option<(&'a str, &'a [String])>
    ensures { MatchOption result (NamesNoFile P.commands.reads (map string_bytes words.now))
        (λ named. NamesFile P.commands.reads (map string_bytes words.now) (map string_bytes named.1.now) named.0.now) }
{
    if program.reads(words) {
        return None;
    }
    let (file, front) = words.split_last()?;
    if may_name_file(file.as_bytes()) && program.reads(front) {
        Some((file.as_str(), front))
    } else {
        None
    }
}

fn is_command_line<P: CommandLines>(program: &P, words: &[String]) -> bool {
    program.reads(words) || file_in(program, words).is_some() || own_text(words, b"", b"").is_some()
}

// The word behind which words are no front of a command line. There is none if one is missing.
fn wrong_word<'a, P: CommandLines>(program: &P, words: &'a [String]) -> Option<&'a str> {
    for i in 0..words.len() {
        if !is_command_line(program, &words[..i + 1]) {
            return Some(words[i].as_str());
        }
    }
    None
}

// Why words are wrong usage.
fn usage_reason<P: CommandLines>(program: &P, words: &[String]) -> Reason {
    match wrong_word(program, words) {
        None => reason("a word is missing", ""),
        Some("") => reason("a word is empty or no text", ""),
        Some(word) => reason("unexpected word: ", word),
    }
}

// Runs a program, and writes to standard error what its status makes worth saying.
fn run_told<P: Program<R, S, K, E>, R, S: FileSource<R>, K: Sink, E: Sink>(
    started: &Started<'_, P, R>,
    words: &[String],
    source: &mut S,
    sink: &mut K,
    errors: &mut E,
) -> Status
    ensures told { IsToldRun P.commands P.ends (map string_bytes words.now) (source_run S.left S.faults S.given source.old source.new)
        (sink_run K.taken K.faults sink.old sink.new) (sink_run E.taken E.faults errors.old errors.new) result }
    ensures read_fault { StatusHasCause Status.ReadFault (S.faults source.old) (S.faults source.new) result }
{
    let program = started.program;
    let status = program.run(started.rt, words, source, sink, errors);
    if status == Status::Usage {
        let reason = usage_reason(program, words);
        tell(errors, program.name(), reason.as_slice());
    } else if status != Status::Done {
        if let Some(hint) = program.hint(source.front()) {
            tell(errors, program.name(), hint.as_bytes());
        }
    }
    status
}

// Whether a word looks like a name of another thing than a file.
fn is_bare(word: &str) -> bool {
    !word.as_bytes().contains(&b'.') && !word.as_bytes().contains(&b'/')
}

// Why a file can't be opened.
fn unopened_reason(alloc: Global, file: &str, error: &io::Error) -> Reason {
    if error.kind() == ErrorKind::NotFound && is_bare(file) {
        return reason("unexpected word, and no such file: ", file);
    }
    match format!(in alloc; "{file}: {error}") {
        Ok(text) => reason(text.as_str(), ""),
        Err(_) => reason(file, ""),
    }
}

// Goes on with the file that a word names, and says whether that could be opened.
fn open<P: CommandLines, R: AllocGlobal, S: FileSource<R>, E: Sink>(
    started: &Started<'_, P, R>,
    file: &str,
    source: &mut S,
    errors: &mut E,
) -> bool
    ensures opened { IsTrue result → HasGoneOn S.opens file.now (source_run S.left S.faults S.given source.old source.old) source.new }
    ensures quiet { IsTrue result → errors.new ≡ errors.old }
    ensures unopened { IsFalse result → IsUnopened S.opens file.now (source_run S.left S.faults S.given source.old source.new) }
    ensures told { IsFalse result → TookReason P.commands.name (sink_run E.taken E.faults errors.old errors.new) }
{
    if file == "-" {
        return true;
    }
    match source.go_on_with(started.rt, file) {
        Ok(()) => true,
        Err(error) => {
            let reason = unopened_reason(started.rt.alloc(), file, &error);
            tell(errors, started.program.name(), reason.as_slice());
            false
        }
    }
}

// Runs a program for its words.
fn run_words<P: Program<R, S, K, E>, R: AllocGlobal, S: FileSource<R>, K: Sink, E: Sink>(
    started: &Started<'_, P, R>,
    words: &[String],
    source: &mut S,
    sink: &mut K,
    errors: &mut E,
) -> Status
    ensures ends { IsProgramRun P.commands S.opens P.ends (map string_bytes words.now) (source_run S.left S.faults S.given source.old source.new)
        (sink_run K.taken K.faults sink.old sink.new) (sink_run E.taken E.faults errors.old errors.new) result }
    ensures read_fault { HasReadCause P.commands S.opens (map string_bytes words.now) (source_run S.left S.faults S.given source.old source.new) result }
{
    match file_in(started.program, words) {
        None => run_told(started, words, source, sink, errors),
        Some((file, front)) => {
            if !open(started, file, source, errors) {
                return Status::ReadFault;
            }
            run_told(started, front, source, sink, errors)
        }
    }
}

// Runs a program for its arguments.
fn run<P: Program<R, S, K, E>, R: AllocGlobal, S: FileSource<R>, K: Sink, E: Sink>(
    started: &Started<'_, P, R>,
    args: io::Result<Args>,
    source: &mut S,
    sink: &mut K,
    errors: &mut E,
) -> Status
    ensures ends { IsProgramRun P.commands S.opens P.ends (given_words args) (source_run S.left S.faults S.given source.old source.new)
        (sink_run K.taken K.faults sink.old sink.new) (sink_run E.taken E.faults errors.old errors.new) result }
    ensures read_fault { HasReadCause P.commands S.opens (given_words args) (source_run S.left S.faults S.given source.old source.new) result }
    ensures no_text { texts_of args ≡ None → (result ≡ Status.NoMemory) ⊎ IsToldRun P.commands P.ends ([] ∷ []) (source_run S.left S.faults S.given source.old source.new)
        (sink_run K.taken K.faults sink.old sink.new) (sink_run E.taken E.faults errors.old errors.new) result }
    ensures no_memory { IfErr args (λ error. error_kind error ≡ ErrorKind.OutOfMemory → result ≡ Status.NoMemory) }
{
    let alloc = started.rt.alloc();
    match words_from(alloc, args) {
        Ok(words) => run_words(started, &words, source, sink, errors),
        Err(NoWords::NoText) => {
            let empty = [String::new(alloc)];
            run_told(started, &empty, source, sink, errors)
        }
        Err(NoWords::NoMemory) => Status::NoMemory,
    }
}

/// Runs a program for its arguments, and returns its exit code. The words of the command line are the arguments except the
/// first. `--help`, `-h` and `--version` are the program's to answer.
///
/// If the words are no command line that reads the input, but are one without the last of them, that word names a file that is
/// read in place of the source. It isn't empty, doesn't begin with `-`, and has no `=` unless it has `/` too; `-` itself names
/// the source. A file that can't be opened ends the run with `ReadFault`. At `Usage` a line on standard error names the wrong word.
pub fn run_program<P: Program<R, S, K, E>, R: AllocGlobal, S: FileSource<R>, K: Sink, E: Sink>(
    started: &Started<'_, P, R>,
    args: io::Result<Args>,
    source: &mut S,
    sink: &mut K,
    errors: &mut E,
) -> ExitCode
    ensures ends { Exits result (IsProgramRun P.commands S.opens P.ends (given_words args) (source_run S.left S.faults S.given source.old source.new)
        (sink_run K.taken K.faults sink.old sink.new) (sink_run E.taken E.faults errors.old errors.new)) }
    ensures read_fault { Exits result (HasReadCause P.commands S.opens (given_words args) (source_run S.left S.faults S.given source.old source.new)) }

    // If an argument is no text, the program is run for an empty word, which names no file.
    ensures no_text { texts_of args ≡ None → Exits result (λ status. (status ≡ Status.NoMemory) ⊎ IsToldRun P.commands P.ends ([] ∷ [])
        (source_run S.left S.faults S.given source.old source.new) (sink_run K.taken K.faults sink.old sink.new) (sink_run E.taken E.faults errors.old errors.new) status) }

    // If memory is refused to the arguments, nothing is run.
    ensures no_memory { IfErr args (λ error. error_kind error ≡ ErrorKind.OutOfMemory → exit_status result ≡ code Status.NoMemory) }
{
    exit_code(run(started, args, source, sink, errors))
}
