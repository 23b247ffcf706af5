ghost use Rattle.std.specs.Prelude.{◌≡◌, ◌≢◌, ◌⊎◌, ◌↔◌, [], ◌∷◌, IfErr, IsSome, None, map, string_bytes, true};
ghost use Rattle.std.specs.IoError.{error_kind};
ghost use Rattle.std.specs.Process.{exit_status};
ghost use Rattle.mt_ports.specs.Causes.{StatusHasCause};
ghost use Rattle.mt_ports.specs.Exit.{code};
ghost use Rattle.mt_output.specs.Ports.{sink_run, source_run};
ghost use Rattle.mt_output.specs.Program.{Exits, texts_of};
ghost use Rattle.mt_shell.specs.Runs.{HasReadCause, IsProgramRun, IsToldRun, given_words};
ghost use Rattle.mt_judge.specs.Help.{help_text, version_text};
ghost use Rattle.mt_judge.specs.Verdicts.{IsJudgeRun, IsJudged, IsStatusOf, IsTaken, commands, reads_case};

use crate::json::json_text;
use crate::judging::{Host, OnStderr, Verdict, judge};
use crate::one_run::judge_run;
use crate::picture::caption::caption_of;
use crate::picture::{Drawn, picture_text};
use crate::telling::verdict_text;
use mt_case::{Ask, Input, Part, Trouble, read_input};
use mt_output::{bad_text, written, wrong_usage};
use mt_ports::{NoMemory, Sink, Source, Status};
use mt_shell::{CommandLines, FileSource, Program, Started, own_text, run_program};
use mt_text::LONGEST_INPUT;
use std::alloc::Global;
use std::env::Args;
use std::io::{self, ErrorKind};
use std::process::ExitCode;

fn help_text() -> &'static [u8]
    ensures { result.now ≡ help_text }
{
    b"usage: mtrr-judge [picture|json] [CASE] > OUTPUT

Judges a procedure that changes memory type registers. Runs the steps of
each processor on the machine of mtrr, and writes what they leave wrong.

  picture     draws the run, as SVG, in place of the verdict
  json        writes the verdict and the run as one JSON object
  CASE        names the case; without it, or if it is -, standard input is read
  -h, --help  this text
  --version   the version

-h, --help and --version read nothing.

Exit status:
  0  nothing is wrong
  1  something is wrong, a step isn't due, a list ends in the midst of an
     update, lists can't end, or the search stopped
  2  wrong usage
  3  the input is no case
  4  reading failed
  5  writing failed
  6  out of memory
  7  the input has more than 16,777,216 bytes
"
}

fn version_text() -> &'static [u8]
    ensures { result.now ≡ version_text }
{
    b"mtrr-judge 1.0.0\n"
}

// The form in which a verdict is written.
#[derive(Clone, Copy, PartialEq, Eq)]
enum Form {
    Text,
    Picture,
    Json,
}

fn form_of(words: &[String]) -> Option<Form>
    ensures { IsSome result ↔ (reads_case (map string_bytes words.now) ≡ true) }
{
    match words {
        [] => Some(Form::Text),
        [word] if word.as_bytes() == b"picture".as_slice() => Some(Form::Picture),
        [word] if word.as_bytes() == b"json".as_slice() => Some(Form::Json),
        _ => None,
    }
}

// Adds the next bytes of a source. False if there are no more.
fn take_more<S: Source>(bytes: &mut Vec<u8>, source: &mut S) -> Result<bool, Status>
    ensures { IsTaken result (S.faults source.old) (S.faults source.new) }
{
    let mut buffer = [0; 8192];
    let Ok(count) = source.take(&mut buffer) else {
        return Err(Status::ReadFault);
    };
    if count > LONGEST_INPUT.saturating_sub(bytes.len()) {
        return Err(Status::TooLong);
    }
    match bytes.extend_from_slice(&buffer[..count]) {
        Ok(()) => Ok(count > 0),
        Err(_) => Err(Status::NoMemory),
    }
}

fn take_all<S: Source>(bytes: &mut Vec<u8>, source: &mut S) -> Result<(), Status>
    ensures { IsTaken result (S.faults source.old) (S.faults source.new) }
{
    'pieces: for _ in 0..=LONGEST_INPUT {
        if !take_more(bytes, source)? {
            return Ok(());
        }
    }
    Err(Status::TooLong)
}

// All bytes of a source.
fn read_all<S: Source>(alloc: Global, source: &mut S) -> Result<Vec<u8>, Status>
    ensures { IsTaken result (S.faults source.old) (S.faults source.new) }
{
    let mut bytes = Vec::new(alloc);
    take_all(&mut bytes, source)?;
    Ok(bytes)
}

// The text of a verdict in a form. A picture and JSON have the verdict's run, or if that has no turn, one in rounds.
fn text_in(
    alloc: Global,
    form: Form,
    input: &Input,
    verdict: &Verdict,
) -> Result<String, NoMemory> {
    let text = verdict_text(alloc, &input.case, verdict)?;
    if form == Form::Text {
        return Ok(text);
    }
    let caption = caption_of(alloc, verdict)?;
    let rounds = if verdict.transcript.told.is_empty() && matches!(input.ask, Ask::All(_)) {
        Some(judge_run(alloc, &input.case, &input.start, &[Part::Turns])?)
    } else {
        None
    };
    let run = match &rounds {
        Some(rounds) => &rounds.transcript,
        None => &verdict.transcript,
    };
    let drawn = Drawn {
        caption: caption.as_str(),
        text: text.as_str(),
        run,
    };
    match form {
        Form::Picture => picture_text(alloc, &input.case, &input.start, &drawn),
        _ => json_text(alloc, &input.case, &input.start, verdict, &drawn),
    }
}

// Writes a verdict.
fn print<K: Sink>(
    alloc: Global,
    form: Form,
    input: &Input,
    verdict: &Verdict,
    sink: &mut K,
) -> Status
    ensures status { IsStatusOf verdict.now result }
    ensures write_fault { StatusHasCause Status.WriteFault (K.faults sink.old) (K.faults sink.new) result }
{
    let status = if verdict.wrong {
        Status::Refused
    } else {
        Status::Done
    };
    match text_in(alloc, form, input, verdict) {
        Ok(text) => written(sink, text.as_bytes(), status),
        Err(_) => Status::NoMemory,
    }
}

// Writes the verdict on a text.
fn answer<H: Host, K: Sink>(host: &H, form: Form, text: &[u8], sink: &mut K) -> Status
    ensures answered { (result ≢ Status.Usage) × (result ≢ Status.ReadFault) }
    ensures write_fault { StatusHasCause Status.WriteFault (K.faults sink.old) (K.faults sink.new) result }
{
    match read_input(host.room(), text) {
        Ok(input) => match judge(host, &input) {
            Ok(verdict) => print(host.room(), form, &input, &verdict, sink),
            Err(_) => Status::NoMemory,
        },
        Err(Trouble::NoMemory) => Status::NoMemory,
        Err(Trouble::Bad { place, reason }) => {
            let line = bad_text(place, reason.text());
            written(sink, line.as_slice(), Status::BadText)
        }
    }
}

fn judge_input<H: Host, S: Source, K: Sink>(
    host: &H,
    form: Form,
    source: &mut S,
    sink: &mut K,
) -> Status
    ensures judged { result ≢ Status.Usage }
    ensures read_fault { StatusHasCause Status.ReadFault (S.faults source.old) (S.faults source.new) result }
    ensures write_fault { StatusHasCause Status.WriteFault (K.faults sink.old) (K.faults sink.new) result }
{
    match read_all(host.room(), source) {
        Ok(bytes) => answer(host, form, bytes.as_slice(), sink),
        Err(status) => status,
    }
}

/// Does what words ask for: writes one of the program's own texts, or the verdict on the case that a source has.
pub fn run_judge<H: Host, S: Source, K: Sink>(
    host: &H,
    words: &[String],
    source: &mut S,
    sink: &mut K,
) -> Status
    ensures { IsJudged (map string_bytes words.now) (source_run S.left S.faults S.given source.old source.new) (sink_run K.taken K.faults sink.old sink.new) result }
{
    if let Some(text) = own_text(words, help_text(), version_text()) {
        return written(sink, text, Status::Done);
    }
    match form_of(words) {
        Some(form) => judge_input(host, form, source, sink),
        None => wrong_usage(sink),
    }
}

// The program, over any ports.
struct Judging;

impl CommandLines for Judging {
    ghost commands = { commands };

    fn name(&self) -> &'static str {
        "mtrr-judge"
    }

    fn reads(&self, words: &[String]) -> bool {
        form_of(words).is_some()
    }
}

impl<R: Eprint + AllocGlobal, S: Source, K: Sink, E: Sink> Program<R, S, K, E> for Judging {
    ghost ends = { IsJudgeRun };

    fn run(
        &self,
        rt: &R,
        words: &[String],
        source: &mut S,
        sink: &mut K,
        _errors: &mut E,
    ) -> Status {
        run_judge(&OnStderr { rt }, words, source, sink)
    }
}

/// Does all that the program does with its arguments, and returns its exit code. `run_program` of mt_shell says which words
/// may name the case.
pub fn program_status<R: Eprint + AllocGlobal, S: FileSource<R>, K: Sink, E: Sink>(
    rt: &R,
    args: io::Result<Args>,
    source: &mut S,
    sink: &mut K,
    errors: &mut E,
) -> ExitCode
    ensures ends { Exits result (IsProgramRun commands S.opens IsJudgeRun (given_words args) (source_run S.left S.faults S.given source.old source.new)
        (sink_run K.taken K.faults sink.old sink.new) (sink_run E.taken E.faults errors.old errors.new)) }
    ensures read_fault { Exits result (HasReadCause commands S.opens (given_words args) (source_run S.left S.faults S.given source.old source.new)) }

    // An argument that is no text is wrong usage, as an empty word is.
    ensures no_text { texts_of args ≡ None → Exits result (λ status. (status ≡ Status.NoMemory) ⊎ IsToldRun commands IsJudgeRun ([] ∷ [])
        (source_run S.left S.faults S.given source.old source.new) (sink_run K.taken K.faults sink.old sink.new) (sink_run E.taken E.faults errors.old errors.new) status) }

    // If the arguments can't be allocated nothing is read or written.
    ensures no_memory { IfErr args (λ error. error_kind error ≡ ErrorKind.OutOfMemory → exit_status result ≡ code Status.NoMemory) }
{
    let started = Started {
        program: &Judging,
        rt,
    };
    run_program(&started, args, source, sink, errors)
}
