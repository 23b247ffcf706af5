ghost use Rattle.std.specs.Prelude.{◌≡◌, ◌⊎◌, [], ◌∷◌, IfErr, None};
ghost use Rattle.std.specs.IoError.{error_kind};
ghost use Rattle.std.specs.Process.{exit_status};
ghost use Rattle.mt_ports.specs.Exit.{code};
ghost use Rattle.mt_output.specs.Ports.{sink_run, source_run};
ghost use Rattle.mt_output.specs.Program.{Exits, texts_of};
ghost use Rattle.mt_shell.specs.Runs.{HasReadCause, IsProgramRun, IsToldRun, given_words};
ghost use Rattle.mt_import.specs.Import.{IsImportRun, commands};

use crate::{command_of, import_apart};
use mt_dump::read_given;
use mt_ports::{Sink, Source, Status};
use mt_shell::{CommandLines, FileSource, Program, Started, run_program};
use std::env::Args;
use std::io::{self, ErrorKind};
use std::process::ExitCode;

// The program, over any ports.
struct Importer;

impl CommandLines for Importer {
    ghost commands = { commands };

    fn name(&self) -> &'static str {
        "mtrr-import"
    }

    fn reads(&self, words: &[String]) -> bool {
        command_of(words).is_some()
    }

    fn hint(&self, front: &[u8]) -> Option<&'static str> {
        match read_given(front) {
            Ok(given) if given.has_width => Some("this is a dump already"),
            _ => None,
        }
    }
}

impl<R, S: Source, K: Sink, E: Sink> Program<R, S, K, E> for Importer {
    ghost ends = { IsImportRun };

    fn run(
        &self,
        _rt: &R,
        words: &[String],
        source: &mut S,
        sink: &mut K,
        errors: &mut E,
    ) -> Status {
        import_apart(words, source, sink, errors)
    }
}

/// Does all that the program does with its arguments, and returns its exit code. `run_program` of mt_shell says which words
/// may name the log.
pub fn program_status<R: AllocGlobal, S: FileSource<R>, K: Sink, E: Sink>(
    rt: &R,
    args: io::Result<Args>,
    source: &mut S,
    sink: &mut K,
    errors: &mut E,
) -> ExitCode
    ensures ends { Exits result (IsProgramRun commands S.opens IsImportRun (given_words args) (source_run S.left S.faults S.given source.old source.new)
        (sink_run K.taken K.faults sink.old sink.new) (sink_run E.taken E.faults errors.old errors.new)) }
    ensures read_fault { Exits result (HasReadCause commands S.opens (given_words args) (source_run S.left S.faults S.given source.old source.new)) }

    // An argument that is no text is wrong usage, as an empty word is.
    ensures no_text { texts_of args ≡ None → Exits result (λ status. (status ≡ Status.NoMemory) ⊎ IsToldRun commands IsImportRun ([] ∷ [])
        (source_run S.left S.faults S.given source.old source.new) (sink_run K.taken K.faults sink.old sink.new) (sink_run E.taken E.faults errors.old errors.new) status) }

    // If the arguments can't be allocated nothing is read or written.
    ensures no_memory { IfErr args (λ error. error_kind error ≡ ErrorKind.OutOfMemory → exit_status result ≡ code Status.NoMemory) }
{
    let started = Started {
        program: &Importer,
        rt,
    };
    run_program(&started, args, source, sink, errors)
}
