ghost use Rattle.std.specs.Prelude.{◌≡◌, true};
ghost use Rattle.mt_output.specs.Ports.{sink_run, source_run};
ghost use Rattle.mt_output.specs.Program.{Exits, words_of};
ghost use Rattle.mt_shell.specs.Runs.{HasReadCause, IsProgramRun, given_words};
ghost use Rattle.mt_memory.specs.Command.{is_memory};
ghost use Rattle.mt_memory.specs.Outcome.{IsMapRun, commands};

use crate::command::is_memory;
use crate::{command_of, import_map};
use mt_output::words_from;
use mt_ports::{Sink, Source, Status};
use mt_shell::{CommandLines, FileSource, Program, Started, run_program};
use std::alloc::Global;
use std::env::Args;
use std::io;
use std::process::ExitCode;

// The program, over any ports.
struct MapImporter;

impl CommandLines for MapImporter {
    ghost commands = { commands };

    fn name(&self) -> &'static str {
        "mtrr-import"
    }

    fn reads(&self, words: &[String]) -> bool {
        command_of(words).is_some()
    }
}

impl<R, S: Source, K: Sink, E: Sink> Program<R, S, K, E> for MapImporter {
    ghost ends = { IsMapRun };

    fn run(
        &self,
        _rt: &R,
        words: &[String],
        source: &mut S,
        sink: &mut K,
        errors: &mut E,
    ) -> Status {
        import_map(words, source, sink, errors)
    }
}

/// Whether the first word of a command line asks for a memory map. If the words can't be allocated it says no.
pub fn asks_for_map(alloc: Global, args: io::Result<Args>) -> bool
    ensures { result ≡ true → is_memory (words_of args) ≡ true }
{
    match words_from(alloc, args) {
        Ok(words) => is_memory(words.as_slice()),
        Err(_) => false,
    }
}

/// Does all that `mtrr-import memory` does with its arguments, and returns its exit code. `run_program` of mt_shell says which
/// words may name the log.
pub fn map_status<R: AllocGlobal, S: FileSource<R>, K: Sink, E: Sink>(
    rt: &R,
    args: io::Result<Args>,
    source: &mut S,
    sink: &mut K,
    errors: &mut E,
) -> ExitCode
    ensures ends { Exits result (IsProgramRun commands S.opens IsMapRun (given_words args) (source_run S.left S.faults S.given source.old source.new)
        (sink_run K.taken K.faults sink.old sink.new) (sink_run E.taken E.faults errors.old errors.new)) }
    ensures read_fault { Exits result (HasReadCause commands S.opens (given_words args) (source_run S.left S.faults S.given source.old source.new)) }
{
    let started = Started {
        program: &MapImporter,
        rt,
    };
    run_program(&started, args, source, sink, errors)
}
