ghost use Rattle.std.specs.Prelude.{◌≡◌, ◌≢◌, ◌⊎◌, [], None, IfErr, IfOk, IsErr, IsOkAnd, map, string_bytes};
ghost use Rattle.std.specs.IoError.{error_kind};
ghost use Rattle.std.specs.Process.{exit_status};
ghost use Rattle.mt_ports.specs.Exit.{code};
ghost use Rattle.mt_output.specs.Program.{Exits, words_of};
ghost use Rattle.mt_answers.specs.CommandLine.{command_of};
ghost use Rattle.mt_output.specs.Ports.{sink_run, source_run};
ghost use Rattle.mt_cli.specs.Runs.{IsRun};

use crate::tool;
use mt_answers::words_from;
use mt_output::exit_code;
use mt_ports::{Gate, Sink, Source, Status};
use std::env::Args;
use std::io::{self, ErrorKind};
use std::process::ExitCode;
use std::sync::Wait;
use std::thread::Threads;

// Runs the tool. Arguments that find no memory end the program before the run.
fn run<R: AllocGlobal + Threads + Wait + Sync, S: Source, K: Sink, G: Gate>(
    rt: &R,
    args: io::Result<Args>,
    source: &mut S,
    sink: &mut K,
    gate: &G,
) -> Status
    ensures run { IsRun (words_of args)
        (source_run S.left S.faults S.given source.old source.new) (sink_run K.taken K.faults sink.old sink.new) result }
    ensures no_command { command_of (words_of args) ≡ None → (result ≡ Status.Usage) ⊎ (result ≡ Status.WriteFault) ⊎ (result ≡ Status.NoMemory) }
    ensures no_memory { IfErr args (λ error. error_kind error ≡ ErrorKind.OutOfMemory → result ≡ Status.NoMemory) }
    ensures no_text { IfErr args (λ error. error_kind error ≢ ErrorKind.OutOfMemory → (result ≡ Status.Usage) ⊎ (result ≡ Status.WriteFault)) }
{
    match words_from(rt.alloc(), args) {
        Ok(words) => tool(rt, &words, source, sink, gate),
        Err(_) => Status::NoMemory,
    }
}

/// Does all that the program does with its arguments, and returns the exit code of its status. The words of the command
/// line are the arguments except the first.
pub fn program_status<R: AllocGlobal + Threads + Wait + Sync, S: Source, K: Sink, G: Gate>(
    rt: &R,
    args: io::Result<Args>,
    source: &mut S,
    sink: &mut K,
    gate: &G,
) -> ExitCode
    ensures run { Exits result (IsRun (words_of args)
        (source_run S.left S.faults S.given source.old source.new) (sink_run K.taken K.faults sink.old sink.new)) }
    ensures no_command { Exits result (λ status. command_of (words_of args) ≡ None → (status ≡ Status.Usage) ⊎ (status ≡ Status.WriteFault) ⊎ (status ≡ Status.NoMemory)) }

    // Where the arguments find no memory nothing is run.
    ensures no_memory { IfErr args (λ error. error_kind error ≡ ErrorKind.OutOfMemory → exit_status result ≡ code Status.NoMemory) }

    // An argument that is no text is wrong usage.
    ensures no_text { Exits result (λ status. IfErr args (λ error. error_kind error ≢ ErrorKind.OutOfMemory → (status ≡ Status.Usage) ⊎ (status ≡ Status.WriteFault))) }
{
    exit_code(run(rt, args, source, sink, gate))
}
