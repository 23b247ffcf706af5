ghost use Rattle.mt_output.specs.Ports.{sink_run, source_run};
ghost use Rattle.mt_answers.specs.CommandLine.{IsSoundSerial};
ghost use Rattle.mt_answers.specs.Runs.{IsSerialRun};

use crate::SerialCommand;
use crate::answers::{answer_input, make};
use crate::help::{help_text, version_text};
use mt_output::written;
use mt_ports::{Sink, Source, Status};
use std::alloc::Global;

/// Does what a command asks for that starts no thread. A command on a dump reads the source to its
/// end, unless the source fails or gives more than 16,777,216 bytes. Every other command reads nothing.
#[inline(never)] // so that other commands need no stack for it
pub fn run_serial<S: Source, K: Sink>(
    alloc: Global,
    command: SerialCommand,
    source: &mut S,
    sink: &mut K,
) -> Status
    requires { IsSoundSerial command }
    ensures { IsSerialRun command (source_run S.left S.faults S.given source.old source.new) (sink_run K.taken K.faults sink.old sink.new) result }
{
    match command {
        SerialCommand::Dump(command) => answer_input(alloc, command, source, sink),
        SerialCommand::Make(n) => make(alloc, n, sink),
        SerialCommand::Help => written(sink, help_text(), Status::Done),
        SerialCommand::Version => written(sink, version_text(), Status::Done),
    }
}
