ghost use Rattle.std.specs.Prelude.{◌≡◌, ℕ, List, Some, None, map, string_bytes, IfOk, OnErr, MatchResult};
ghost use Rattle.mt_answers.specs.declared.command.Command.TheVariants.{Threaded};
ghost use Rattle.mt_answers.specs.CommandLine.{IsSoundThreaded, command_of, threaded_of};
ghost use Rattle.mt_output.specs.Ports.{sink_run, source_run};
ghost use Rattle.mt_cli.specs.Runs.{IsToolRun};

use crate::callers::Callers;
use crate::sums::{big, private};
use mt_answers::ThreadedCommand;
use mt_ports::{Gate, Sink, Source, Status};
use mt_proc::proc_with;
use mt_replay::replay_with;
use std::alloc::Global;
use std::sync::Wait;
use std::thread::Threads;

// Does what is done on threads.
fn run_threaded<R: Threads + Wait + Sync, S: Source, K: Sink, G: Gate>(
    callers: &Callers<R, G>,
    alloc: Global,
    command: ThreadedCommand,
    source: &mut S,
    sink: &mut K,
) -> Status
    requires { IsSoundThreaded command }
    ensures { (words : List (List ℕ)) → command_of words ≡ Some (Threaded command) →
        IsToolRun words (source_run S.left S.faults S.given source.old source.new) (sink_run K.taken K.faults sink.old sink.new) result }
{
    match command {
        ThreadedCommand::Replay => replay_with(&callers.updates, alloc, source, sink),
        ThreadedCommand::Proc(cpus) => proc_with(&callers.updates, alloc, source, sink, cpus),
        ThreadedCommand::Big(n) => big(&callers.updates, alloc, n, sink),
        ThreadedCommand::Private { cpus, n, accesses } => {
            private(&callers.jobs, alloc, cpus, n, accesses, sink)
        }
    }
}

/// Does what `tool` does for words that start no thread: those of `check`, `show`, `types`, `page`, `tidy`, `gran`,
/// `make`, `--help` and `--version`, and those that are no command line. It has no handle to wait by, so it is proved
/// to return for every input. It returns any other command, and calls no port for it.
pub fn answer_words<S: Source, K: Sink>(
    alloc: Global,
    words: &[String],
    source: &mut S,
    sink: &mut K,
) -> Result<Status, ThreadedCommand>
    // The run is one of these words.
    ensures ran { IfOk result (IsToolRun (map string_bytes words.now)
        (source_run S.left S.faults S.given source.old source.new) (sink_run K.taken K.faults sink.old sink.new)) }

    // A command comes back exactly where the words are those of one that starts threads, and then it is that one.
    ensures threaded { let asked = threaded_of (command_of (map string_bytes words.now)) in
        MatchResult result (λ _. asked ≡ None) (λ command. asked ≡ Some command) }
    ensures untouched { OnErr result ((source.new ≡ source.old) × (sink.new ≡ sink.old)) }
{
    mt_answers::answer_words(alloc, words, source, sink)
}

/// Does what `tool` does, for a caller with a runtime and a gate. It waits only in an update and in jobs.
pub fn tool_with<R: Threads + Wait + Sync, S: Source, K: Sink, G: Gate>(
    callers: &Callers<R, G>,
    alloc: Global,
    words: &[String],
    source: &mut S,
    sink: &mut K,
) -> Status
    ensures { IsToolRun (map string_bytes words.now)
        (source_run S.left S.faults S.given source.old source.new) (sink_run K.taken K.faults sink.old sink.new) result }
{
    match answer_words(alloc, words, source, sink) {
        Ok(status) => status,
        Err(command) => run_threaded(callers, alloc, command, source, sink),
    }
}

/// Does all that the program does, and returns its status. The words are the command line without the program's name.
/// Nothing is read if they are no command line, nor by `make`, `big`, `private`, `--help` and `--version`. Otherwise
/// the input is read to its end, unless the source or the sink fails, an allocation fails or there are more than
/// 16,777,216 bytes. A port that failed isn't called again, since that call might fail too. Words that start no thread
/// go to `answer_words`.
pub fn tool<R: AllocGlobal + Threads + Wait + Sync, S: Source, K: Sink, G: Gate>(
    rt: &R,
    words: &[String],
    source: &mut S,
    sink: &mut K,
    gate: &G,
) -> Status
    ensures { IsToolRun (map string_bytes words.now)
        (source_run S.left S.faults S.given source.old source.new) (sink_run K.taken K.faults sink.old sink.new) result }
{
    tool_with(&Callers::of(rt, gate), rt.alloc(), words, source, sink)
}
