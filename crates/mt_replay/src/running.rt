ghost use Rattle.mt_output.specs.Ports.{change, port, sink_run, source_run};
ghost use Rattle.mt_replay.specs.Running.{HasEraRoomAt, IsReplay, replay_running};
ghost use Rattle.mt_stream.specs.Handling.{Taken};

use crate::line::{Resources, Run, take_line};
use mt_output::Writer;
use mt_ports::{Failed, Gate, Sink, Source, Status};
use mt_rendezvous::Caller;
use mt_script::{Head, Offence, offence_line, read_end};
use mt_stream::{End, LineRun, close, run_lines, run_status};
use mt_text::{Line, Place};
use std::alloc::Global;
use std::sync::Wait;
use std::thread::Threads;

impl LineRun for Run {
    ghost use Rattle.mt_replay.specs.Running.{AsksAt, HasErasAt, StandsAt, end_of_run};
    ghost use Rattle.mt_replay.specs.Transcript.{from_point};
    ghost use Rattle.mt_stream.specs.Results.{AsksBy};

    ghost at = { StandsAt };

    ghost ends = { end_of_run };

    ghost asks = { λ now. AsksBy from_point AsksAt };

    ghost ready = { HasErasAt };

    fn write_end<K: Sink>(
        &self,
        end: Place,
        writer: &mut Writer,
        sink: &mut K,
    ) -> Result<End, Failed> {
        match read_end(self.setup(), end) {
            Ok(()) => close(writer, sink, b"", End::Done),
            Err(fault) => {
                let line = offence_line(&Offence::Script(fault));
                close(writer, sink, line.as_slice(), End::BadText)
            }
        }
    }
}

/// Does what `replay` does, for a caller with a runtime and a gate.
#[inline(never)] // so that other commands need no stack for it
pub fn replay_with<R: Threads + Wait + Sync, S: Source, K: Sink, G: Gate>(
    caller: &Caller<R, G>,
    alloc: Global,
    source: &mut S,
    sink: &mut K,
) -> Status
    ensures { IsReplay (source_run S.left S.faults S.given source.old source.new) (sink_run K.taken K.faults sink.old sink.new) result }
{
    let Ok(mut writer) = Writer::new(alloc) else {
        return Status::NoMemory;
    };
    let resources = Resources { caller, alloc };
    let mut run = Run::Head(Head::new());
    let take = |run: &mut Run, line: &Line<'_>, writer: &mut Writer, sink: &mut K|
        requires { HasEraRoomAt run.old }
        ensures { Taken replay_running (record {
          line = line.now;
          run = change run.old run.new;
          writer = change writer.old writer.new;
          sink = port K.taken sink.old sink.new;
          faults = change (K.faults sink.old) (K.faults sink.new);
        }) result }
    { take_line(&resources, run, line, writer, sink) };
    run_status(run_lines(take, &mut run, source, &mut writer, sink))
}

/// Runs a script on one machine and writes its transcript, with the transcript's status. The script is read line by
/// line out of one buffer. The output for all lines read so far is written before the source is asked for more. The
/// rest behind an offence or a refused dump is dropped. At ReadFault the output for the complete lines read so far has
/// been written, at each other fault a prefix. At NoMemory that is at most the line `accepted`, unless the script has a
/// line `up` or `join`. Memory is allocated before the first line, at the dump's end, and at `ram`, `up` and `join`. An
/// update runs each processor on a thread of its own. It runs all on this one if an allocation fails, a thread isn't
/// started or the gate returns false.
pub fn replay<R: AllocGlobal + Threads + Wait + Sync, S: Source, K: Sink, G: Gate>(
    rt: &R,
    source: &mut S,
    sink: &mut K,
    gate: &G,
) -> Status
    ensures { IsReplay (source_run S.left S.faults S.given source.old source.new) (sink_run K.taken K.faults sink.old sink.new) result }
{
    replay_with(&Caller::of(rt, gate), rt.alloc(), source, sink)
}
