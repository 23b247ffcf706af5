ghost use Rattle.std.specs.Prelude.{◌≡◌, ◌+◌, ℕ, List, [], Bool, true, MatchOption, MatchResult, IfOk, Some, Ok, Err};
ghost use Rattle.mt_ports.specs.Causes.{HasCause};
ghost use Rattle.mt_regs.specs.Agreement.{first_refusal};
ghost use Rattle.mt_machine.specs.Start.{HasEraRoom};
ghost use Rattle.mt_script.specs.Lines.{offence_line};
ghost use Rattle.mt_output.specs.Writing.{Adds};
ghost use Rattle.mt_script.specs.Accept.{Fits};
ghost use Rattle.mt_script.specs.Stages.{is_in_dump};
ghost use Rattle.mt_dump.specs.ForProcessors.{has_each};
ghost use Rattle.mt_replay.specs.Kept.{HasEras};
ghost use Rattle.mt_replay.specs.Parts.{AsksForMemory};
ghost use Rattle.mt_replay.specs.Running.{AsksAt, CarriesOut, HasEraRoomAt, HasErasAt, IsAt, HasOutput, StandsAt, dump_at, line_at, setup_of};
ghost use Rattle.mt_stream.specs.Lines.{IfGoesOn, Takes};
ghost use Rattle.mt_output.specs.Ports.{change, port};
ghost use Rattle.mt_replay.specs.Summing.{Begins, Lasts, state_in};
ghost use Rattle.mt_replay.specs.Transcript.{ScriptState, in_body};

use crate::replayer::Replayer;
use crate::report::REPORT_ROOM;
use mt_dump::Dump;
use mt_output::{Writer, accepted_line, dump_refused_line};
use mt_ports::{Failed, Gate, Sink};
use mt_regs::first_refusal;
use mt_rendezvous::Caller;
use mt_script::{Command, Head, Offence, Setup, offence_line, read_command};
use mt_stream::{Stop, tell};
use mt_text::Line;
use std::alloc::Global;
use std::mem;
use std::sync::Wait;
use std::thread::Threads;

/// What a line may use: the caller, and the allocator.
#[derive(Drop)]
pub(crate) struct Resources<'a, R, G> {
    pub(crate) caller: &'a Caller<R, G>,
    pub(crate) alloc: Global,
}

/// A run of a script between two lines: up to the dump's end, or behind it.
#[derive(Drop)]
pub(crate) enum Run {
    Head(Head),
    Body(Replayer),
}

impl Run {
    /// What stands set up.
    pub(crate) fn setup(&self) -> &Setup
        ensures { result.now ≡ setup_of self.now }
    {
        match self {
            Run::Head(head) => &head.setup,
            Run::Body(replayer) => replayer.setup(),
        }
    }
}

// Writes the line about an offence, which is the last.
#[inline(never)]
fn tell_offence<K: Sink>(
    writer: &mut Writer,
    sink: &mut K,
    offence: &Offence,
) -> Result<Option<Stop>, Failed>
    ensures bytes { Adds (offence_line offence.now) (change writer.old writer.new) (port K.taken sink.old sink.new) result }
    ensures stop { IfOk result (λ ended. ended ≡ Some Stop.BadText) }
    ensures answer { (answer : Stop) → result ≡ Ok (Some answer) → answer ≡ Stop.BadText }
    ensures cause { HasCause (K.faults sink.old) (K.faults sink.new) result }
{
    tell(
        writer,
        sink,
        offence_line(offence).as_slice(),
        Stop::BadText,
    )
}

// Where a dump ends: what stands set up, and what its lines show.
#[derive(Drop)]
struct DumpEnd {
    setup: Setup,
    dump: Dump,
}

// Goes on behind the end of a dump, where each of its files is accepted.
#[inline(never)]
fn begin<K: Sink>(
    alloc: Global,
    run: &mut Run,
    end: DumpEnd,
    writer: &mut Writer,
    sink: &mut K,
) -> Result<Option<Stop>, Failed>
    requires stage { is_in_dump end.setup.stage ≡ true }
    requires each { has_each end.setup.cpus end.dump ≡ true }
    requires head { state_in run.old ≡ None }
    ensures bytes { (number : ℕ) → Takes (StandsAt run.new) (dump_at end.setup end.dump number) (change writer.old writer.new) (port K.taken sink.old sink.new) result }
    ensures eras { (most : ℕ) → IfGoesOn result (HasErasAt most run.new) }
    ensures asks { result ≡ Ok (Some Stop.NoMemory) → first_refusal end.dump.files ≡ None }
    ensures state { Begins end.setup end.dump run.new result }
    ensures cause { HasCause (K.faults sink.old) (K.faults sink.new) result }
{
    let DumpEnd { setup, dump } = end;
    dump.is_dump(); // a fact for the proof
    let files = dump.files.as_slice();
    if let Some((k, fault)) = first_refusal(files) {
        let line = dump_refused_line(dump.version, k, &fault);
        return tell(writer, sink, line.as_slice(), Stop::Refused);
    }
    let Ok(replayer) = Replayer::begin(alloc, setup, dump) else {
        return Ok(Some(Stop::NoMemory));
    };
    *run = Run::Body(replayer);
    match writer.write(sink, accepted_line()) {
        Ok(()) => Ok(None),
        Err(failed) => Err(failed),
    }
}

// Does a command and writes what it says. Its lines are formed behind the bytes that wait, once there is room for them. It
// returns a stop if memory is refused.
fn do_command<R: Threads + Wait + Sync, K: Sink, G: Gate>(
    resources: &Resources<'_, R, G>,
    replayer: &mut Replayer,
    c: &Command,
    writer: &mut Writer,
    sink: &mut K,
) -> Result<Option<Stop>, Failed>
    requires fits { Fits replayer.old.now c.now }
    requires room { HasEraRoom replayer.old.machine }
    ensures bytes { CarriesOut (change replayer.old replayer.new) c.now (change writer.old writer.new) (port K.taken sink.old sink.new) result }
    ensures asks { (stop : Stop) → result ≡ Ok (Some stop) → AsksForMemory replayer.old.machine c.now }
    ensures cause { HasCause (K.faults sink.old) (K.faults sink.new) result }
{
    match writer.make_room(sink, REPORT_ROOM) {
        Ok(()) => match replayer.run(resources.caller, resources.alloc, c, writer) {
            Ok(()) => Ok(None),
            Err(_) => Ok(Some(Stop::NoMemory)),
        },
        Err(failed) => Err(failed),
    }
}

// Takes a line behind the dump's end.
#[inline(always)]
fn take_command<R: Threads + Wait + Sync, K: Sink, G: Gate>(
    resources: &Resources<'_, R, G>,
    replayer: &mut Replayer,
    line: &Line<'_>,
    writer: &mut Writer,
    sink: &mut K,
) -> Result<Option<Stop>, Failed>
    requires { HasEraRoom replayer.old.machine }
    ensures bytes { (came : Bool) (so_far : List ℕ) → HasOutput (Run.Body replayer.old) came so_far →
        Takes (StandsAt (Run.Body replayer.new)) (line_at came so_far line.now.number line.now.bytes.now (in_body replayer.old))
        (change writer.old writer.new) (port K.taken sink.old sink.new) result }
    ensures eras { (most : ℕ) → HasEras most replayer.old → IfGoesOn result (HasEras (most + 1) replayer.new) }
    ensures asks { result ≡ Ok (Some Stop.NoMemory) → AsksAt (in_body replayer.old) line.now.number line.now.bytes.now }
    ensures last { Lasts line.now.number line.now.bytes.now (in_body replayer.old) (Run.Body replayer.new) result }
    ensures cause { HasCause (K.faults sink.old) (K.faults sink.new) result }
{
    replayer.is_replay_state(); // a fact for the proof
    match read_command(line, replayer.setup()) {
        Ok(command) => do_command(resources, replayer, &command, writer, sink),
        Err(fault) => tell_offence(writer, sink, &Offence::Script(fault)),
    }
}

// Takes a line, wherever the run stands. It is apart from `take_line`, because a dump's 10 KB would be cleared for each line of a script.
#[inline(never)]
fn take_anywhere<R: Threads + Wait + Sync, K: Sink, G: Gate>(
    resources: &Resources<'_, R, G>,
    run: &mut Run,
    line: &Line<'_>,
    writer: &mut Writer,
    sink: &mut K,
) -> Result<Option<Stop>, Failed>
    requires { HasEraRoomAt run.old }
    ensures bytes { (came : Bool) (so_far : List ℕ) (was : ScriptState) → IsAt run.old was → HasOutput run.old came so_far →
        Takes (StandsAt run.new) (line_at came so_far line.now.number line.now.bytes.now was) (change writer.old writer.new) (port K.taken sink.old sink.new) result }
    ensures eras { (most : ℕ) → HasErasAt most run.old → IfGoesOn result (HasErasAt (most + 1) run.new) }
    ensures asks { (was : ScriptState) → IsAt run.old was → result ≡ Ok (Some Stop.NoMemory) → AsksAt was line.now.number line.now.bytes.now }
    ensures last { (was : ScriptState) → IsAt run.old was → Lasts line.now.number line.now.bytes.now was run.new result }
    ensures cause { HasCause (K.faults sink.old) (K.faults sink.new) result }
{
    let head = match run {
        Run::Head(head) => head,
        Run::Body(replayer) => return take_command(resources, replayer, line, writer, sink),
    };
    match head.take(line) {
        Ok(None) => Ok(None),
        Ok(Some(dump)) => {
            let setup = mem::replace(&mut head.setup, Setup::new());
            begin(resources.alloc, run, DumpEnd { setup, dump }, writer, sink)
        }
        Err(offence) => tell_offence(writer, sink, &offence),
    }
}

/// Takes a line. It returns a stop if the replay ends with it.
pub(crate) fn take_line<R: Threads + Wait + Sync, K: Sink, G: Gate>(
    resources: &Resources<'_, R, G>,
    run: &mut Run,
    line: &Line<'_>,
    writer: &mut Writer,
    sink: &mut K,
) -> Result<Option<Stop>, Failed>
    requires { HasEraRoomAt run.old }
    ensures bytes { (came : Bool) (so_far : List ℕ) (was : ScriptState) → IsAt run.old was → HasOutput run.old came so_far →
        Takes (StandsAt run.new) (line_at came so_far line.now.number line.now.bytes.now was) (change writer.old writer.new) (port K.taken sink.old sink.new) result }
    ensures eras { (most : ℕ) → HasErasAt most run.old → IfGoesOn result (HasErasAt (most + 1) run.new) }
    ensures asks { (was : ScriptState) → IsAt run.old was → result ≡ Ok (Some Stop.NoMemory) → AsksAt was line.now.number line.now.bytes.now }
    ensures last { (was : ScriptState) → IsAt run.old was → Lasts line.now.number line.now.bytes.now was run.new result }
    ensures cause { HasCause (K.faults sink.old) (K.faults sink.new) result }
{
    match run {
        Run::Body(replayer) => take_command(resources, replayer, line, writer, sink),
        Run::Head(_) => take_anywhere(resources, run, line, writer, sink),
    }
}
