ghost use Rattle.std.specs.Prelude.{◌≡◌, ◌≢◌, ◌≤◌, ◌<◌, ◌+◌, ◌-◌, ◌^◌, ◌↔◌, ◌⊎◌, ℕ, List, [], true, length, None, Ok, Some};
ghost use Rattle.mt_ports.specs.Causes.{HasCause};
ghost use Rattle.mt_output.specs.Lines.{bad_text};
ghost use Rattle.mt_output.specs.Writing.{Adds};
ghost use Rattle.mt_regs.specs.Faults.{IsAccepted};
ghost use Rattle.mt_regs.specs.Agreement.{first_refusal};
ghost use Rattle.mt_dump.specs.ForProcessors.{files_for, has_each};
ghost use Rattle.mt_machine.specs.Machine.{Machine};
ghost use Rattle.mt_stream.specs.Handling.{Taken};
ghost use Rattle.mt_stream.specs.Lines.{AtLine, IfGoesOn, Path, Takes, at_line};
ghost use Rattle.mt_output.specs.Ports.{change, port, sink_run, source_run};
ghost use Rattle.mt_proc.specs.After.{era_line};
ghost use Rattle.mt_proc.specs.Listing.{listing};
ghost use Rattle.mt_proc.specs.Proc.{RequestState, begins, no_end, of_request, reason_text, request_fault_line};
ghost use Rattle.mt_proc.specs.Requests.{request_of};
ghost use Rattle.mt_proc.specs.Running.{AllServe, AsksAt, HasCount, HasCpus, HasRoom, IsAt, IsDump, IsProc, LeadsBy, StandsAt, proc_running};
ghost use Rattle.mt_proc.specs.Serving.{idling, served};

use crate::listing::line_of;
use crate::{ProcFault, ProcReason, Processors, read_request};
use arrayvec::ArrayVec;
use mt_dump::{Dump, DumpReader};
use mt_output::{LineBuffer, Writer, append, append_decimal, bad_text, dump_refused_line};
use mt_ports::{Failed, Gate, Sink, Source, Status};
use mt_regs::{RegFile, first_refusal};
use mt_rendezvous::Caller;
use mt_script::{Offence, ScriptFault, ScriptReason, offence_line, take_dump_line};
use mt_stream::{End, LineRun, Stop, close, run_lines, run_status, tell};
use mt_text::{Line, Place};
use std::alloc::Global;
use std::sync::Wait;
use std::thread::Threads;

/// A run between two lines: up to the dump's end, or behind it.
#[derive(Drop)]
pub(crate) enum Run {
    Dump(DumpReader),
    Requests(Processors),
}

/// A run on so many processors.
#[derive(Drop)]
pub(crate) struct ProcRun {
    cpus: u32,
    run: Run,
}

fn reason_text(reason: ProcReason) -> &'static [u8]
    ensures text { result.now ≡ reason_text reason }
    ensures short { length result.now ≤ 20 }
{
    match reason {
        ProcReason::BadLine => b"bad line",
        ProcReason::BadNumber => b"bad number",
        ProcReason::UnknownType => b"unknown type",
    }
}

// The line about an offence of a request line.
fn request_fault_line(fault: &ProcFault) -> LineBuffer
    ensures { result.items ≡ request_fault_line fault.now }
{
    bad_text(fault.place, reason_text(fault.reason))
}

// Goes on behind the dump's end, where each of its files is accepted.
fn begin<K: Sink>(
    alloc: Global,
    cpus: u32,
    run: &mut Run,
    dump: &Dump,
    writer: &mut Writer,
    sink: &mut K,
) -> Result<Option<Stop>, Failed>
    requires some { 0 < cpus }
    requires few { cpus ≤ 16 }
    requires dump { IsDump run.old }
    requires each { has_each cpus dump.now ≡ true }
    ensures bytes { (here : AtLine) → LeadsBy cpus here (begins dump.now (first_refusal dump.now.files))
        → Takes (StandsAt cpus run.new) (record here { so_far = [] }) (change writer.old writer.new) (port K.taken sink.old sink.new) result }
    ensures asks { result ≡ Ok (Some Stop.NoMemory) → first_refusal dump.now.files ≡ None }
    ensures starts { (m : Machine) → run.new ≡ Run.Requests m → m ≡ idling (files_for cpus dump.now) 0 }
    ensures counts { (most : ℕ) → IfGoesOn result (HasCount most run.new) }
    ensures cause { HasCause (K.faults sink.old) (K.faults sink.new) result }
{
    dump.is_dump(); // a fact for the proof
    if let Some((k, fault)) = first_refusal(dump.files.as_slice()) {
        let line = dump_refused_line(dump.version, k, &fault);
        return tell(writer, sink, line.as_slice(), Stop::Refused);
    }
    let files = dump.files_for(cpus);
    let Ok(processors) = Processors::new(alloc, files.as_slice()) else {
        return Ok(Some(Stop::NoMemory));
    };
    *run = Run::Requests(processors);
    Ok(None)
}

// Takes a line behind the dump's end.
fn take_request<R: Threads + Wait + Sync, K: Sink, G: Gate>(
    caller: &Caller<R, G>,
    alloc: Global,
    processors: &mut Processors,
    line: &Line<'_>,
    writer: &mut Writer,
    sink: &mut K,
) -> Result<Option<Stop>, Failed>
    requires { (served processors.old).count < 2 ^ 64 - 1 }
    ensures bytes { (cpus : ℕ) (here : AtLine) → AllServe cpus (Run.Requests processors.old)
        → LeadsBy cpus here (of_request (served processors.old) (request_of line.now.number line.now.bytes.now))
        → Takes (StandsAt cpus (Run.Requests processors.new)) here (change writer.old writer.new) (port K.taken sink.old sink.new) result }
    ensures asks { result ≢ Ok (Some Stop.NoMemory) }
    ensures counts { (most : ℕ) → (served processors.old).count ≤ most → IfGoesOn result ((served processors.new).count ≤ most + 1) }
    ensures cause { HasCause (K.faults sink.old) (K.faults sink.new) result }
{
    match read_request(line) {
        Ok(None) => Ok(None),
        Ok(Some(request)) => {
            let answer = processors.ask(caller, alloc, &request);
            match writer.write(sink, answer.as_slice()) {
                Ok(()) => Ok(None),
                Err(failed) => Err(failed),
            }
        }
        Err(fault) => tell(
            writer,
            sink,
            request_fault_line(&fault).as_slice(),
            Stop::BadText,
        ),
    }
}

// Takes a line. It returns a stop if the run ends with it.
fn take_line<R: Threads + Wait + Sync, K: Sink, G: Gate>(
    caller: &Caller<R, G>,
    alloc: Global,
    cpus: u32,
    run: &mut Run,
    line: &Line<'_>,
    writer: &mut Writer,
    sink: &mut K,
) -> Result<Option<Stop>, Failed>
    requires some { 0 < cpus }
    requires few { cpus ≤ 16 }
    requires room { HasRoom run.old }
    ensures bytes { (so_far : List ℕ) (was : Path) → StandsAt cpus run.old so_far was →
        Takes (StandsAt cpus run.new) (at_line line.now.number line.now.bytes.now so_far was) (change writer.old writer.new) (port K.taken sink.old sink.new) result }
    ensures asks { (p : RequestState) → IsAt run.old p → result ≡ Ok (Some Stop.NoMemory) → AsksAt cpus p line.now.number line.now.bytes.now }
    ensures counts { (most : ℕ) → HasCount most run.old → IfGoesOn result (HasCount (most + 1) run.new) }
    ensures cause { HasCause (K.faults sink.old) (K.faults sink.new) result }
{
    let reader = match run {
        Run::Dump(reader) => reader,
        Run::Requests(processors) => {
            return take_request(caller, alloc, processors, line, writer, sink);
        }
    };
    match take_dump_line(reader, cpus, line) {
        Ok(None) => Ok(None),
        Ok(Some(dump)) => begin(alloc, cpus, run, &dump, writer, sink),
        Err(offence) => tell(
            writer,
            sink,
            offence_line(&offence).as_slice(),
            Stop::BadText,
        ),
    }
}

// Writes the lines of the valid pairs.
fn write_listing<K: Sink>(file: &RegFile, writer: &mut Writer, sink: &mut K) -> Result<(), Failed>
    requires { IsAccepted file.now }
    ensures bytes { Adds (listing file.now) (change writer.old writer.new) (port K.taken sink.old sink.new) result }
    ensures cause { HasCause (K.faults sink.old) (K.faults sink.new) result }
{
    'pairs: for n in 0..file.pairs.len() {
        let line = line_of(file, n as u32);
        match writer.write(sink, line.as_slice()) {
            Ok(()) => {}
            Err(failed) => return Err(failed),
        }
    }
    Ok(())
}

fn era_line(count: u64) -> LineBuffer
    ensures { result.items ≡ era_line count }
{
    let mut line = ArrayVec::new();
    append(&mut line, b"era ");
    append_decimal(&mut line, count);
    append(&mut line, b"\n");
    line
}

// The fault of a text that ends before the dump does.
fn no_end(at: Place) -> Offence
    ensures { result ≡ no_end at }
{
    Offence::Script(ScriptFault {
        reason: ScriptReason::NoEnd,
        place: at,
    })
}

impl LineRun for ProcRun {
    ghost use Rattle.mt_proc.specs.Proc.{from_point};
    ghost use Rattle.mt_proc.specs.Running.{AsksAt, HasCount, HasCpus, StandsAt, end_of_run};
    ghost use Rattle.mt_stream.specs.Results.{AsksBy};

    ghost at = { λ now. StandsAt now.cpus now.run };

    ghost ends = { λ now. end_of_run now.run };

    ghost asks = { λ now. AsksBy (from_point now.cpus) (AsksAt now.cpus) };

    ghost ready = { λ most now. HasCount most now.run × HasCpus now };

    fn write_end<K: Sink>(
        &self,
        end: Place,
        writer: &mut Writer,
        sink: &mut K,
    ) -> Result<End, Failed> {
        let processors = match &self.run {
            Run::Dump(_) => {
                let line = offence_line(&no_end(end));
                return close(writer, sink, line.as_slice(), End::BadText);
            }
            Run::Requests(processors) => processors,
        };
        processors.serve(); // a fact for the proof
        match write_listing(processors.file(), writer, sink) {
            Ok(()) => close(
                writer,
                sink,
                era_line(processors.count()).as_slice(),
                End::Done,
            ),
            Err(failed) => Err(failed),
        }
    }
}

/// Does what `proc` does, for a caller with a runtime and a gate.
#[inline(never)] // so that other commands need no stack for it
pub fn proc_with<R: Threads + Wait + Sync, S: Source, K: Sink, G: Gate>(
    caller: &Caller<R, G>,
    alloc: Global,
    source: &mut S,
    sink: &mut K,
    cpus: u32,
) -> Status
    requires some { 0 < cpus }
    requires few { cpus ≤ 16 }
    ensures { IsProc cpus (source_run S.left S.faults S.given source.old source.new) (sink_run K.taken K.faults sink.old sink.new) result }
{
    let Ok(mut writer) = Writer::new(alloc) else {
        return Status::NoMemory;
    };
    let mut run = ProcRun {
        cpus,
        run: Run::Dump(DumpReader::new()),
    };
    let take = |run: &mut ProcRun, line: &Line<'_>, writer: &mut Writer, sink: &mut K|
        requires { HasRoom run.old.run × HasCpus run.old }
        ensures { Taken proc_running (record {
          line = line.now;
          run = change run.old run.new;
          writer = change writer.old writer.new;
          sink = port K.taken sink.old sink.new;
          faults = change (K.faults sink.old) (K.faults sink.new);
        }) result }
    { take_line(caller, alloc, run.cpus, &mut run.run, line, writer, sink) };
    run_status(run_lines(take, &mut run, source, &mut writer, sink))
}

/// Reads a dump, a line `end` and requests in the form of Linux's mtrr document. Carries each request out on so many
/// processors, which begin with the dump's files. Writes what became of each, and at the end the ranges of the valid
/// pairs and the number of requests that were carried out. The output for all lines read so far is written before the
/// source is asked for more. The rest behind an offence or a refused dump is dropped. At ReadFault the output for the
/// complete lines read so far has been written, at NoMemory nothing, at each other fault a prefix. Memory is allocated
/// before the first line and at the dump's end. An update runs each processor on a thread of its own. It runs all on
/// this one if an allocation fails, a thread isn't started or the gate returns false.
pub fn proc<R: AllocGlobal + Threads + Wait + Sync, S: Source, K: Sink, G: Gate>(
    rt: &R,
    source: &mut S,
    sink: &mut K,
    gate: &G,
    cpus: u32,
) -> Status
    requires some { 0 < cpus }
    requires few { cpus ≤ 16 }
    ensures { IsProc cpus (source_run S.left S.faults S.given source.old source.new) (sink_run K.taken K.faults sink.old sink.new) result }
{
    proc_with(&Caller::of(rt, gate), rt.alloc(), source, sink, cpus)
}
