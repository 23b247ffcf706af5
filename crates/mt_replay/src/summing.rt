ghost use Rattle.std.specs.Prelude.{◌≡◌, ◌<◌, ◌≤◌, ◌%◌, ◌^◌, [], Some, IfOk, ◌++◌, sum, List, ℕ};
ghost use Rattle.mt_machine.specs.Memory.{Memory};
ghost use Rattle.mt_replay.specs.Summary.{begins_with, is_complete, memory_sum, summary, value_in};
ghost use Rattle.mt_replay.specs.Summing.{state_in, with_line, with_memory, with_text};

use crate::line::{Resources, Run, take_line};
use mt_output::Writer;
use mt_ports::{Failed, Gate, NoMemory, Sink};
use mt_ram::Ram;
use mt_rendezvous::Caller;
use mt_script::{Head, Offence, offence_line, read_end};
use mt_stream::Stop;
use mt_text::{Lines, end_place, hex64};
use std::alloc::Global;
use std::sync::Wait;
use std::thread::Threads;

/// The numbers of a script's transcript.
#[derive(Clone, Copy, Debug, PartialEq, Eq)]
pub struct Totals {
    /// How many lines it has; `u64::MAX` where there are more.
    pub lines: u64,
    /// How many of its lines say `complete`.
    pub updates: u64,
    /// The sum of the values in its `value` lines, modulo 2^64.
    pub values: u64,
    /// The sum of memory's words in the last state, modulo 2^64; 0 where no dump was accepted.
    pub memory: u64,
}

const NO_TOTALS: Totals = Totals {
    lines: 0,
    updates: 0,
    values: 0,
    memory: 0,
};

// A sink that takes nothing: what a line writes waits in the writer, where it is counted.
#[derive(Drop)]
struct NoSink {
    faults: u64,
}

impl Sink for NoSink {
    ghost use Rattle.std.specs.Prelude.{Some, [], ◌≤◌, ◌<◌, length, IfOk};
    ghost use Rattle.std.specs.Io.KnownBytes.{WriteAppends};
    ghost use Rattle.mt_ports.specs.Causes.{HasCause};

    ghost taken = { λ s. Some [] };

    ghost faults = { λ s. s.faults };

    fn give(&mut self, from: &[u8]) -> Result<usize, Failed> {
        let _ = from;
        self.faults = self.faults.saturating_add(1);
        Err(Failed)
    }
}

fn is_complete(line: &[u8]) -> bool
    ensures { result ≡ is_complete line.now }
{
    line.starts_with(b"complete ")
}

// The value of a `value` line; 0 of any other line.
fn value_in(line: &[u8]) -> u64
    ensures { result ≡ value_in line.now }
{
    let Some(behind) = line.strip_prefix(b"value ") else {
        return 0;
    };
    let digits = &behind[..behind.len().min(16)];
    match hex64(digits) {
        Ok(value) => value,
        Err(_) => 0,
    }
}

// The numbers with one line more.
fn with_line(totals: &Totals, line: &[u8]) -> Totals
    ensures { result ≡ with_line totals.now line.now }
{
    let completed = if is_complete(line) { 1 } else { 0 };
    Totals {
        lines: totals.lines.saturating_add(1),
        updates: totals.updates.wrapping_add(completed),
        values: totals.values.wrapping_add(value_in(line)),
        memory: totals.memory,
    }
}

// Adds the lines of a text.
fn add_text(totals: &mut Totals, text: &[u8])
    ensures { totals.new ≡ with_text totals.old text.now }
{
    let mut lines = Lines::of(text);
    'lines: while let Some(line) = lines.next_line() {
        *totals = with_line(totals, line.bytes);
    }
}

// Adds the text that waits, and lets go of it.
fn add_waiting(totals: &mut Totals, writer: &mut Writer)
    ensures totals { totals.new ≡ with_text totals.old writer.old }
    ensures waiting { writer.new ≡ [] }
{
    add_text(totals, writer.waiting());
    writer.clear();
}

// The sum of memory's words, modulo 2^64.
fn word_sum(ram: &Ram) -> u64
    ensures { result ≡ sum ram.now.words % 2 ^ 64 }
{
    let mut total = 0u64;
    'words: for i in 0..ram.words() {
        total = total.wrapping_add(ram.word(i));
    }
    total
}

fn memory_sum(run: &Run) -> u64
    ensures { result ≡ memory_sum (state_in run.now) % 2 ^ 64 }
{
    match run {
        Run::Head(_) => 0,
        Run::Body(replayer) => word_sum(replayer.ram()),
    }
}

// The numbers of a transcript, with the words of its last state.
fn with_memory(totals: &Totals, run: &Run) -> Totals
    ensures { result ≡ with_memory totals.now (state_in run.now) }
{
    Totals {
        memory: memory_sum(run),
        ..*totals
    }
}

// Runs the lines of a text to their end, to an offence or to a refused dump.
fn sum_lines<R: Threads + Wait + Sync, G: Gate>(
    resources: &Resources<'_, R, G>,
    source: &[u8],
    writer: &mut Writer,
) -> Result<Totals, NoMemory>
    requires { writer.old ≡ [] }
    ensures { IfOk result (λ totals. totals ≡ summary source.now) }
{
    let mut totals = NO_TOTALS;
    let mut sink = NoSink { faults: 0 };
    let mut run = Run::Head(Head::new());
    let mut lines = Lines::of(source);
    'lines: while let Some(line) = lines.next_line() {
        match take_line(resources, &mut run, &line, writer, &mut sink) {
            Ok(None) => add_waiting(&mut totals, writer),
            Ok(Some(stop)) => {
                if stop == Stop::NoMemory {
                    return Err(NoMemory);
                }
                add_waiting(&mut totals, writer);
                return Ok(with_memory(&totals, &run));
            }
            // Never: nothing waits before a line, and the writer has room for all that one writes, so the sink isn't asked.
            Err(_) => return Err(NoMemory),
        }
    }
    if let Err(fault) = read_end(run.setup(), end_place(source)) {
        let line = offence_line(&Offence::Script(fault));
        add_text(&mut totals, line.as_slice());
    }
    Ok(with_memory(&totals, &run))
}

/// Does what `summary` does, for a caller with a runtime and a gate.
pub fn summary_with<R: Threads + Wait + Sync, G: Gate>(
    caller: &Caller<R, G>,
    alloc: Global,
    source: &[u8],
) -> Result<Totals, NoMemory>
    ensures { IfOk result (λ totals. totals ≡ summary source.now) }
{
    let mut writer = Writer::new(alloc)?;
    let resources = Resources { caller, alloc };
    sum_lines(&resources, source, &mut writer)
}

/// The numbers of a script's transcript, which isn't written. The script is run as by `replay`, however long it is.
/// Fails only if an allocation fails.
pub fn summary<R: AllocGlobal + Threads + Wait + Sync, G: Gate>(
    rt: &R,
    source: &[u8],
    gate: &G,
) -> Result<Totals, NoMemory>
    ensures { IfOk result (λ totals. totals ≡ summary source.now) }
{
    summary_with(&Caller::of(rt, gate), rt.alloc(), source)
}
