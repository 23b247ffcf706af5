// Commands that sum what threads load.
ghost use Rattle.std.specs.Prelude.{◌≡◌, ◌≤◌};
ghost use Rattle.mt_ports.specs.Causes.{StatusHasCause};
ghost use Rattle.mt_answers.specs.Written.{Makes};
ghost use Rattle.mt_cli.specs.Measured.{measured_text};
ghost use Rattle.mt_cli.specs.Output.{big_text, summary_text};

use crate::measured::measured_text;
use arrayvec::ArrayVec;
use mt_answers::make_text;
use mt_output::{LineBuffer, append, append_decimal, append_value, written};
use mt_ports::{Gate, Sink, Status};
use mt_replay::{Totals, summary_with};
use std::alloc::Global;
use std::sync::Wait;
use std::thread::Threads;

/// The four lines with the numbers of a transcript.
pub fn summary_text(totals: &Totals) -> LineBuffer
    ensures { result.items ≡ summary_text totals.now }
{
    let mut text = ArrayVec::new();
    append(&mut text, b"lines ");
    append_decimal(&mut text, totals.lines);
    append(&mut text, b"\nupdates ");
    append_decimal(&mut text, totals.updates);
    append(&mut text, b"\nvalues ");
    append_value(&mut text, totals.values);
    append(&mut text, b"\nmemory ");
    append_value(&mut text, totals.memory);
    append(&mut text, b"\n");
    text
}

/// Writes the numbers of the transcript of the text for measurements, which is run as a script.
#[inline(never)] // so that other commands need no stack for it
pub fn big<R: Threads + Wait + Sync, K: Sink, G: Gate>(
    caller: &mt_rendezvous::Caller<R, G>,
    alloc: Global,
    n: u64,
    sink: &mut K,
) -> Status
    ensures bytes { Makes (big_text n) (K.taken sink.old) (K.taken sink.new) result }
    ensures cause { StatusHasCause Status.WriteFault (K.faults sink.old) (K.faults sink.new) result }
{
    let Ok(text) = make_text(alloc, n) else {
        return Status::NoMemory;
    };
    match summary_with(caller, alloc, text.as_slice()) {
        Ok(totals) => written(sink, summary_text(&totals).as_slice(), Status::Done),
        Err(_) => Status::NoMemory,
    }
}

/// Writes what the jobs sum to that three numbers determine.
#[inline(never)] // so that other commands need no stack for it
pub fn private<R: Threads + Wait + Sync, K: Sink, G: Gate>(
    caller: &mt_private::Caller<R, G>,
    alloc: Global,
    cpus: u32,
    n: u64,
    accesses: u32,
    sink: &mut K,
) -> Status
    requires some { 1 ≤ cpus }
    requires few { cpus ≤ 16 }
    ensures bytes { Makes (measured_text cpus n accesses) (K.taken sink.old) (K.taken sink.new) result }
    ensures cause { StatusHasCause Status.WriteFault (K.faults sink.old) (K.faults sink.new) result }
{
    match measured_text(caller, alloc, cpus, n, accesses) {
        Ok(text) => written(sink, text.as_slice(), Status::Done),
        Err(_) => Status::NoMemory,
    }
}
