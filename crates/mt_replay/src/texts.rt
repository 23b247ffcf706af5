ghost use Rattle.std.specs.Prelude.{◌≡◌, ◌≤◌, ◌<◌, ◌+◌, ◌++◌, codes, length, decimal, nat_lt};
ghost use Rattle.mt_dump.specs.Canon.{number_text};
ghost use Rattle.std.specs.List.{count_by, list_all};
ghost use Rattle.arrayvec.specs.ArrayVec.{array_vec_len};
ghost use Rattle.mt_cache.specs.Lines.{eight, is_dirty};
ghost use Rattle.mt_machine.specs.Update.{dirty_count};
ghost use Rattle.mt_output.specs.Lines.{address_text, line};
ghost use Rattle.mt_regs.specs.declared.fault.Fault.{Fault};
ghost use Rattle.mt_regs.specs.RegisterFile.{RegisterFile};
ghost use Rattle.mt_replay.specs.Texts.{call_fault_line, called_line, cancel_line, complete_line, done_line, go_line, have_one_file, is_same_file, joined_line, memory_line, number_at, phase_text, processor_line, register_line, registers_line, retired_line, ruled_line, stale_count, stepped_line, switch_text, under_way_line, up_line};
ghost use Rattle.mt_regs.specs.Registers.{HasThreeDigits};

use arrayvec::ArrayVec;
use mt_cache::{Cache, CacheLine};
use mt_core::{CallFault, Stepped};
use mt_cpu::Cpu;
use mt_dump::{number_text, value_text};
use mt_kinds::{MemType, is_bit_set};
use mt_machine::{Done, Event, Phase, Ruled};
use mt_output::{
    LINE_ROOM, LineBuffer, WRITER_ROOM, Writer, append, append_decimal, append_number,
    append_value, refused_line,
};
use mt_regs::{RegFile, Register};
use mt_tlb::Entry;

// A line of one text.
fn text_line(text: &[u8]) -> LineBuffer
    requires { length text.now ≤ 32 }
    ensures { result.items ≡ line text.now }
{
    let mut line = ArrayVec::new();
    append(&mut line, text);
    append(&mut line, b"\n");
    line
}

fn value_line(value: u64, kind: MemType) -> [u8; 26]
    ensures { result ≡ done_line (Done.Value value kind) }
{
    let mut line = *b"value 0000000000000000 UC\n";
    line[23..25].copy_from_slice(kind.name().as_bytes());
    line[6..22].copy_from_slice(&value_text(value));
    line
}

fn stored_line(kind: MemType) -> [u8; 10]
    ensures { result ≡ done_line (Done.Stored kind) }
{
    let mut line = *b"stored UC\n";
    line[7..9].copy_from_slice(kind.name().as_bytes());
    line
}

/// Adds what an access is answered.
pub(crate) fn append_done(writer: &mut Writer, done: &Done)
    requires { length writer.old + LINE_ROOM ≤ WRITER_ROOM }
    ensures { writer.new ≡ writer.old ++ done_line done.now }
{
    match *done {
        Done::Value(value, kind) => writer.append(&value_line(value, kind)),
        Done::Stored(kind) => writer.append(&stored_line(kind)),
        Done::Fenced => writer.append(b"fenced\n"),
        Done::Unmapped => writer.append(b"unmapped\n"),
        Done::NoRam => writer.append(b"no ram\n"),
        Done::Busy => writer.append(b"busy\n"),
    }
}

/// Adds what a control instruction is answered.
pub(crate) fn append_ruled(writer: &mut Writer, ruled: &Ruled)
    requires { length writer.old + LINE_ROOM ≤ WRITER_ROOM }
    ensures { writer.new ≡ writer.old ++ ruled_line ruled.now }
{
    match ruled {
        Ruled::Okay => writer.append(b"ok\n"),
        Ruled::Full => writer.append(b"full\n"),
        Ruled::Busy => writer.append(b"busy\n"),
    }
}

/// An update is complete, and the processors now have this era.
pub(crate) fn complete_line(era: u64) -> LineBuffer
    ensures { result.items ≡ complete_line era }
{
    let mut line = ArrayVec::new();
    append(&mut line, b"complete ");
    append_decimal(&mut line, era);
    append(&mut line, b"\n");
    line
}

/// An update is called.
pub(crate) fn called_line() -> LineBuffer
    ensures { result.items ≡ called_line }
{
    text_line(b"called")
}

/// An update isn't begun.
pub(crate) fn call_fault_line(fault: &CallFault) -> LineBuffer
    requires { (own : Fault) → fault.now ≡ CallFault.Refused own → HasThreeDigits own.msr }
    ensures { result.items ≡ call_fault_line fault.now }
{
    match fault {
        CallFault::Refused(own) => refused_line(own),
        CallFault::UnderWay => under_way_line(),
    }
}

/// Whether the go is given.
pub(crate) fn go_line(is_given: bool) -> LineBuffer
    ensures { result.items ≡ go_line is_given }
{
    text_line(if is_given { b"go" } else { b"no" })
}

/// Whether an update is cancelled.
pub(crate) fn cancel_line(is_cancelled: bool) -> LineBuffer
    ensures { result.items ≡ cancel_line is_cancelled }
{
    if is_cancelled {
        text_line(b"cancelled")
    } else {
        text_line(b"no")
    }
}

// A line of a text and a number.
fn numbered_line(text: &[u8], number: u32) -> LineBuffer
    requires { length text.now ≤ 32 }
    ensures { result.items ≡ line (text.now ++ decimal number) }
{
    let mut line = ArrayVec::new();
    append(&mut line, text);
    append_decimal(&mut line, number as u64);
    append(&mut line, b"\n");
    line
}

/// A processor came up.
pub(crate) fn up_line(k: u32) -> LineBuffer
    ensures { result.items ≡ up_line k }
{
    numbered_line(b"up ", k)
}

/// A processor was admitted.
pub(crate) fn joined_line(k: u32) -> LineBuffer
    ensures { result.items ≡ joined_line k }
{
    numbered_line(b"joined ", k)
}

/// A processor was retired.
pub(crate) fn retired_line(k: u32) -> LineBuffer
    ensures { result.items ≡ retired_line k }
{
    numbered_line(b"retired ", k)
}

/// An update is under way.
pub(crate) fn under_way_line() -> LineBuffer
    ensures { result.items ≡ under_way_line }
{
    text_line(b"under way")
}

// The number of the writable register at a place.
fn number_at(f: &RegFile, i: u32) -> u32
    ensures number { result ≡ number_at f.now i }
    ensures short { HasThreeDigits result }
{
    let register = f.register_at(i).unwrap_or(Register::DefaultType);
    register.number()
}

// The line of a word that was written back from this address.
fn written_back_line(address: u64) -> [u8; 25]
    ensures { result ≡ line (codes "write-back " ++ address_text address) }
{
    let mut line = *b"write-back 0000000000000\n";
    line[11..24].copy_from_slice(&value_text(address)[3..]);
    line
}

// The line of a register of this number that was written.
fn written_line(number: u32) -> [u8; 10]
    requires { HasThreeDigits number }
    ensures { result ≡ line (codes "write " ++ number_text number) }
{
    let mut line = *b"write 000\n";
    line[6..9].copy_from_slice(&number_text(number));
    line
}

// Adds what an event did. A processor with this file did it.
fn append_event(writer: &mut Writer, f: &RegFile, event: Event)
    requires { length writer.old + LINE_ROOM ≤ WRITER_ROOM }
    ensures { writer.new ≡ writer.old ++ stepped_line f.now (Stepped.Did event) }
{
    match event {
        Event::Take => writer.append(b"take\n"),
        Event::Arrive => writer.append(b"arrive\n"),
        Event::Leave => writer.append(b"leave\n"),
        Event::Pass => writer.append(b"pass\n"),
        Event::SetNoFill => writer.append(b"no-fill\n"),
        Event::WriteBack { address, .. } => writer.append(&written_back_line(address)),
        Event::DropLines => writer.append(b"drop\n"),
        Event::FlushTlb => writer.append(b"flush-tlb\n"),
        Event::Disable => writer.append(b"disable\n"),
        Event::Write(i) => writer.append(&written_line(number_at(f, i))),
        Event::Enable => writer.append(b"enable\n"),
        Event::SetNormal => writer.append(b"normal\n"),
        Event::RestorePge => writer.append(b"restore\n"),
        Event::ArriveAgain => writer.append(b"arrive-again\n"),
        Event::Release => writer.append(b"release\n"),
    }
}

fn waits_line(arrived: u32, awaited: u32) -> LineBuffer
    ensures { (f : RegisterFile) → result.items ≡ stepped_line f (Stepped.Waits arrived awaited) }
{
    let mut line = ArrayVec::new();
    append(&mut line, b"waits ");
    append_decimal(&mut line, arrived as u64);
    append(&mut line, b" of ");
    append_decimal(&mut line, awaited as u64);
    append(&mut line, b"\n");
    line
}

#[inline(never)]
fn append_waits(writer: &mut Writer, arrived: u32, awaited: u32)
    requires { length writer.old + LINE_ROOM ≤ WRITER_ROOM }
    ensures { (f : RegisterFile) → writer.new ≡ writer.old ++ stepped_line f (Stepped.Waits arrived awaited) }
{
    writer.append(waits_line(arrived, awaited).as_slice());
}

/// Adds what a step of a processor with this file did.
pub(crate) fn append_stepped(writer: &mut Writer, f: &RegFile, stepped: &Stepped)
    requires { length writer.old + LINE_ROOM ≤ WRITER_ROOM }
    ensures { writer.new ≡ writer.old ++ stepped_line f.now stepped.now }
{
    match *stepped {
        Stepped::Did(event) => append_event(writer, f, event),
        Stepped::Waits { arrived, of } => append_waits(writer, arrived, of),
        Stepped::NoUpdate => writer.append(b"no update\n"),
    }
}

/// Memory's own word, where there is memory.
pub(crate) fn memory_line(word: Option<u64>) -> LineBuffer
    ensures { result.items ≡ memory_line word }
{
    let Some(value) = word else {
        return text_line(b"no ram");
    };
    let mut line = ArrayVec::new();
    append(&mut line, b"memory ");
    append_value(&mut line, value);
    append(&mut line, b"\n");
    line
}

/// A register's number and value.
pub(crate) fn register_line(number: u32, value: u64) -> LineBuffer
    requires { HasThreeDigits number }
    ensures { result.items ≡ register_line number value }
{
    let mut line = ArrayVec::new();
    append_number(&mut line, number);
    append(&mut line, b" ");
    append_value(&mut line, value);
    append(&mut line, b"\n");
    line
}

// Where a processor stands in an update.
fn phase_text(phase: Phase) -> &'static [u8]
    ensures text { result.now ≡ phase_text phase }
    ensures short { length result.now ≤ 17 }
{
    match phase {
        Phase::Running => b"running",
        Phase::Taken => b"taken",
        Phase::Arrived => b"arrived",
        Phase::Passed => b"passed",
        Phase::NoFill => b"no-fill",
        Phase::Flushed => b"flushed",
        Phase::TlbFlushed => b"tlb-flushed",
        Phase::Writing(_) => b"writing",
        Phase::Enabled => b"enabled",
        Phase::Flushed2 => b"flushed-again",
        Phase::TlbFlushed2 => b"tlb-flushed-again",
        Phase::Normal => b"normal",
        Phase::Restored => b"restored",
        Phase::Arrived2 => b"arrived-again",
    }
}

fn switch_text(is_on: bool) -> &'static [u8]
    ensures text { result.now ≡ switch_text is_on }
    ensures size { length result.now ≡ 1 }
{
    if is_on { b"1" } else { b"0" }
}

fn stale_lines(lines: &[CacheLine], era: u64) -> usize
    ensures count { result ≡ count_by (λ l. nat_lt l.era era) lines.now }
    ensures bound { result ≤ length lines.now }
{
    lines.iter().filter(|line| line.era < era).count()
}

fn stale_entries(entries: &[Entry], era: u64) -> usize
    ensures count { result ≡ count_by (λ e. nat_lt e.era era) entries.now }
    ensures bound { result ≤ length entries.now }
{
    entries.iter().filter(|entry| entry.era < era).count()
}

fn stale_cached(cache: &Cache, era: u64) -> usize
    ensures count { result ≡ count_by (λ l. nat_lt l.era era) cache.now }
    ensures bound { result ≤ 64 }
{
    let mut count = 0;
    'lines: for i in 0..cache.len() {
        if cache.nth(i).era < era {
            count += 1;
        }
    }
    count
}

// How many lines, buffers and TLB entries are older than the processor's era.
fn stale_count(cpu: &Cpu) -> usize
    ensures { result ≡ stale_count cpu.now }
{
    let era = cpu.era();
    let lines = stale_cached(cpu.cache(), era);
    let buffers = stale_lines(cpu.buffers().lines(), era);
    lines + buffers + stale_entries(cpu.tlb().entries(), era)
}

const WORDS: [u8; 8] = [0, 1, 2, 3, 4, 5, 6, 7];

fn dirty_words(line: &CacheLine) -> usize
    ensures count { result ≡ count_by (is_dirty line.now) eight }
    ensures few { result ≤ 8 }
{
    let dirty = line.dirty as u64;
    WORDS
        .iter()
        .filter(|word| is_bit_set(dirty, **word))
        .count()
}

#[tactic(auto, using(crate::proofs::DirtyCounts::dirty_more))]
fn dirty_count(cache: &Cache) -> usize
    ensures { result ≡ dirty_count cache.now }
{
    let mut count = 0;
    'lines: for i in 0..cache.len() {
        count += dirty_words(cache.nth(i));
    }
    count
}

// Adds a count behind its name.
fn append_count(line: &mut LineBuffer, name: &[u8], count: usize)
    requires { array_vec_len line.old + length name.now + 20 ≤ LINE_ROOM }
    ensures text { line.new.items ≡ line.old.items ++ name.now ++ decimal count }
    ensures short { array_vec_len line.new ≤ array_vec_len line.old + length name.now + 20 }
{
    append(line, name);
    append_decimal(line, count as u64);
}

/// Where a processor stands, and what its cache, its buffers and its TLB have.
pub(crate) fn processor_line(k: u32, cpu: &Cpu) -> LineBuffer
    ensures { result.items ≡ processor_line k cpu.now }
{
    let cache = cpu.cache();
    let mut line = ArrayVec::new();
    append_count(&mut line, b"cpu ", k as usize);
    append(&mut line, b" ");
    append(&mut line, phase_text(cpu.phase()));
    append(&mut line, b" era ");
    append_decimal(&mut line, cpu.era());
    append_count(&mut line, b" lines ", cache.len());
    append_count(&mut line, b" dirty ", dirty_count(cache));
    append_count(&mut line, b" buffers ", cpu.buffers().lines().len());
    append_count(&mut line, b" entries ", cpu.tlb().entries().len());
    append_count(&mut line, b" stale ", stale_count(cpu));
    append(&mut line, b" cd ");
    append(&mut line, switch_text(cpu.cd()));
    append(&mut line, b" pge ");
    append(&mut line, switch_text(cpu.pge()));
    append(&mut line, b"\n");
    line
}

/// Whether two files are equal.
pub(crate) fn is_same_file(f: &RegFile, g: &RegFile) -> bool
    ensures { result ≡ is_same_file f.now g.now }
{
    f.maxphy == g.maxphy
        && f.cap == g.cap
        && f.pairs.as_slice() == g.pairs.as_slice()
        && f.fixed == g.fixed
        && f.pat == g.pat
        && f.deftype == g.deftype
}

fn have_file(file: &RegFile, cpus: &[Cpu]) -> bool
    ensures { result ≡ list_all (λ q. is_same_file file.now q.file) cpus.now }
{
    cpus.iter().all(|cpu| is_same_file(file, cpu.regs()))
}

/// Whether all processors have equal files.
pub(crate) fn have_one_file(cpus: &[Cpu]) -> bool
    ensures { result ≡ have_one_file cpus.now }
{
    match cpus.split_first() {
        Some((first, others)) => have_file(first.regs(), others),
        None => true,
    }
}

/// Whether all processors have the same registers.
pub(crate) fn registers_line(are_same: bool) -> LineBuffer
    ensures { result.items ≡ registers_line are_same }
{
    if are_same {
        text_line(b"registers same")
    } else {
        text_line(b"registers differ")
    }
}
