ghost use Rattle.std.specs.Prelude.{◌≡◌, ◌<◌, ◌+◌, ◌-◌, ◌/◌, ◌^◌, [], nat_lt, false, true, slice_index_or, if◌then◌else◌};
ghost use Rattle.std.specs.List.{list_all};
ghost use Rattle.mt_regs.specs.Registers.{writable};
ghost use Rattle.mt_cache.specs.Lines.{change_line, clean_word};
ghost use Rattle.mt_machine.specs.Memory.{word_of};
ghost use Rattle.mt_machine.specs.Bus.{with_lines};
ghost use Rattle.mt_machine.specs.Machine.{FitsGoal, after_drop, after_flush, flush_tlb, own_step, with_goal, without_enable, write_back_event, write_back_or_drop};
ghost use Rattle.mt_list_machine.specs.Calls.{HasPlace};

use crate::controls::reload_cr3;
use crate::cpu::Cpu;
use crate::lines;
use crate::ram::word_address;
use mt_cache::CacheLine;
use mt_kinds::{DEF_TYPE_E, LINE_BYTES, WORD_BYTES, is_bit_set};
use mt_machine::{Event, Phase};
use mt_regs::{RegFile, Register};

fn write_back_event(line: &CacheLine) -> Event
    requires { line.now.number < 2 ^ 46 }
    ensures event { result ≡ write_back_event line.now }
    ensures place { HasPlace result }
{
    match lines::first_dirty_word(line) {
        Some(word) => Event::WriteBack {
            address: word_address(line.number, word),
            value: line.words[word as usize],
        },
        None => Event::DropLines,
    }
}

/// The write-back of the first dirty word, or the invalidation of all lines if no word is dirty.
pub fn write_back_or_drop(cpu: &Cpu) -> Event
    requires { list_all (λ l. nat_lt l.number (2 ^ 46)) cpu.now.lines ≡ true }
    ensures event { result ≡ write_back_or_drop cpu.now }
    ensures place { HasPlace result }
{
    match lines::first_dirty_line(cpu.lines()) {
        Some(line) => write_back_event(&line),
        None => Event::DropLines,
    }
}

fn after_drop(phase: Phase) -> Phase
    ensures { result ≡ after_drop phase }
{
    match phase {
        Phase::Enabled => Phase::Flushed2,
        _ => Phase::Flushed,
    }
}

fn after_flush(phase: Phase) -> Phase
    ensures { result ≡ after_flush phase }
{
    match phase {
        Phase::Flushed2 => Phase::TlbFlushed2,
        _ => Phase::TlbFlushed,
    }
}

/// PGE is remembered, and cleared if it is set, which drops all entries. If it is clear, CR3 is reloaded.
pub fn clear_pge(cpu: &mut Cpu)
    ensures { cpu.new ≡ flush_tlb Phase.Flushed cpu.old }
{
    if cpu.pge {
        cpu.had_pge = true;
        cpu.pge = false;
        cpu.entries.clear();
    } else {
        reload_cr3(cpu);
        cpu.had_pge = false;
    }
}

fn flush_tlb(cpu: &mut Cpu)
    ensures { cpu.new ≡ record (flush_tlb cpu.old.phase cpu.old) { phase = after_flush cpu.old.phase } }
{
    match cpu.phase {
        Phase::Flushed2 => reload_cr3(cpu),
        _ => clear_pge(cpu),
    }
    cpu.phase = after_flush(cpu.phase);
}

fn disable(cpu: &mut Cpu)
    ensures { cpu.new ≡ record cpu.old { phase = Phase.Writing 0; file = without_enable cpu.old.file } }
{
    let deftype = cpu.regs.deftype;
    if is_bit_set(deftype, DEF_TYPE_E) {
        cpu.regs
            .put(Register::DefaultType, deftype - (1 << DEF_TYPE_E));
    }
    cpu.phase = Phase::Writing(0);
}

// The register at a place of the goal gets the goal's value.
fn put_goal(regs: &mut RegFile, goal: &RegFile, i: u32)
    requires width { goal.now.width ≡ regs.old.width }
    requires capabilities { goal.now.capabilities ≡ regs.old.capabilities }
    ensures { regs.new ≡ with_goal goal.now (slice_index_or (writable goal.now) i Register.DefaultType) regs.old }
{
    goal.is_register_file(); // a fact for the proof
    regs.is_register_file(); // a fact for the proof
    match goal.register_at(i) {
        Some(register) => regs.put(register, goal.value_of(register)),
        None => put_default(regs, goal),
    }
}

fn put_default(regs: &mut RegFile, goal: &RegFile)
    ensures { regs.new ≡ with_goal goal.now Register.DefaultType regs.old }
{
    regs.put(Register::DefaultType, goal.deftype);
}

// The next register gets the goal's value.
fn write_register(cpu: &mut Cpu, goal: &RegFile, i: u32)
    requires fits { FitsGoal goal.now cpu.old }
    requires small { i + 1 < 2 ^ 32 }
    ensures { cpu.new ≡ own_step goal.now (Event.Write i) cpu.old }
{
    put_goal(&mut cpu.regs, goal, i);
    cpu.phase = Phase::Writing(i + 1);
}

fn enable(cpu: &mut Cpu, goal: &RegFile)
    ensures { cpu.new ≡ own_step goal.now Event.Enable cpu.old }
{
    cpu.regs.put(Register::DefaultType, goal.deftype);
    cpu.phase = Phase::Enabled;
}

/// Puts a processor into a phase.
pub(crate) fn put_phase(cpu: &mut Cpu, phase: Phase)
    ensures { cpu.new ≡ record cpu.old { phase = phase } }
{
    cpu.phase = phase;
}

fn set_no_fill(cpu: &mut Cpu)
    ensures { cpu.new ≡ record cpu.old { cache_disabled = true; phase = Phase.NoFill } }
{
    cpu.cd = true;
    cpu.phase = Phase::NoFill;
}

// The word at an address is clean.
fn clean(cpu: &mut Cpu, address: u64)
    ensures { cpu.new ≡ with_lines (change_line (address / 64) (clean_word (word_of address))) cpu.old }
{
    let word = (address % LINE_BYTES / WORD_BYTES) as u8;
    lines::clean_word(cpu.lines.as_mut_slice(), address / LINE_BYTES, word);
}

fn drop_lines(cpu: &mut Cpu)
    ensures { cpu.new ≡ record cpu.old { lines = []; phase = after_drop cpu.old.phase } }
{
    cpu.lines.clear();
    cpu.phase = after_drop(cpu.phase);
}

fn set_normal(cpu: &mut Cpu)
    ensures { cpu.new ≡ record cpu.old { cache_disabled = false; phase = Phase.Normal } }
{
    cpu.cd = false;
    cpu.phase = Phase::Normal;
}

fn restore_pge(cpu: &mut Cpu)
    ensures { cpu.new ≡ record cpu.old { page_global = cpu.old.remembered_global; remembered_global = false; phase = Phase.Restored } }
{
    cpu.pge = cpu.had_pge;
    cpu.had_pge = false;
    cpu.phase = Phase::Restored;
}

fn release(cpu: &mut Cpu)
    requires { cpu.old.era < 2 ^ 64 - 1 }
    ensures { cpu.new ≡ record cpu.old { phase = Phase.Running; era = cpu.old.era + 1 } }
{
    cpu.phase = Phase::Running;
    cpu.era += 1;
}

/// The processor's own part of an event.
pub(crate) fn own_step(cpu: &mut Cpu, goal: &RegFile, e: Event)
    requires fits { FitsGoal goal.now cpu.old }
    requires place { HasPlace e }
    requires room { cpu.old.era < 2 ^ 64 - 1 }
    ensures { cpu.new ≡ own_step goal.now e cpu.old }
{
    match e {
        Event::Take => put_phase(cpu, Phase::Taken),
        Event::Arrive => put_phase(cpu, Phase::Arrived),
        Event::Leave => put_phase(cpu, Phase::Running),
        Event::Pass => put_phase(cpu, Phase::Passed),
        Event::SetNoFill => set_no_fill(cpu),
        Event::WriteBack { address, .. } => clean(cpu, address),
        Event::DropLines => drop_lines(cpu),
        Event::FlushTlb => flush_tlb(cpu),
        Event::Disable => disable(cpu),
        Event::Write(i) => write_register(cpu, goal, i),
        Event::Enable => enable(cpu, goal),
        Event::SetNormal => set_normal(cpu),
        Event::RestorePge => restore_pge(cpu),
        Event::ArriveAgain => put_phase(cpu, Phase::Arrived2),
        Event::Release => release(cpu),
    }
}
