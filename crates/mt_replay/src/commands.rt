ghost use Rattle.std.specs.Prelude.{◌≡◌, ◌<◌, ◌≤◌, ◌+◌, ◌*◌, ◌^◌, ◌++◌, length, slice_get, MatchOption, OnOk, OnErr, None, Some, true};
ghost use Rattle.mt_machine.specs.Machine.{Accesses, Calls, Cancels, Controls, IsEnabled, FitsControl, FitsOp, Goes, common_era, go_of, next};
ghost use Rattle.mt_machine.specs.System.{Processor};
ghost use Rattle.mt_machine.specs.Start.{HasEraRoom, IsQuiet};
ghost use Rattle.mt_ram.specs.Windows.{refusal, window};
ghost use Rattle.mt_regs.specs.RegisterFile.{RegisterFile};
ghost use Rattle.mt_regs.specs.declared.fault.Fault.{Fault};
ghost use Rattle.mt_core.specs.Arises.{grown};
ghost use Rattle.mt_core.specs.Rounds.{in_order};
ghost use Rattle.mt_core.specs.Steps.{step_after, step_answer};
ghost use Rattle.mt_machine.specs.Update.{updated};
ghost use Rattle.mt_rendezvous.specs.Update.{FitsUpdate};
ghost use Rattle.mt_replay.specs.ReplayState.{accessed_line, after_call, after_newcomer, after_retire, after_update, after_word, asked_of, call_fault, call_line, command_text, controlled_line, file_at, is_undecided, machine_after, mapping, may_come, memory_word, newcomer_text, retire_text, update_line};
ghost use Rattle.mt_script.specs.Situation.{Situation};
ghost use Rattle.mt_replay.specs.Doing.{CanAsk};
ghost use Rattle.mt_replay.specs.Parts.{state};
ghost use Rattle.mt_replay.specs.Texts.{cancel_line, go_line, memory_line, register_line, stepped_line};
ghost use Rattle.mt_regs.specs.Registers.{HasThreeDigits, value_at};
ghost use Rattle.std.specs.Option.{option_map_or};
ghost use Rattle.mt_kinds.specs.Sizes.{most_lines};

use crate::texts::{
    append_done, append_ruled, append_stepped, call_fault_line, called_line, cancel_line,
    complete_line, go_line, joined_line, memory_line, register_line, retired_line, up_line,
};
use mt_admit::{RetireFault, UpFault};
use mt_core::{CallFault, Core, a_core_arises};
use mt_kinds::PAGE_BYTES;
use mt_machine::{Control, Op};
use mt_output::{LINE_ROOM, WRITER_ROOM, Writer};
use mt_ports::{Gate, NoMemory};
use mt_regs::RegFile;
use mt_rendezvous::{Caller, update_with};
use mt_script::{Ask, Command, Mapped, Newcomer};
use mt_tlb::Mapping;
use std::alloc::Global;
use std::sync::Wait;
use std::thread::Threads;

// Each of these does a command, and adds its line to the bytes that wait.

/// An access.
pub(crate) fn access(writer: &mut Writer, core: &mut Core, k: u32, op: Op)
    requires line { length writer.old + LINE_ROOM ≤ WRITER_ROOM }
    requires processor { k < length core.old.system.processors }
    requires fits { FitsOp op }
    ensures text { writer.new ≡ writer.old ++ accessed_line core.old k op }
    ensures after { core.new ≡ next core.old (Accesses k op) }
{
    let done = core.access(k, op);
    append_done(writer, &done);
}

/// A control instruction.
#[inline(never)]
pub(crate) fn control(writer: &mut Writer, core: &mut Core, k: u32, c: Control)
    requires line { length writer.old + LINE_ROOM ≤ WRITER_ROOM }
    requires processor { k < length core.old.system.processors }
    requires fits { (p : Processor) → slice_get core.old.system.processors k ≡ Some p → FitsControl p c }
    ensures text { writer.new ≡ writer.old ++ controlled_line core.old k c }
    ensures after { core.new ≡ next core.old (Controls k c) }
{
    let ruled = core.control(k, c);
    append_ruled(writer, &ruled);
}

/// Gives the go, and says whether it was given.
#[inline(never)]
pub(crate) fn go(writer: &mut Writer, core: &mut Core)
    requires line { length writer.old + LINE_ROOM ≤ WRITER_ROOM }
    ensures text { writer.new ≡ writer.old ++ go_line (is_undecided (go_of core.old)) }
    ensures after { core.new ≡ after_word Goes core.old }
{
    writer.append(go_line(core.go()).as_slice());
}

/// Gives the update up, and says whether it was.
#[inline(never)]
pub(crate) fn cancel(writer: &mut Writer, core: &mut Core)
    requires line { length writer.old + LINE_ROOM ≤ WRITER_ROOM }
    ensures text { writer.new ≡ writer.old ++ cancel_line (is_undecided (go_of core.old)) }
    ensures after { core.new ≡ after_word Cancels core.old }
{
    writer.append(cancel_line(core.cancel()).as_slice());
}

fn file_at(core: &Core, k: u32) -> &RegFile
    requires { k < length core.now.system.processors }
    ensures { (f : RegisterFile) → result.now ≡ file_at core.now.system.processors k f }
{
    core.system().cpus()[k as usize].regs()
}

/// A step of a processor, and what it did.
pub(crate) fn step(writer: &mut Writer, core: &mut Core, k: u32)
    requires line { length writer.old + LINE_ROOM ≤ WRITER_ROOM }
    requires processor { k < length core.old.system.processors }
    ensures text { (f : RegisterFile) → writer.new ≡ writer.old ++ stepped_line (file_at (step_after core.old k).system.processors k f) (step_answer core.old k) }
    ensures after { core.new ≡ step_after core.old k }
{
    a_core_arises(core); // a fact for the proof
    let stepped = core.step(k);
    append_stepped(writer, file_at(core, k), &stepped);
}

fn common_era(core: &Core) -> u64
    ensures { result ≡ common_era core.now.system.processors }
{
    match core.system().cpus().first() {
        Some(cpu) => cpu.era(),
        None => 0,
    }
}

// Calls an update to these registers, and answers why it isn't begun.
fn call_update(core: &mut Core, goal: &RegFile) -> Option<CallFault>
    requires { FitsUpdate core.old goal.now }
    ensures fault { result ≡ call_fault core.old goal.now }
    ensures called { MatchOption result ((core.new ≡ next core.old (Calls goal.now)) × IsQuiet core.old × IsEnabled core.old (Calls goal.now)) (λ _. core.new ≡ core.old) }
    ensures short { (own : Fault) → result ≡ Some (CallFault.Refused own) → HasThreeDigits own.msr }
{
    a_core_arises(core); // a fact for the proof
    goal.is_register_file(); // a fact for the proof
    match core.call(goal) {
        Ok(()) => None,
        Err(fault) => Some(fault),
    }
}

// Updates the processors to these registers, each on a thread of its own, and answers why it isn't begun.
fn run_update<R: Threads + Wait + Sync, G: Gate>(
    caller: &Caller<R, G>,
    alloc: Global,
    core: &mut Core,
    goal: &RegFile,
) -> Option<CallFault>
    requires { FitsUpdate core.old goal.now }
    ensures fault { result ≡ call_fault core.old goal.now }
    ensures updated { MatchOption result (core.new ≡ updated core.old.system (in_order core.old) goal.now) (λ _. core.new ≡ core.old) }
    ensures short { (own : Fault) → result ≡ Some (CallFault.Refused own) → HasThreeDigits own.msr }
{
    goal.is_register_file(); // a fact for the proof
    match update_with(caller, alloc, core, goal) {
        Ok(()) => None,
        Err(fault) => Some(fault),
    }
}

/// A whole update to these registers, and the era after it, or why it isn't begun.
#[inline(never)]
pub(crate) fn update<R: Threads + Wait + Sync, G: Gate>(
    caller: &Caller<R, G>,
    alloc: Global,
    writer: &mut Writer,
    core: &mut Core,
    goal: &RegFile,
)
    requires line { length writer.old + LINE_ROOM ≤ WRITER_ROOM }
    requires fits { FitsUpdate core.old goal.now }
    ensures text { writer.new ≡ writer.old ++ update_line core.old goal.now }
    ensures after { core.new ≡ after_update core.old goal.now }
{
    match run_update(caller, alloc, core, goal) {
        None => writer.append(complete_line(common_era(core)).as_slice()),
        Some(fault) => writer.append(call_fault_line(&fault).as_slice()),
    }
}

/// The call of an update to these registers, or why it isn't begun.
#[inline(never)]
pub(crate) fn call(writer: &mut Writer, core: &mut Core, goal: &RegFile)
    requires line { length writer.old + LINE_ROOM ≤ WRITER_ROOM }
    requires fits { FitsUpdate core.old goal.now }
    ensures text { writer.new ≡ writer.old ++ call_line core.old goal.now }
    ensures after { core.new ≡ after_call core.old goal.now }
{
    match call_update(core, goal) {
        None => writer.append(called_line().as_slice()),
        Some(fault) => writer.append(call_fault_line(&fault).as_slice()),
    }
}

/// Memory's own word at an address.
#[inline(never)]
pub(crate) fn word(writer: &mut Writer, core: &Core, address: u64)
    requires line { length writer.old + LINE_ROOM ≤ WRITER_ROOM }
    ensures { writer.new ≡ writer.old ++ memory_line (memory_word core.now.system.memory address) }
{
    let ram = core.system().ram();
    match ram.place(address) {
        Some(place) => writer.append(memory_line(Some(ram.word(place))).as_slice()),
        None => writer.append(memory_line(None).as_slice()),
    }
}

/// The value of a register of a processor, 0 where it has none of this number.
#[inline(never)]
pub(crate) fn register(writer: &mut Writer, core: &Core, k: u32, msr: u32)
    requires line { length writer.old + LINE_ROOM ≤ WRITER_ROOM }
    requires processor { k < length core.now.system.processors }
    requires short { HasThreeDigits msr }
    ensures { (f : RegisterFile) → writer.new ≡ writer.old ++ register_line msr (option_map_or (λ value. value) (value_at (file_at core.now.system.processors k f) msr) 0) }
{
    let value = file_at(core, k).get(msr).unwrap_or(0);
    writer.append(register_line(msr, value).as_slice());
}

/// Adds a window for which there is room, and writes nothing. Fails only if an allocation fails; nothing then changes.
#[inline(never)]
pub fn add_window(core: &mut Core, base: u64, lines: u32) -> Result<(), NoMemory>
    requires some { 0 < lines }
    requires few { lines ≤ most_lines }
    requires end { base + 64 * lines ≤ 2 ^ 52 }
    requires room { refusal core.old.system.memory.windows (window base lines) ≡ None }
    ensures added { OnOk result (core.new ≡ grown (window base lines) core.old) }
    ensures kept { OnErr result (core.new ≡ core.old) }
{
    core.add_ram(base, lines).map_err(|_| NoMemory) // no other fault, since there is room
}

// Addresses are of bytes, and a mapping is of pages.
fn mapping(asked: Mapped) -> Mapping
    ensures { result ≡ mapping asked }
{
    Mapping {
        vpage: asked.address / PAGE_BYTES,
        ppage: asked.physical / PAGE_BYTES,
        index: asked.index,
        global: asked.global,
    }
}

// What a processor that is there is asked.
fn ask_present(writer: &mut Writer, core: &mut Core, k: u32, ask: Ask)
    requires line { length writer.old + LINE_ROOM ≤ WRITER_ROOM }
    requires processor { k < length core.old.system.processors }
    requires fits { CanAsk core.old k ask }
    ensures text { (now : Situation) (goal : RegisterFile) → writer.new ≡ writer.old ++ (asked_of (state now core.old goal) k ask).text }
    ensures after { (now : Situation) (goal : RegisterFile) → core.new ≡ (asked_of (state now core.old goal) k ask).machine }
{
    match ask {
        Ask::Load(address) => access(writer, core, k, Op::Load(address)),
        Ask::Store(address, value) => access(writer, core, k, Op::Store(address, value)),
        Ask::Fence => access(writer, core, k, Op::Fence),
        Ask::Map(asked) => control(writer, core, k, Control::Map(mapping(asked))),
        Ask::Invlpg(address) => control(writer, core, k, Control::Invlpg(address)),
        Ask::Cr3 => control(writer, core, k, Control::Cr3),
        Ask::Pge(on) => control(writer, core, k, Control::Pge(on)),
        Ask::Cd(on) => control(writer, core, k, Control::Cd(on)),
        Ask::Step => step(writer, core, k),
        Ask::Msr(msr) => register(writer, core, k, msr),
    }
}

/// What a processor is asked, or that it is absent.
pub(crate) fn ask_one(writer: &mut Writer, core: &mut Core, k: u32, ask: Ask)
    requires line { length writer.old + LINE_ROOM ≤ WRITER_ROOM }
    requires fits { CanAsk core.old k ask }
    ensures text { (now : Situation) (goal : RegisterFile) → writer.new ≡ writer.old ++ command_text (state now core.old goal) (Command.Ask k ask) }
    ensures after { (now : Situation) (goal : RegisterFile) → core.new ≡ machine_after (state now core.old goal) (Command.Ask k ask) }
{
    if (k as usize) < core.system().cpus().len() {
        ask_present(writer, core, k, ask);
    } else {
        writer.append(b"absent\n");
    }
}

/// Brings a processor in if one may come, and says so, or why none does. Fails only if one may come and an allocation
/// fails; nothing then changes.
#[inline(never)]
#[tactic(auto, using(crate::proofs::Keeping::Moving::may_come_by))]
pub(crate) fn bring_in(
    writer: &mut Writer,
    core: &mut Core,
    newcomer: Newcomer,
) -> Result<(), NoMemory>
    requires line { length writer.old + LINE_ROOM ≤ WRITER_ROOM }
    requires some { 0 < length core.old.system.processors }
    requires room { HasEraRoom core.old }
    ensures text { OnOk result (writer.new ≡ writer.old ++ newcomer_text core.old newcomer) }
    ensures after { OnOk result (core.new ≡ after_newcomer core.old newcomer) }
    ensures asks { OnErr result (may_come core.old ≡ true) }
    ensures kept { OnErr result ((core.new ≡ core.old) × (writer.new ≡ writer.old)) }
{
    a_core_arises(core); // a fact for the proof
    let came = match newcomer {
        Newcomer::Up => mt_admit::up(core),
        Newcomer::Join => mt_admit::admit(core),
    };
    match came {
        Ok(k) => match newcomer {
            Newcomer::Up => writer.append(up_line(k).as_slice()),
            Newcomer::Join => writer.append(joined_line(k).as_slice()),
        },
        Err(UpFault::UnderWay) => writer.append(b"under way\n"),
        Err(UpFault::Full) => writer.append(b"full\n"),
        Err(UpFault::NoMemory) => return Err(NoMemory),
    }
    Ok(())
}

/// Retires the last processor, where one may go, and says so, or why none does.
pub(crate) fn retire(writer: &mut Writer, core: &mut Core)
    requires line { length writer.old + LINE_ROOM ≤ WRITER_ROOM }
    requires some { 0 < length core.old.system.processors }
    ensures text { writer.new ≡ writer.old ++ retire_text core.old }
    ensures after { core.new ≡ after_retire core.old }
{
    match mt_admit::retire(core) {
        Ok(k) => writer.append(retired_line(k).as_slice()),
        Err(RetireFault::UnderWay) => writer.append(b"under way\n"),
        Err(RetireFault::Last) => writer.append(b"no\n"),
    }
}
