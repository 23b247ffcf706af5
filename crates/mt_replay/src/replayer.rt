ghost use Rattle.std.specs.Prelude.{◌≡◌, ◌≤◌, ◌<◌, ◌+◌, ◌++◌, true, length, IfOk, OnOk, OnErr};
ghost use Rattle.std.specs.List.{All};
ghost use Rattle.mt_regs.specs.Faults.{IsAccepted};
ghost use Rattle.mt_regs.specs.RegisterFile.{RegisterFile};
ghost use Rattle.mt_dump.specs.ForProcessors.{has_each};
ghost use Rattle.mt_machine.specs.Start.{HasEraRoom};
ghost use Rattle.mt_rendezvous.specs.Update.{FitsUpdate};
ghost use Rattle.mt_script.specs.Stages.{is_in_dump};
ghost use Rattle.mt_script.specs.Accept.{Fits, accepted};
ghost use Rattle.mt_replay.specs.Kept.{IsReplayState};
ghost use Rattle.mt_replay.specs.Doing.{CanDo};
ghost use Rattle.mt_replay.specs.Parts.{AsksForMemory, state_of};
ghost use Rattle.mt_replay.specs.ReplayState.{command_text, file_at, first_state, goal_after, machine_after, state_after, with_register};

use crate::commands::{add_window, ask_one, bring_in, call, cancel, go, retire, update, word};
use crate::report::{REPORT_ROOM, report};
use mt_core::Core;
use mt_dump::Dump;
use mt_output::{LINE_ROOM, WRITER_ROOM, Writer};
use mt_ports::{Gate, NoMemory};
use mt_ram::Ram;
use mt_regs::RegFile;
use mt_rendezvous::Caller;
use mt_script::{Command, Section, Setup, Stage};
use std::alloc::Global;
use std::marker::Model;
use std::sync::Wait;
use std::thread::Threads;

// The parts of a replayer, without its invariant: that doesn't hold while a command is done.
#[derive(Drop)]
struct Parts {
    setup: Setup,
    core: Core,
    goal: RegFile,
}

/// A script between two lines after its dump: what stands set up, the machine, and the goal of the
/// section that is read.
#[derive(Drop)]
pub struct Replayer {
    parts: Parts,
}

impl Model for Replayer {
    ghost use Rattle.mt_replay.specs.ReplayState.{ReplayState};
    ghost use Rattle.mt_replay.specs.Kept.{IsReplayState};
    ghost use Rattle.mt_replay.specs.Parts.{state_of};

    ghost Value = { ReplayState };

    ghost view = { λ r. state_of r.parts };

    ghost invariant = { λ r. IsReplayState (state_of r.parts) };
}

// The registers of the first processor, with which the goal of a section begins.
fn first_file(core: &Core) -> RegFile
    requires { 0 < length core.now.system.processors }
    ensures { (f : RegisterFile) → result ≡ file_at core.now.system.processors 0 f }
{
    core.system().cpus()[0].regs().same()
}

// A section begins with the registers of the first processor.
#[inline(never)]
fn begin_goal(core: &Core, goal: &mut RegFile)
    requires { 0 < length core.now.system.processors }
    ensures { goal.new ≡ file_at core.now.system.processors 0 goal.old }
{
    *goal = first_file(core);
}

fn set(goal: &mut RegFile, msr: u32, value: u64)
    ensures { goal.new ≡ with_register goal.old msr value }
{
    let _ = goal.set(msr, value);
}

impl Parts {
    // A section ends: an update, or a call for one.
    fn end_section<R: Threads + Wait + Sync, G: Gate>(
        &mut self,
        caller: &Caller<R, G>,
        alloc: Global,
        writer: &mut Writer,
    )
        requires line { length writer.old + LINE_ROOM ≤ WRITER_ROOM }
        requires fits { FitsUpdate self.old.core self.old.goal }
        ensures text { writer.new ≡ writer.old ++ command_text (state_of self.old) (Command.Section Section.End) }
        ensures machine { self.new.core ≡ machine_after (state_of self.old) (Command.Section Section.End) }
        ensures kept { (self.new.setup ≡ self.old.setup) × (self.new.goal ≡ self.old.goal) }
    {
        if self.setup.stage() == Stage::InUpdate {
            update(caller, alloc, writer, &mut self.core, &self.goal);
        } else {
            call(writer, &mut self.core, &self.goal);
        }
    }

    // A line of a section.
    #[inline(never)]
    fn take_section_line<R: Threads + Wait + Sync, G: Gate>(
        &mut self,
        caller: &Caller<R, G>,
        alloc: Global,
        writer: &mut Writer,
        line: Section,
    )
        requires line { length writer.old + LINE_ROOM ≤ WRITER_ROOM }
        requires fits { FitsUpdate self.old.core self.old.goal }
        ensures text { writer.new ≡ writer.old ++ command_text (state_of self.old) (Command.Section line) }
        ensures machine { self.new.core ≡ machine_after (state_of self.old) (Command.Section line) }
        ensures goal { self.new.goal ≡ goal_after (state_of self.old) (Command.Section line) }
        ensures setup { self.new.setup ≡ self.old.setup }
    {
        match line {
            Section::Update | Section::Begin => begin_goal(&self.core, &mut self.goal),
            Section::Register { msr, value } => set(&mut self.goal, msr, value),
            Section::End => self.end_section(caller, alloc, writer),
        }
    }

    // Does a command, and adds its lines to the bytes that wait. Fails only if an allocation fails; nothing then changes.
    fn do_command<R: Threads + Wait + Sync, G: Gate>(
        &mut self,
        caller: &Caller<R, G>,
        alloc: Global,
        c: &Command,
        writer: &mut Writer,
    ) -> Result<(), NoMemory>
        requires lines { length writer.old + REPORT_ROOM ≤ WRITER_ROOM }
        requires state { IsReplayState (state_of self.old) }
        requires can { CanDo self.old.core c.now }
        requires room { HasEraRoom self.old.core }
        ensures text { OnOk result (writer.new ≡ writer.old ++ command_text (state_of self.old) c.now) }
        ensures machine { OnOk result (self.new.core ≡ machine_after (state_of self.old) c.now) }
        ensures goal { OnOk result (self.new.goal ≡ goal_after (state_of self.old) c.now) }
        ensures setup { self.new.setup ≡ self.old.setup }
        ensures asks { OnErr result (AsksForMemory self.old.core c.now) }
        ensures kept { OnErr result ((self.new ≡ self.old) × (writer.new ≡ writer.old)) }
    {
        let core = &mut self.core;
        match *c {
            Command::Ask(k, asked) => ask_one(writer, core, k, asked),
            Command::Section(line) => self.take_section_line(caller, alloc, writer, line),
            Command::Selfsnoop(k) => core.self_snoop(k),
            Command::Retire => retire(writer, core),
            Command::Go => go(writer, core),
            Command::Cancel => cancel(writer, core),
            Command::Word(address) => word(writer, core, address),
            Command::Report => report(writer, core.system().cpus()),
            Command::Ram(base, lines) => add_window(core, base, lines)?,
            Command::Newcomer(newcomer) => bring_in(writer, core, newcomer)?,
            Command::Blank | Command::Cpus(_) | Command::Dump | Command::DumpLine => {}
        }
        Ok(())
    }
}

impl Replayer {
    /// A script after its dump, which has an accepted file for each processor, or in version 1 one for all. The error
    /// comes only where the allocator has no room.
    pub fn begin(alloc: Global, setup: Setup, dump: Dump) -> Result<Replayer, NoMemory>
        requires stage { is_in_dump setup.stage ≡ true }
        requires each { has_each setup.cpus dump ≡ true }
        requires accepted { All IsAccepted dump.files }
        ensures { IfOk result (λ r. r ≡ first_state setup dump) }
    {
        let mut setup = setup;
        setup.is_situation(); // a fact for the proof
        dump.is_dump(); // a fact for the proof
        let files = dump.files_for(setup.cpus());
        let core = Core::start(alloc, files.as_slice())?;
        let goal = dump.first_file().same();
        setup.dumped(dump);
        Ok(Replayer {
            parts: Parts { setup, core, goal },
        })
    }

    /// What stands set up.
    pub fn setup(&self) -> &Setup
        ensures { result.now ≡ self.now.now }
    {
        &self.parts.setup
    }

    /// The machine's memory.
    pub(crate) fn ram(&self) -> &Ram
        ensures { result.now ≡ self.now.machine.system.memory }
    {
        self.parts.core.system().ram()
    }

    /// What every replayer keeps. This does nothing.
    pub fn is_replay_state(&self)
        ensures { IsReplayState self.now }
    {
        let _ = &self.parts;
    }

    /// Does a command, and adds its lines to the bytes that wait. Fails only if it asks for memory and an allocation
    /// fails; nothing then changes. An update runs each processor on a thread of its own, where the gate and the
    /// allocator let it.
    pub fn run<R: Threads + Wait + Sync, G: Gate>(
        &mut self,
        caller: &Caller<R, G>,
        alloc: Global,
        c: &Command,
        writer: &mut Writer,
    ) -> Result<(), NoMemory>
        requires lines { length writer.old + REPORT_ROOM ≤ WRITER_ROOM }
        requires fits { Fits self.old.now c.now }
        requires room { HasEraRoom self.old.machine }
        ensures text { OnOk result (writer.new ≡ writer.old ++ command_text self.old c.now) }
        ensures after { OnOk result (self.new ≡ state_after self.old c.now) }
        ensures asks { OnErr result (AsksForMemory self.old.machine c.now) }
        ensures kept { OnErr result ((self.new ≡ self.old) × (writer.new ≡ writer.old)) }
    {
        self.parts.do_command(caller, alloc, c, writer)?;
        self.parts.setup.accept(c);
        Ok(())
    }
}
