ghost use Rattle.std.specs.Prelude.{◌≡◌, ◌≢◌, ◌≤◌, ◌<◌, ◌+◌, ◌-◌, ◌^◌, ◌++◌, length, decimal, IfOk, IfSome, None, Some};
ghost use Rattle.mt_regs.specs.StartFiles.{AreStartFiles};
ghost use Rattle.mt_regs.specs.FirstFault.{first_fault};
ghost use Rattle.mt_machine.specs.Update.{IsSettled};
ghost use Rattle.mt_output.specs.Lines.{line};
ghost use Rattle.mt_proc.specs.After.{answer_text, asked, done_text};
ghost use Rattle.mt_proc.specs.Applied.{applied};
ghost use Rattle.mt_proc.specs.Serving.{Serves, changed, goal_after, idling, served, standing};
ghost use Rattle.mt_regs.specs.Registers.{HasThreeDigits};

use crate::{Applied, Request, apply};
use arrayvec::ArrayVec;
use mt_core::{CallFault, Core};
use mt_output::{LineBuffer, append, append_decimal, refused_line};
use mt_ports::{Gate, NoMemory};
use mt_regs::{Fault, RegFile};
use mt_rendezvous::{Caller, update_with};
use std::alloc::Global;
use std::marker::Model;
use std::sync::Wait;
use std::thread::Threads;

/// Processors whose files of registers are of one kind. A request that is carried out gives one file to all of them.
#[derive(Drop)]
pub struct Processors {
    core: Core,
}

impl Model for Processors {
    ghost use Rattle.mt_machine.specs.Machine.{Machine};
    ghost use Rattle.mt_proc.specs.Serving.{Serves};

    ghost Value = { Machine };

    ghost view = { λ p. p.core };

    ghost invariant = { λ p. Serves p.core };
}

// The line of a text and a number.
fn numbered_line(text: &[u8], n: u32) -> LineBuffer
    requires { length text.now ≤ 20 }
    ensures { result.items ≡ line (text.now ++ decimal n) }
{
    let mut line = ArrayVec::new();
    append(&mut line, text);
    append_decimal(&mut line, n as u64);
    append(&mut line, b"\n");
    line
}

fn text_line(text: &[u8]) -> LineBuffer
    requires { length text.now ≤ 20 }
    ensures { result.items ≡ text.now }
{
    let mut line = ArrayVec::new();
    append(&mut line, text);
    line
}

// The line of a request that was carried out on a pair.
fn done_line(request: &Request, n: u32) -> LineBuffer
    ensures { result.items ≡ done_text request.now n }
{
    match request {
        Request::Range { .. } => numbered_line(b"set ", n),
        Request::Disable(_) => numbered_line(b"cleared ", n),
    }
}

// The fault of a goal that was refused, where no update is under way.
fn refusal(fault: CallFault) -> Fault
    requires { fault ≢ CallFault.UnderWay }
    ensures { fault ≡ CallFault.Refused result }
{
    match fault {
        CallFault::Refused(own) => own,
        CallFault::UnderWay => unreachable!(),
    }
}

// Updates all processors to a goal, or returns its first fault.
fn update<R: Threads + Wait + Sync, G: Gate>(
    caller: &Caller<R, G>,
    alloc: Global,
    core: &mut Core,
    goal: RegFile,
) -> Option<Fault>
    requires serves { Serves core.old }
    requires width { goal.width ≡ (served core.old).file.width }
    requires capabilities { goal.capabilities ≡ (served core.old).file.capabilities }
    requires room { (served core.old).count < 2 ^ 64 - 1 }
    ensures fault { result ≡ first_fault goal }
    ensures after { core.new ≡ goal_after core.old goal }
    ensures serves { Serves core.new }
    ensures short { IfSome result (λ fault. HasThreeDigits fault.msr) }
{
    goal.is_register_file(); // a fact for the proof
    match update_with(caller, alloc, core, &goal) {
        Ok(()) => None,
        Err(fault) => Some(refusal(fault)),
    }
}

impl Processors {
    /// A processor with each of these files, at the start. Fails only if an allocation fails.
    pub fn new(alloc: Global, files: &[RegFile]) -> Result<Processors, NoMemory>
        requires some { 0 < length files.now }
        requires few { length files.now ≤ 16 }
        requires start { AreStartFiles files.now }
        ensures { IfOk result (λ p. p ≡ idling files.now 0) }
    {
        Ok(Processors {
            core: Core::start(alloc, files)?,
        })
    }

    /// What all processors keep: their number, their files and their state. This does nothing.
    pub fn serve(&self)
        ensures { Serves self.now }
    {
        let _ = &self.core;
    }

    /// The registers of processor 0, which all of them have once a request was carried out.
    pub fn file(&self) -> &RegFile
        ensures { result.now ≡ (served self.now).file }
    {
        self.core.system().cpus()[0].regs()
    }

    /// How many requests were carried out.
    pub fn count(&self) -> u64
        ensures { result ≡ (served self.now).count }
    {
        self.core.system().cpus()[0].era()
    }

    // Does what a request asks for, and returns what is written of it.
    fn change<R: Threads + Wait + Sync, G: Gate>(
        &mut self,
        caller: &Caller<R, G>,
        alloc: Global,
        request: &Request,
    ) -> LineBuffer
        requires { (served self.old).count < 2 ^ 64 - 1 }
        ensures text { result.items ≡ answer_text (served self.old) request.now }
        ensures changed { self.new ≡ changed self.old (applied (served self.old).file request.now) }
        ensures serves { Serves self.new }
    {
        match apply(self.file(), request) {
            Applied::Goal(goal, n) => match update(caller, alloc, &mut self.core, goal) {
                Some(fault) => refused_line(&fault),
                None => done_line(request, n),
            },
            Applied::BadRange => text_line(b"bad range\n"),
            Applied::NoneFree => text_line(b"full\n"),
            Applied::NotUsed => text_line(b"not used\n"),
        }
    }

    /// Asks for a change of all processors, and returns the text about it. An update runs each processor on a thread of
    /// its own, if the gate and the allocator let it. It gives all of them one file. A request that isn't carried out
    /// changes no processor.
    pub fn ask<R: Threads + Wait + Sync, G: Gate>(
        &mut self,
        caller: &Caller<R, G>,
        alloc: Global,
        request: &Request,
    ) -> LineBuffer
        requires { (served self.old).count < 2 ^ 64 - 1 }
        ensures text { result.items ≡ answer_text (served self.old) request.now }
        ensures changed { self.new ≡ changed self.old (applied (served self.old).file request.now) }
        ensures served { served self.new ≡ asked (served self.old) request.now }
        ensures unchanged { (asked (served self.old) request.now).count ≡ (served self.old).count → self.new ≡ self.old }
        ensures stands { (served self.old).count < (asked (served self.old) request.now).count → self.new ≡ standing (length self.old.system.processors) (asked (served self.old) request.now) }
        ensures each { length self.new.system.processors ≡ length self.old.system.processors }
        ensures serves { Serves self.new }
        ensures settled { (served self.old).count < (asked (served self.old) request.now).count
            → IsSettled self.new.system (asked (served self.old) request.now).count (asked (served self.old) request.now).file }
    {
        self.serve(); // a fact for the proof
        self.change(caller, alloc, request)
    }
}
