//! Runs of the top call, of `replay` and of `proc` over memory, under a gate.
use mt_cli::tool;
use mt_gates::AllBut;
use mt_ports::{Gate, MemSink, MemSource, Status};
use mt_proc::proc;
use mt_replay::replay;
use std::alloc::Global;
use std::process::Abort;
use std::sync::Wait;
use std::test::Fail;
use std::thread::Threads;

/// What is called.
#[derive(Clone, Copy)]
pub(crate) enum Call<'a> {
    /// The top call with these words.
    Tool(&'a [&'a str]),
    Replay,
    /// `proc` with so many processors, 1 to 16.
    Proc(u32),
}

/// A run over an input that ends with status 0, how its text ends, and how many updates it makes on the threads of how many
/// processors.
#[derive(Clone, Copy)]
pub(crate) struct Run<'a> {
    pub(crate) call: Call<'a>,
    pub(crate) input: &'a [u8],
    pub(crate) end: &'a [u8],
    pub(crate) cpus: u32,
    pub(crate) updates: u64,
}

/// What a call ended with, and what it wrote to.
#[derive(Drop)]
pub(crate) struct Ran {
    pub(crate) status: Status,
    sink: MemSink,
}

fn words_of(alloc: Global, words: &[&str]) -> Result<Vec<String>, Fail> {
    let mut owned = Vec::new(alloc);
    for word in words {
        owned.push(String::from_str(alloc, word)?)?;
    }
    Ok(owned)
}

pub(crate) fn run_under<R: AllocGlobal + Threads + Wait + Abort + Sync, G: Gate>(
    rt: &R,
    call: Call<'_>,
    input: &[u8],
    gate: &G,
) -> Result<Ran, Fail> {
    let alloc = rt.alloc();
    let mut source = MemSource::new(input.to_vec(alloc)?, 4096, Vec::new(alloc));
    let Ok(mut sink) = MemSink::new(alloc, 262_144, Vec::new(alloc)) else {
        return Err(Fail::from("no memory"));
    };
    let status = match call {
        Call::Tool(words) => tool(rt, &words_of(alloc, words)?, &mut source, &mut sink, gate),
        Call::Replay => replay(rt, &mut source, &mut sink, gate),
        Call::Proc(cpus) => {
            assert!(rt; 0 < cpus && cpus <= 16);
            proc(rt, &mut source, &mut sink, gate, cpus)
        }
    };
    Ok(Ran { status, sink })
}

impl Run<'_> {
    /// Fails the test unless the run ends so.
    pub(crate) fn expect<R: AllocGlobal + Threads + Wait + Abort + Sync, G: Gate>(
        &self,
        rt: &R,
        gate: &G,
    ) -> Result<(), Fail> {
        let ran = run_under(rt, self.call, self.input, gate)?;
        assert_eq!(rt; ran.status, Status::Done);
        assert!(rt; ran.sink.bytes().ends_with(self.end));
        Ok(())
    }

    /// Whether each update asked once of each processor from this one on, and told once of each.
    pub(crate) fn is_counted(&self, gate: &AllBut, first: u32) -> bool {
        gate.asked_each(first..self.cpus, self.updates)
            && gate.told_each(0..self.cpus, self.updates)
    }
}

/// The first text, and then the other so many times.
pub(crate) fn repeated(
    alloc: Global,
    first: &[u8],
    other: &[u8],
    times: usize,
) -> Result<Vec<u8>, Fail> {
    let mut all = first.to_vec(alloc)?;
    for _ in 0..times {
        all.extend_from_slice(other)?;
    }
    Ok(all)
}
