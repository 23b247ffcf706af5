//! Reads a log of another program, and writes the dump or the memory map that it shows.
#![tactic(auto)]

use mt_import::program_status;
use mt_memory::{asks_for_map, map_status};
use mt_ports::{StdSink, StdSource};
use mt_shell::Input;
use std::env;
use std::process::ExitCode;

fn main(rt: HostRuntime) -> ExitCode {
    let mut source = StdSource::new(Input::standard(rt.stdin()));
    let mut sink = StdSink::new(rt.stdout());
    let mut errors = StdSink::new(rt.stderr());
    let args = env::args(&rt);
    if asks_for_map(rt.alloc(), env::args(&rt)) {
        map_status(&rt, args, &mut source, &mut sink, &mut errors)
    } else {
        program_status(&rt, args, &mut source, &mut sink, &mut errors)
    }
}
