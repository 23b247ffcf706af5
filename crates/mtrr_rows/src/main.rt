//! Reads rows on standard input, runs each through the top call over memory, and prints those that
//! failed and how many passed. Ends with status 0 where all passed, 1 where one failed, and 2 where
//! the rows can't be read.
#![tactic(auto)]

mod escapes;
mod judge;
mod reader;
mod row;

use crate::judge::judge;
use crate::reader::Reader;
use crate::row::Fault;
use std::io::{self, BufRead, BufReader};
use std::process::ExitCode;
use std::sync::Wait;
use std::thread::Threads;

// The number of a line that isn't of the format of rows, or can't be kept, and why.
type BadLine = (u64, Fault);

// How many rows passed, and how many failed.
#[derive(Clone, Copy, Default)]
struct Tally {
    passed: u64,
    failed: u64,
}

impl Tally {
    ghost use Rattle.std.specs.Prelude.{◌≡◌, ◌↔◌, IsTrue};

    // With one row more.
    fn with(self, passed: bool) -> Tally
        ensures no_failure { (result.failed ≡ 0) ↔ IsTrue passed × (self.failed ≡ 0) }
    {
        if passed {
            Tally {
                passed: self.passed.saturating_add(1),
                ..self
            }
        } else {
            Tally {
                failed: self.failed.saturating_add(1),
                ..self
            }
        }
    }
}

fn tally_of<R: AllocGlobal + Threads + Wait + Sync + Input + Print>(
    rt: &R,
) -> io::Result<Result<Tally, BadLine>> {
    let alloc = rt.alloc();
    let mut reader = Reader::new(alloc);
    let mut tally = Tally::default();
    let mut number: u64 = 0;
    for line in BufReader::new(alloc, rt.reader())?.lines(alloc) {
        number = number.saturating_add(1);
        match reader.add(line?.as_str()) {
            Ok(Some(row)) => tally = tally.with(judge(rt, &row)?),
            Ok(None) => {}
            Err(fault) => return Ok(Err((number, fault))),
        }
    }
    if reader.is_between() {
        Ok(Ok(tally))
    } else {
        Ok(Err((number, Fault::NoEnd)))
    }
}

// Says how many passed, or which line is bad.
fn report<R: AllocGlobal + Threads + Wait + Sync + Input + Print + Eprint>(
    rt: &R,
) -> io::Result<ExitCode> {
    match tally_of(rt)? {
        Ok(Tally { passed, failed }) => {
            println!(rt; "{passed} passed, {failed} failed")?;
            Ok(ExitCode::from((failed > 0) as u8))
        }
        Err((number, fault)) => {
            let _ = eprintln!(rt; "rows: line {number}: {}", fault.text());
            Ok(ExitCode::from(2))
        }
    }
}

fn main(rt: HostRuntime) -> ExitCode {
    match report(&rt) {
        Ok(code) => code,
        Err(error) => {
            let _ = eprintln!(rt; "rows: {error}");
            ExitCode::from(2)
        }
    }
}
