ghost use Rattle.std.specs.Prelude.{◌<◌};

use crate::row::Row;
use mt_cli::tool;
use mt_ports::{MemSink, MemSource, NoMemory, OpenGate};
use std::io;
use std::sync::Wait;
use std::thread::Threads;

// More bytes than any row's output has.
const ROOM: usize = 65_536;

// Whether a run with the input in pieces of so many bytes is the one that the row says.
fn meets<R: AllocGlobal + Threads + Wait + Sync>(
    rt: &R,
    row: &Row,
    piece: usize,
) -> Result<bool, NoMemory>
    requires { 0 < piece }
{
    let alloc = rt.alloc();
    let input = row.input.as_slice().to_vec(alloc)?;
    let mut source = MemSource::new(input, piece, Vec::new(alloc));
    let mut sink = MemSink::new(alloc, ROOM, Vec::new(alloc))?;
    let status = tool(rt, row.words.as_slice(), &mut source, &mut sink, &OpenGate);
    Ok(row.is_met_by(status, sink.bytes()))
}

fn is_met<R: AllocGlobal + Threads + Wait + Sync + Print>(
    rt: &R,
    row: &Row,
    piece: usize,
) -> io::Result<bool>
    requires { 0 < piece }
{
    let Ok(met) = meets(rt, row, piece) else {
        return Err(io::Error::from(io::ErrorKind::OutOfMemory));
    };
    if !met {
        println!(rt; "{}: failed in pieces of {piece}", row.name)?;
    }
    Ok(met)
}

// The lengths of the pieces, in ascending order.
fn piece_at(k: usize) -> usize
    ensures { 0 < result }
{
    match k {
        0 => 1,
        1 => 2,
        2 => 7,
        3 => 4095,
        4 => 4096,
        5 => 4097,
        _ => 8192,
    }
}

/// Whether the row is met in pieces of 1, 2, 7, 4,095, 4,096, 4,097 and 8,192 bytes. Prints a line for each in which
/// it isn't. An input that came whole in shorter ones comes so again.
pub fn judge<R: AllocGlobal + Threads + Wait + Sync + Print>(
    rt: &R,
    row: &Row,
) -> io::Result<bool> {
    let mut met = true;
    for k in 0..7 {
        if k == 0 || piece_at(k - 1) < row.input.len() {
            met = is_met(rt, row, piece_at(k))? && met;
        }
    }
    Ok(met)
}
