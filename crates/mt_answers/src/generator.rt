ghost use Rattle.std.specs.Prelude.{◌≡◌, ◌<◌, ◌≤◌, ◌^◌, ◌+◌, ◌*◌, ◌++◌, IfOk, string_bytes};
ghost use Rattle.mt_answers.specs.Generator.{access_line, accesses, after_accesses, head_text, drawn, make_text, map_line, maps, processor_lines, processors, round_text, round_value, rounds, stepped};

use mt_kinds::PAGE_BYTES;
use mt_ports::NoMemory;
use std::alloc::{AllocError, Global};

const PROCESSORS: u64 = 16;

const PAGES: u64 = 64;

const ROUNDS: u64 = 8;

const ACCESSES: u64 = 512;

const WORDS: u64 = 32_768;

/// The lines that set up 16 processors with one window.
const HEAD: &str =
    "cpus 16\ndump\nmaxphyaddr 36\n0fe 508\n200 6\n201 f00000800\n2ff 800\nend\nram 0 4096\n";

/// The number that a draw leaves.
pub fn stepped(x: u64) -> u64
    ensures { result ≡ stepped x }
{
    x.wrapping_mul(6_364_136_223_846_793_005)
        .wrapping_add(1_442_695_040_888_963_407)
}

/// The number below `count` that a draw gives, by the number after the draw.
pub fn drawn(x: u64, count: u64) -> u64
    requires { 0 < count }
    ensures value { result ≡ drawn x count }
    ensures below { result < count }
{
    (x >> 33) % count
}

fn append_access(text: &mut String, x: u64) -> Result<(), AllocError>
    ensures { IfOk result (λ _. string_bytes text.new ≡ string_bytes text.old ++ access_line x) }
{
    let cpu = drawn(stepped(x), PROCESSORS);
    let choice = drawn(stepped(stepped(x)), 4);
    let value = stepped(stepped(stepped(x)));
    let address = 8 * drawn(value, WORDS);
    if choice < 2 {
        write!(text, "load {cpu} {address:x}\n")
    } else {
        write!(text, "store {cpu} {address:x} {value:x}\n")
    }
}

// Adds 512 accesses, and returns the number behind them.
fn append_accesses(text: &mut String, first: u64) -> Result<u64, AllocError>
    ensures { IfOk result (λ x. (string_bytes text.new ≡ string_bytes text.old ++ accesses 512 first) × (x ≡ after_accesses 512 first)) }
{
    let mut x = first;
    'accesses: for i in 0..ACCESSES {
        append_access(text, x)?;
        x = stepped(stepped(stepped(x)));
    }
    Ok(x)
}

fn round_value(round: u64) -> &'static str
    ensures { result.now ≡ round_value round }
{
    if round % 4 == 0 {
        "200 4\n"
    } else if round % 4 == 1 {
        "200 1\n"
    } else if round % 4 == 2 {
        "200 5\n"
    } else {
        "200 6\n"
    }
}

// Adds a round, and returns the number behind it.
fn append_round(text: &mut String, round: u64, first: u64) -> Result<u64, AllocError>
    ensures { IfOk result (λ x. (string_bytes text.new ≡ string_bytes text.old ++ round_text round first) × (x ≡ after_accesses 512 first)) }
{
    let x = append_accesses(text, first)?;
    text.push_str("update\n")?;
    text.push_str(round_value(round))?;
    text.push_str("end\nreport\n")?;
    Ok(x)
}

fn append_rounds(text: &mut String, first: u64) -> Result<(), AllocError>
    ensures { IfOk result (λ _. string_bytes text.new ≡ string_bytes text.old ++ rounds 8 0 first) }
{
    let mut x = first;
    'rounds: for round in 0..ROUNDS {
        x = append_round(text, round, x)?;
    }
    Ok(())
}

fn append_map(text: &mut String, cpu: u64, page: u64) -> Result<(), AllocError>
    requires { page < 64 }
    ensures { IfOk result (λ _. string_bytes text.new ≡ string_bytes text.old ++ map_line cpu page) }
{
    let address = PAGE_BYTES * page;
    if page % 2 == 0 {
        write!(text, "map {cpu} {address:x} {address:x} 0 global\n")
    } else {
        write!(text, "map {cpu} {address:x} {address:x} 0\n")
    }
}

fn append_maps(text: &mut String, cpu: u64) -> Result<(), AllocError>
    ensures { IfOk result (λ _. string_bytes text.new ≡ string_bytes text.old ++ maps 64 cpu 0) }
{
    'pages: for page in 0..PAGES {
        append_map(text, cpu, page)?;
    }
    Ok(())
}

fn append_processor(text: &mut String, cpu: u64) -> Result<(), AllocError>
    ensures { IfOk result (λ _. string_bytes text.new ≡ string_bytes text.old ++ processor_lines cpu) }
{
    if cpu % 2 == 0 {
        write!(text, "pge {cpu} on\n")?;
    }
    append_maps(text, cpu)
}

fn append_processors(text: &mut String) -> Result<(), AllocError>
    ensures { IfOk result (λ _. string_bytes text.new ≡ string_bytes text.old ++ processors 16 0) }
{
    'processors: for cpu in 0..PROCESSORS {
        append_processor(text, cpu)?;
    }
    Ok(())
}

fn made_text(alloc: Global, n: u64) -> Result<String, AllocError>
    ensures { IfOk result (λ text. string_bytes text ≡ make_text n) }
{
    let mut text = String::new(alloc);
    text.push_str(HEAD)?;
    append_processors(&mut text)?;
    append_rounds(&mut text, n)?;
    Ok(text)
}

/// A script for measurements, which a number determines.
pub fn make_text(alloc: Global, n: u64) -> Result<Vec<u8>, NoMemory>
    ensures { IfOk result (λ text. text.items ≡ make_text n) }
{
    match made_text(alloc, n) {
        Ok(text) => Ok(text.into_bytes()),
        Err(_) => Err(NoMemory),
    }
}
