ghost use Rattle.std.specs.Prelude.{◌≡◌, ◌<◌, ◌-◌, false, length, set, true, None, is_some};
ghost use Rattle.mt_plain.specs.Maps.{IsMapIn, has_map, kind_number, map_status, no_map_status, plain_run};
ghost use Rattle.mt_plain.specs.Plain.{file_in};
ghost use Rattle.mt_regs.specs.Faults.{register_fault};

use crate::status::{DONE, FAULT, NO_FILE, NO_ROOM};
use crate::{PlainRegisters, PlainRun, file_of};
use mt_regs::{PageType, RegFile};
use mt_types::Run;

const NO_TYPE: u32 = 255;

fn kind_number(kind: PageType) -> u32
    ensures { result ≡ kind_number kind }
{
    match kind {
        PageType::Kind(kind) => kind.byte() as u32,
        PageType::Undefined => NO_TYPE,
    }
}

// Puts a run into an array, where the place is one of the array's.
pub(crate) fn put_run(runs: &mut [PlainRun], place: usize, run: PlainRun)
    ensures { runs.new ≡ set runs.old place run }
{
    if place < runs.len() {
        runs[place] = run;
    }
}

pub(crate) fn run_words(run: Run) -> PlainRun
    ensures { result ≡ plain_run run }
{
    PlainRun {
        first: run.first,
        pages: run.count,
        kind: kind_number(run.kind),
    }
}

fn run_between(first: u64, end: u64, kind: PageType) -> PlainRun
    requires { first < end }
    ensures { result ≡ plain_run (record { first = first; count = end - first; kind = kind }) }
{
    run_words(Run {
        first,
        count: end - first,
        kind,
    })
}

// Writes the type map, as far as the array goes, and returns how many runs it has.
fn put_map(f: &RegFile, runs: &mut [PlainRun]) -> usize
    requires { register_fault f.now ≡ None }
    ensures { IsMapIn f.now runs.old runs.new result }
{
    f.has_few_edges(); // a fact for the proof
    let pages = f.pages();
    let mut count = 0;
    let mut first = 0;
    let mut kind = f.page_type(0);
    let mut end = f.next_edge(0);
    while end < pages {
        let next = f.page_type(end);
        if !next.is(kind) {
            put_run(runs, count, run_between(first, end, kind));
            count += 1;
            first = end;
            kind = next;
        }
        end = f.next_edge(end);
    }
    put_run(runs, count, run_between(first, end, kind));
    count + 1
}

// Whether so many runs have a place in an array.
pub(crate) fn room_status(room: usize, count: usize) -> u32
    ensures { result ≡ map_status room count }
{
    if count <= room { DONE } else { NO_ROOM }
}

/// Writes the type map: its runs in ascending order, and how many there are. Returns 0 if all were written, and 6 if the
/// array has room only for the first of them. Returns 2 if the words are no register file's, and 1 if a register is at
/// fault by itself. The array behind the runs is as before; at 1 and 2 so are the whole array and the count.
pub fn type_map(r: &PlainRegisters, runs: &mut [PlainRun], count: &mut usize) -> u32
    ensures refused { has_map r.now ≡ false → (result ≡ no_map_status r.now) × (runs.new ≡ runs.old) × (count.new ≡ count.old) }
    ensures map { has_map r.now ≡ true → IsMapIn (file_in r.now) runs.old runs.new count.new × (result ≡ map_status (length runs.old) count.new) }
{
    let Some(file) = file_of(r) else {
        return NO_FILE;
    };
    if file.register_fault().is_some() {
        return FAULT;
    }
    let room = runs.len();
    *count = put_map(&file, runs);
    room_status(room, *count)
}
