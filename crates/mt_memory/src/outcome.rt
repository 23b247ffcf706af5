ghost use Rattle.std.specs.Prelude.{◌≡◌, ◌≤◌, ◌≢◌, ◌+◌, ◌++◌, decimal, length, Some};
ghost use Rattle.arrayvec.specs.ArrayVec.{array_vec_len};
ghost use Rattle.mt_memory.specs.Outcome.{IsToldStatus, between, broken_note, fault_status, fault_text, format_name, format_note, maps_text, missing_map, note_text, outcome_by, overlap_note, own_outcome, usage_outcome};

use crate::command::Asked;
use crate::format::Overlap;
use crate::{Format, MapBuffer, MapFault, MapsBegun, MemoryMap, WhichMap, map_text};
use arrayvec::ArrayVec;
use mt_output::{LineBuffer, append, append_decimal, bad_text};
use mt_ports::Status;
use std::marker::Model;

/// What a command line and a log come to: the map for standard output, the texts for standard error, and the status.
#[derive(Drop)]
pub struct Outcome {
    pub map: MapBuffer,
    pub reasons: LineBuffer,
    pub status: Status,
}

impl Model for Outcome {
    ghost use Rattle.mt_memory.specs.Outcome.{Outcome as Texts};

    ghost Value = { Texts };

    ghost view = { λ o. record { map = o.map.items; reasons = o.reasons.items; status = o.status } };
}

// ---- faults

// What is between the lines of the first and the last of so many maps.
fn between(count: u64) -> &'static [u8]
    ensures text { result.now ≡ between count }
    ensures short { length result.now ≤ 6 }
{
    if count == 2 { b" and " } else { b", .., " }
}

// `2 maps, at lines 1 and 18`
fn append_maps(line: &mut LineBuffer, begun: MapsBegun)
    requires { array_vec_len line.old ≤ 128 }
    ensures text { line.new.items ≡ line.old.items ++ maps_text begun }
    ensures short { array_vec_len line.new ≤ array_vec_len line.old + 85 }
{
    match begun.count {
        0 => append(line, b"no line shows a range"),
        1 => {
            append(line, b"1 map, at line ");
            append_decimal(line, begun.first);
        }
        count => {
            append_decimal(line, count);
            append(line, b" maps, at lines ");
            append_decimal(line, begun.first);
            append(line, between(count));
            append_decimal(line, begun.last);
        }
    }
}

fn several_maps(begun: MapsBegun) -> LineBuffer
    ensures { result.items ≡ fault_text WhichMap.Sole (MapFault.SeveralMaps begun) }
{
    let mut line = ArrayVec::new();
    append_maps(&mut line, begun);
    append(&mut line, b": table=last takes the last\n");
    line
}

// The line on one that breaks off.
fn append_broken(line: &mut LineBuffer, broken: u64)
    requires { array_vec_len line.old ≤ 32 }
    ensures text { line.new.items ≡ line.old.items ++ broken_note broken }
    ensures short { array_vec_len line.new ≤ array_vec_len line.old + 76 }
{
    if broken == 0 {
        return;
    }
    append(line, b"warning: line ");
    append_decimal(line, broken);
    append(line, b": it breaks off, and its range is missing\n");
}

fn missing_map(which: WhichMap, begun: MapsBegun) -> LineBuffer
    ensures { result.items ≡ missing_map which begun }
{
    let mut line = ArrayVec::new();
    append_broken(&mut line, begun.broken);
    append(&mut line, b"missing ");
    match which {
        WhichMap::Sole => append(&mut line, b"map"),
        WhichMap::Last => append(&mut line, b"table=last"),
        WhichMap::Number(number) => {
            append(&mut line, b"table=");
            append_decimal(&mut line, number);
        }
    }
    append(&mut line, b": ");
    append_maps(&mut line, begun);
    append(&mut line, b"\n");
    line
}

fn fault_text(which: WhichMap, fault: &MapFault) -> LineBuffer
    ensures { result.items ≡ fault_text which fault.now }
{
    match fault {
        MapFault::LongLine(place) => bad_text(*place, b"bad line"),
        MapFault::Backward(place) => bad_text(*place, b"bad range"),
        MapFault::UnknownKind(place) => bad_text(*place, b"unknown kind"),
        MapFault::Hidden(place) => bad_text(*place, b"hidden: read as root"),
        MapFault::Utf16(place) => bad_text(*place, b"UTF-16"),
        MapFault::TooManyRanges(place) => bad_text(*place, b"too many ranges"),
        MapFault::SeveralMaps(begun) => several_maps(*begun),
        MapFault::NoMap(begun) => missing_map(which, *begun),
    }
}

fn fault_status(fault: &MapFault) -> Status
    ensures status { result ≡ fault_status fault.now }
    ensures told { IsToldStatus result }
{
    match fault {
        MapFault::NoMap(_) => Status::Refused,
        _ => Status::BadText,
    }
}

// ---- notes

impl Format {
    /// The format's name on a command line.
    pub fn name(self) -> &'static [u8]
        ensures name { result.now ≡ format_name self }
        ensures short { length result.now ≤ 8 }
    {
        match self {
            Format::E820 => b"e820",
            Format::Efi => b"efi",
            Format::Coreboot => b"coreboot",
            Format::Iomem => b"iomem",
        }
    }
}

// The line that names the format, if no word does.
fn append_format(line: &mut LineBuffer, asked: &Asked, format: Format)
    requires { array_vec_len line.old ≤ 0 }
    ensures text { line.new.items ≡ line.old.items ++ format_note asked.now.format format }
    ensures short { array_vec_len line.new ≤ array_vec_len line.old + 32 }
{
    if asked.format.is_none() {
        append(line, b"the map is of ");
        append(line, format.name());
        append(line, b"\n");
    }
}

// The line on bytes that two lines show.
fn append_overlap(line: &mut LineBuffer, overlap: Option<Overlap>)
    requires { array_vec_len line.old ≤ 108 }
    ensures { line.new.items ≡ line.old.items ++ overlap_note overlap }
{
    if let Some(overlap) = overlap {
        append(line, b"warning: line ");
        append_decimal(line, overlap.line);
        append(line, b": it shows bytes of line ");
        append_decimal(line, overlap.earlier);
        append(line, b" too, and counts for them\n");
    }
}

fn note_text(asked: &Asked, map: &MemoryMap) -> LineBuffer
    ensures { result.items ≡ note_text asked.now map.now }
{
    let mut line = ArrayVec::new();
    append_format(&mut line, asked, map.format);
    append_broken(&mut line, map.broken);
    append_overlap(&mut line, map.overlap);
    line
}

// ---- outcomes

/// What a log's map comes to, or its fault.
pub fn outcome_by(asked: &Asked, answer: &Result<MemoryMap, MapFault>) -> Outcome
    ensures outcome { result ≡ outcome_by asked.now answer.now }
    ensures told { IsToldStatus result.status }
{
    match answer {
        Ok(map) => Outcome {
            map: map_text(map.ranges.as_slice()),
            reasons: note_text(asked, map),
            status: Status::Done,
        },
        Err(fault) => Outcome {
            map: ArrayVec::new(),
            reasons: fault_text(asked.which, fault),
            status: fault_status(fault),
        },
    }
}

/// What words that are no command line come to.
pub(crate) fn usage_outcome() -> Outcome
    ensures { result ≡ usage_outcome }
{
    let mut reasons = ArrayVec::new();
    append(&mut reasons, b"usage\n");
    Outcome {
        map: ArrayVec::new(),
        reasons,
        status: Status::Usage,
    }
}

/// What a text of the program about itself comes to.
pub(crate) fn own_outcome(text: &[u8]) -> Outcome
    requires { length text.now ≤ 24576 }
    ensures { result ≡ own_outcome text.now }
{
    let mut map = ArrayVec::new();
    map.try_extend_from_slice(text).unwrap();
    Outcome {
        map,
        reasons: ArrayVec::new(),
        status: Status::Done,
    }
}
