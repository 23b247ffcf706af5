use crate::NoReport;
use mt_memory::{
    MapFault, MapTextFault, MapTextReason, Ranges, WhichMap, pages_of, read_log, read_map,
};
use mt_ports::MemSource;
use mt_text::{LONGEST_INPUT, Place};
use std::alloc::Global;

fn no_map(place: Place, reason: &'static str) -> NoReport {
    NoReport::NoDump {
        line: place.line,
        column: place.column,
        reason,
    }
}

fn text_fault(fault: MapTextFault) -> NoReport {
    no_map(
        fault.place,
        match fault.reason {
            MapTextReason::LongLine => "long line",
            MapTextReason::BadRange => "neither a range of bytes nor a log with a memory map",
            MapTextReason::Backward => "the range ends before it begins",
            MapTextReason::NoKind => "no kind",
            MapTextReason::BadKind => "no kind of memory",
            MapTextReason::ExtraWord => "extra word",
            MapTextReason::NotAscending => "not above the ranges before it",
            MapTextReason::TooManyRanges => "more than 512 ranges",
        },
    )
}

// The fault of a log with a map, or that of the map's own text.
fn log_fault(fault: MapFault, own: MapTextFault) -> NoReport {
    match fault {
        MapFault::LongLine(place) => no_map(place, "long line"),
        MapFault::Backward(place) => no_map(place, "the range ends before it begins"),
        MapFault::UnknownKind(place) => no_map(place, "no kind of memory"),
        MapFault::Hidden(place) => no_map(place, "the addresses are hidden; root sees them"),
        MapFault::Utf16(place) => no_map(place, "UTF-16"),
        MapFault::TooManyRanges(place) => no_map(place, "more than 512 ranges"),
        MapFault::SeveralMaps(begun) => NoReport::SeveralMaps(begun.count),
        MapFault::NoMap(_) => text_fault(own),
    }
}

// The ranges of bytes of a map's own text, or of a log with one map. There is one range at least.
fn ranges_of(alloc: Global, text: Vec<u8>) -> Result<Ranges, NoReport> {
    let own = match read_map(text.as_slice()) {
        Ok(ranges) => {
            if !ranges.is_empty() {
                return Ok(ranges);
            }
            MapTextFault {
                reason: MapTextReason::BadRange,
                place: Place { line: 1, column: 1 },
            }
        }
        Err(fault) => fault,
    };
    let mut source = MemSource::new(text, LONGEST_INPUT, Vec::new(alloc));
    match read_log(None, WhichMap::Sole, &mut source) {
        Ok(Ok(map)) if map.broken == 0 => Ok(map.ranges),
        Ok(Ok(map)) => Err(no_map(
            Place {
                line: map.broken,
                column: 1,
            },
            "the line breaks off within its range",
        )),
        Ok(Err(fault)) => Err(log_fault(fault, own)),
        Err(_) => Err(NoReport::TooLong),
    }
}

/// The pages of a memory map, whose text has at most `LONGEST_INPUT` bytes. Fails with `TooLong`, `NoDump`, `SeveralMaps` or `ManyRuns`.
pub fn pages_by(alloc: Global, text: Vec<u8>) -> Result<Ranges, NoReport> {
    if text.len() > LONGEST_INPUT {
        return Err(NoReport::TooLong);
    }
    let ranges = ranges_of(alloc, text)?;
    pages_of(ranges.as_slice()).ok_or(NoReport::ManyRuns)
}
