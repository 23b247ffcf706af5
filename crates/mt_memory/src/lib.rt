//! Logs that show a map of memory, and the map's own text.
#![tactic(auto)]

mod command;
mod coreboot;
mod e820;
mod efi;
mod finding;
mod format;
mod help;
mod iomem;
mod kind;
mod laws;
mod laying;
mod map_fault;
mod outcome;
mod own_text;
mod pages;
mod program;
mod reader;
mod running;
mod settled;
mod showing;
mod table;
mod worked;

pub use command::{Asked, command_of};
pub use coreboot::COREBOOT;
pub use e820::E820;
pub use efi::EFI;
pub use format::{Claim, Format, MapFault, MapsBegun, MemoryMap, Overlap, Shown, WhichMap};
pub use iomem::IOMEM;
pub use kind::{MOST_RANGES, Ranges};
pub use laws::{
    joined_ranges_give_the_same_kinds, maps_are_given, maps_are_printed, maps_are_shown_by_lines,
    pages_are_given, pages_are_of_kinds, returns_change_nothing, spare_heads_change_nothing,
    spare_lines_change_nothing, the_later_line_counts, what_is_written_reads_back,
};
pub use map_fault::{MapTextFault, MapTextReason};
pub use mt_memory_kinds::{MemoryKind, MemoryRange};
pub use outcome::{Outcome, outcome_by};
pub use own_text::{MapBuffer, RANGE, kind_name, kind_of, map_text, read_map, read_map_from};
pub use pages::pages_of;
pub use program::{asks_for_map, map_status};
pub use reader::read_log;
pub use running::import_map;
pub use table::{Ends, Form, Front, Name, Named, Seen, Table};
pub use worked::{
    worked_faults, worked_lines, worked_maps, worked_names, worked_overlap, worked_pages,
};
