use crate::{Format, LineSays, Stop};
use mt_text::Place;

/// Bits of a processor's register, as a log shows them. The value has no other bits.
#[derive(Clone, Copy)]
pub struct Reading {
    pub processor: u32,
    /// How many tables of a kernel or of coreboot have begun before.
    pub table: u64,
    pub number: u32,
    pub bits: u64,
    pub value: u64,
    pub place: Place,
}

/// Bits of a register, as a line shows them. The value has no other bits.
#[derive(Clone, Copy)]
pub struct Shown {
    pub number: u32,
    pub bits: u64,
    pub value: u64,
    pub place: Place,
}

/// What lines have shown of one register.
#[derive(Clone, Copy)]
pub struct Slot {
    /// The bits that lines have shown.
    pub bits: u64,
    /// The bits that the lines of the last table have shown. All bits if one table or line has shown them.
    pub fresh: u64,
    /// That table.
    pub table: u64,
    /// The value of the bits that were shown.
    pub value: u64,
    /// The last line that showed some.
    pub line: u64,
}

/// The last pair of which a line has shown that V is set.
#[derive(Clone, Copy)]
pub struct LastPair {
    /// How many pairs there are up to it.
    pub count: u64,
    /// The line that has shown it.
    pub line: u64,
}

/// A register whose value the lines behind an announcement have.
#[derive(Clone, Copy)]
pub struct Announced {
    pub processor: u32,
    pub number: u32,
    /// Whether the value of the next processor follows.
    pub goes_on: bool,
}

/// What a kernel's line on fixed ranges says.
#[derive(Clone, Copy)]
pub struct FixedLine {
    pub is_enabled: bool,
    pub table: u64,
    pub line: u64,
}

/// A run of fixed ranges of one type, as a kernel's line shows it.
#[derive(Clone, Copy)]
pub struct FixedRun {
    /// The number of its first range, counted over all fixed-range registers.
    pub first: u32,
    /// The number behind that of its last range.
    pub end: u32,
    /// The code of its type.
    pub code: u8,
    pub place: Place,
}

/// What a line warns of.
#[derive(Clone, Copy)]
pub enum Warning {
    /// The kernel found that the processors' MTRRs differ.
    Unlike,
    /// The kernel read a mask of the firmware's as another.
    WrongMask,
    /// The kernel leaves out RAM that no pair covers.
    LostMemory,
    /// By AMD's rules RAM above 4 GB, up to TOM2, may be WB.
    TopOfMemory,
    /// AMD's SYSCFG changes how fixed ranges are read.
    Syscfg,
    /// A fixed range has RdMem or WrMem, bits 4:3, which AMD has and Intel reserves.
    MemoryBits,
}

/// The last line that warns of each kind.
#[derive(Clone, Copy)]
pub struct Warned {
    pub unlike: Option<u64>,
    pub wrong_mask: Option<u64>,
    pub lost_memory: Option<u64>,
    pub top_of_memory: Option<u64>,
    pub syscfg: Option<u64>,
    pub memory_bits: Option<u64>,
}

/// How many lines were read, and what else is told of them.
#[derive(Clone, Copy)]
pub struct Tally {
    /// The format, if it is known.
    pub format: Option<Format>,
    pub lines: u64,
    /// How many are of the format.
    pub matches: u64,
    /// What they warn of.
    pub warned: Warned,
}

/// How many lines of a log show registers, by their format. Each line is of one format at most.
#[derive(Clone, Copy)]
pub struct Census {
    /// The format of the first line that tells one.
    pub first: Option<Format>,
    /// Of each format, in the order in which lines tell them.
    pub counts: [u64; 10],
}

/// The format of which most lines show registers.
#[derive(Clone, Copy)]
pub struct Best {
    pub lines: u64,
    /// The format, if a line tells one.
    pub format: Option<Format>,
}

/// What is known of a log beside what its lines show of registers.
#[derive(Clone, Copy)]
pub struct Known {
    /// The address width.
    pub width: Option<u8>,
    /// The format.
    pub format: Option<Format>,
    /// The capability register, if a word supplies it.
    pub given: Option<u64>,
}

/// Which tables of a log are read.
#[derive(Clone, Copy)]
pub enum Pick {
    /// All of them.
    Each,
    /// That of this number, from 1 on.
    Number(u64),
    /// The last one.
    Last,
}

/// The tables of a log that have begun.
#[derive(Clone, Copy)]
pub struct Tables {
    pub count: u64,
    /// The line of the first one's heading, or 0 if none has begun.
    pub first: u64,
    /// That of the last one's.
    pub last: u64,
}

/// What lines of a log lead to, whichever of its tables are read.
#[derive(Clone, Copy)]
pub struct Way {
    /// The format, if it is known.
    pub format: Option<Format>,
    pub tables: Tables,
}

/// What a line of a log says in the format that is known behind it.
#[derive(Clone, Copy)]
pub struct Told {
    pub number: u64,
    pub format: Option<Format>,
    pub said: LineSays,
    /// Whether it is a line of a table.
    pub is_part: bool,
}

/// Why a log shows no dump, and the tables that it has.
#[derive(Clone, Copy)]
pub struct Failure {
    pub stop: Stop,
    pub tables: Tables,
}
