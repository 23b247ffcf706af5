ghost use Rattle.std.specs.Prelude.{◌≡◌, true};
ghost use Rattle.mt_import.specs.Readings.{announced_after, context_after, fixed_after, fixed_shows, flag_shown, is_listed, is_match, is_mixed, is_register, lists_after, named_processor, one_shown, processor_after, processor_turned_to, starts, table_behind, two_shown, variable_bits, variable_shows};
ghost use Rattle.mt_import.specs.Reader.{HasSlot};
ghost use Rattle.mt_import.specs.Shown.{tells_turn};

use crate::pieces::{UNREAD_PROCESSOR, count_on, shown_bits};
use crate::shape::{Announced, FixedLine, Shown, Warning};
use crate::{Format, Reason};
use mt_kinds::{DEF_TYPE_E, DEF_TYPE_FE, MTRRCAP_FIX};
use mt_regs::{CAPABILITIES, DEFAULT_TYPE};
use mt_text::Place;

const FIXED_RANGES: u64 = 1 << MTRRCAP_FIX;

const FIXED_ENABLED: u64 = 1 << DEF_TYPE_FE;

const ENABLED: u64 = 1 << DEF_TYPE_E;

/// A line shows as many registers as this at most: all fixed-range registers.
pub const MOST_SHOWN: usize = 11;

/// The registers that a line shows, in their order.
pub type Shows = [Option<Shown>; MOST_SHOWN];

/// The processor that a line turns to.
#[derive(Clone, Copy)]
pub enum Turn {
    /// This one.
    To(u32),
    /// One whose number can't be read.
    Unread,
    /// The same by a call or a prompt, as only its format has.
    UnreadCall,
}

/// What a line of a log says, whatever the other lines say.
#[derive(Clone, Copy)]
pub enum LineSays {
    /// It is of another kind.
    Nothing,
    /// The next line has the value of this register of this processor, or the next lines have it of each processor in turn.
    Announces(Option<u32>, u32),
    /// A value and nothing else.
    Value(u64, Place),
    /// The lines behind it are of another processor.
    Turns(Turn),
    /// Registers of this processor, or else of the one that the lines are of.
    Shows(Option<u32>, Shows),
    /// A register of this processor, or of processor 0 in a log whose lines name none.
    Lists(Option<u32>, Shown),
    /// A table of a kernel or of coreboot begins, and shows this.
    Begins(Shows),
    /// Whether fixed ranges are enabled, and whether the line shows FE whatever E is.
    FixedRanges(bool, bool, Place),
    /// Whether E is set.
    VariableRanges(bool, Place),
    /// The address width, in bits.
    Width(u64, Place),
    /// It warns, and has this number.
    Warns(Warning, u64),
    /// It isn't read.
    Bad(Reason, Place),
}

/// What the lines before a line lead to.
#[derive(Clone, Copy)]
pub struct Context {
    /// The format, if it is known.
    pub format: Option<Format>,
    /// The register whose value the next line may have.
    pub announced: Option<Announced>,
    /// The processor that the lines are of, if it is known.
    pub processor: Option<u32>,
    /// How many tables of a kernel or of coreboot have begun.
    pub table: u64,
    /// The last line on fixed ranges.
    pub fixed: Option<FixedLine>,
    /// Whether the last line of a list names a processor.
    pub lists_processors: Option<bool>,
}

/// Two registers, where they are some.
pub(crate) fn two_shown(a: Option<Shown>, b: Option<Shown>) -> Shows
    ensures { result ≡ two_shown a b }
{
    [a, b, None, None, None, None, None, None, None, None, None]
}

pub(crate) fn one_shown(a: Option<Shown>) -> Shows
    ensures { result ≡ one_shown a }
{
    two_shown(a, None)
}

// What a line on fixed ranges shows of IA32_MTRR_DEF_TYPE.
fn flag_shown(is_enabled: bool, is_alone: bool, place: Place) -> Option<Shown>
    ensures { result ≡ flag_shown is_enabled is_alone place }
{
    if is_enabled || is_alone {
        let value = if is_enabled { FIXED_ENABLED } else { 0 };
        shown_bits(DEFAULT_TYPE, FIXED_ENABLED, value, place)
    } else {
        None
    }
}

pub(crate) fn fixed_shows(is_enabled: bool, is_alone: bool, place: Place) -> Shows
    ensures { result ≡ fixed_shows is_enabled is_alone place }
{
    two_shown(
        flag_shown(is_enabled, is_alone, place),
        shown_bits(CAPABILITIES, FIXED_RANGES, FIXED_RANGES, place),
    )
}

/// The processor that a line names, or else the one that lines are of, or else one that no dump has.
pub(crate) fn named_processor(named: Option<u32>, current: Option<u32>) -> u32
    ensures { result ≡ named_processor named current }
{
    match named {
        Some(processor) => processor,
        None => current.unwrap_or(UNREAD_PROCESSOR),
    }
}

impl Turn {
    // The processor, if it is known.
    fn processor(&self) -> Option<u32>
        ensures { result ≡ processor_turned_to self.now }
    {
        match self {
            Turn::To(processor) => Some(*processor),
            _ => None,
        }
    }

    /// Whether such a line tells the format.
    pub(crate) fn tells(&self) -> bool
        ensures { result ≡ tells_turn self.now }
    {
        match self {
            Turn::To(processor) => 0 < *processor,
            Turn::Unread => false,
            Turn::UnreadCall => true,
        }
    }
}

impl LineSays {
    /// Whether the line is of the format.
    pub(crate) fn is_match(&self) -> bool
        ensures { result ≡ is_match self.now }
    {
        match self {
            LineSays::Nothing => false,
            _ => true,
        }
    }

    fn announced(&self, before: Option<Announced>) -> Option<Announced>
        ensures { result ≡ announced_after self.now before }
    {
        match self {
            LineSays::Announces(Some(processor), number) => Some(Announced {
                processor: *processor,
                number: *number,
                goes_on: false,
            }),
            LineSays::Announces(None, number) => Some(Announced {
                processor: 0,
                number: *number,
                goes_on: true,
            }),
            LineSays::Value(_, _) => match before {
                Some(announced) if announced.goes_on && announced.processor < 65_535 => {
                    Some(Announced {
                        processor: announced.processor + 1,
                        number: announced.number,
                        goes_on: true,
                    })
                }
                _ => None,
            },
            _ => None,
        }
    }

    fn processor_or(&self, before: Option<u32>) -> Option<u32>
        ensures { result ≡ processor_after self.now before }
    {
        match self {
            LineSays::Turns(turn) => turn.processor(),
            LineSays::Announces(processor, _) => *processor,
            _ => before,
        }
    }

    fn table_behind(&self, before: u64) -> u64
        ensures { result ≡ table_behind self.now before }
    {
        match self {
            LineSays::Begins(_) => count_on(before),
            _ => before,
        }
    }

    fn lists_behind(&self, before: Option<bool>) -> Option<bool>
        ensures { result ≡ lists_after self.now before }
    {
        match self {
            LineSays::Lists(processor, _) => Some(processor.is_some()),
            _ => before,
        }
    }

    fn fixed_behind(&self, table: u64, before: Option<FixedLine>) -> Option<FixedLine>
        ensures { result ≡ fixed_after self.now table before }
    {
        match self {
            LineSays::FixedRanges(is_enabled, _, place) => Some(FixedLine {
                is_enabled: *is_enabled,
                table,
                line: place.line,
            }),
            _ => before,
        }
    }
}

impl Context {
    /// Whether lines of a list before name processors where this one doesn't, or the other way round.
    pub(crate) fn is_mixed(&self, names: bool) -> bool
        ensures { result ≡ is_mixed self.now.lists_processors names }
    {
        match self.lists_processors {
            Some(true) => !names,
            Some(false) => names,
            None => false,
        }
    }

    /// Before all lines of a log, whose format may be known.
    pub fn starts(format: Option<Format>) -> Context
        ensures { result ≡ starts format }
    {
        Context {
            format,
            announced: None,
            processor: Some(0),
            table: 0,
            fixed: None,
            lists_processors: None,
        }
    }

    /// What a line leads to, behind lines that lead to this.
    pub fn after(&self, format: Option<Format>, said: &LineSays) -> Context
        ensures { result ≡ context_after self.now format said.now }
    {
        Context {
            format,
            announced: said.announced(self.announced),
            processor: said.processor_or(self.processor),
            table: said.table_behind(self.table),
            fixed: said.fixed_behind(self.table, self.fixed),
            lists_processors: said.lists_behind(self.lists_processors),
        }
    }

    // The bits of IA32_MTRR_DEF_TYPE that a line on variable ranges shows.
    fn variable_bits(&self, is_enabled: bool) -> u64
        ensures { result ≡ variable_bits self.now is_enabled }
    {
        match self.fixed {
            Some(line) if is_enabled && !line.is_enabled && line.table == self.table => {
                FIXED_ENABLED + ENABLED
            }
            _ => ENABLED,
        }
    }

    /// What a line on variable ranges shows.
    pub(crate) fn variable_shows(&self, is_enabled: bool, place: Place) -> Shows
        ensures { result ≡ variable_shows self.now is_enabled place }
    {
        let value = if is_enabled { ENABLED } else { 0 };
        one_shown(shown_bits(DEFAULT_TYPE, self.variable_bits(is_enabled), value, place))
    }
}

fn is_listed(number: u64) -> bool
    ensures { result ≡ is_listed number }
{
    matches!(
        number,
        0xfe | 0x200..=0x23f | 0x250 | 0x258 | 0x259 | 0x268..=0x26f | 0x277 | 0x2ff
    )
}

/// Whether some dump has a register of this number.
pub(crate) fn is_register(number: u64) -> bool
    ensures register { result ≡ is_register number }
    ensures slot { result ≡ true → HasSlot number }
{
    is_listed(number)
}
