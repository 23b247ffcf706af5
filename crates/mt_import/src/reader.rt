ghost use Rattle.std.specs.Prelude.{◌≡◌, ◌≤◌, ◌<◌, [], ◌∷◌, max, slice_get, Some, IfOk, IfSome};
ghost use Rattle.mt_import.specs.Readings.{context_after, fixed_clash, fixed_facts, is_line, is_register_value, is_width, line_facts, listed_facts, reading_facts, said_facts, shown_facts, shows_facts, starts, unlike, value_facts};
ghost use Rattle.mt_import.specs.Outcome.{Seen, capabilities_after, count_of, fixed_line_after, is_fit_width, last_after, least_count, nothing_seen, one_if, shows_fixed};
ghost use Rattle.mt_import.specs.Reader.{HasSlot, HasTakenFacts, IsFit, IsReader, IsShort, KeepsFact, MayKeep, TakesFacts, held_at, slot_of, slots_of};

use crate::pieces::{count_on, shown_as};
use crate::reading::{MOST_SHOWN, fixed_shows, is_register, named_processor};
use crate::shape::{FixedLine, LastPair, Reading, Shown, Slot, Tally, Told, Warned};
use crate::values::{is_fixed_number, is_pair_number};
use crate::{Context, Format, ImportFault, LineSays, Reason, Rival, Shows, Supplied};
use mt_kinds::{PHYSMASK_V, is_bit_set};
use mt_regs::{CAPABILITIES, DEFAULT_TYPE, PAT};
use mt_text::Place;
use std::marker::Model;

mod rivals;

use rivals::width_rival;

// Registers of a processor: 0FEH, those of pairs, those from 250H to 26FH, 277H and 2FFH.
const SLOTS: usize = 99;

// The fixed-range registers have numbers from here.
const FIRST_FIXED: u32 = 0x250;

// Up to here no other register has one.
const LAST_FIXED: u32 = 0x26f;

/// Gathers the registers that the lines of a log show.
#[derive(Drop)]
pub struct LogReader {
    // what the lines so far lead to
    context: Context,
    // each processor's registers
    slots: [Slot; 1584],
    // the capability register, as the lines of all processors show it
    capabilities: Slot,
    // the last pair of which a line shows that it is enabled
    last: Option<LastPair>,
    // the last line that shows that a fixed-range register isn't 0
    line_of_fixed: Option<u64>,
    // as many as are shown, and one at least
    processors: u32,
    // the address width, where a line shows it, and the last such line
    width: Option<u8>,
    line_of_width: u64,
    tally: Tally,
}

impl Model for LogReader {
    ghost use Rattle.mt_import.specs.Reader.{IsReader, State};

    ghost Value = { State };

    ghost view = { λ r. record { context = r.context; slots = r.slots; capabilities = r.capabilities; last = r.last; line_of_fixed = r.line_of_fixed; processors = r.processors; width = r.width; line_of_width = r.line_of_width; tally = r.tally } };

    ghost invariant = { λ r. IsReader r.slots r.processors r.width };
}

fn slot_of(number: u32) -> Option<usize>
    ensures slot { result ≡ slot_of number }
    ensures within { IfSome result (λ slot. slot < 99) }
{
    if number == CAPABILITIES {
        Some(0)
    } else if number == PAT {
        Some(97)
    } else if number == DEFAULT_TYPE {
        Some(98)
    } else if is_pair_number(number) {
        Some((number - 0x1ff) as usize)
    } else if is_fixed_number(number) {
        Some((number - 0x20f) as usize)
    } else {
        None
    }
}

fn is_fit_width(width: u64) -> bool
    ensures { result ≡ is_fit_width width }
{
    31 < width && width < 53
}

// The capability register's behind one more reading.
fn capabilities_after(reading: &Reading, before: Slot) -> Slot
    ensures { result ≡ capabilities_after reading.now before }
{
    if reading.number == CAPABILITIES {
        before.with(reading)
    } else {
        before
    }
}

// The least VCNT that a reading allows: it counts the pair that the reading shows as enabled.
fn least_count(reading: &Reading) -> u64
    ensures { result ≡ least_count reading.now }
{
    if is_pair_number(reading.number)
        && reading.number % 2 == 1
        && is_bit_set(reading.value, PHYSMASK_V)
    {
        ((reading.number - 0x1ff) / 2) as u64
    } else {
        0
    }
}

fn count_of(last: Option<LastPair>) -> u64
    ensures { result ≡ count_of last }
{
    match last {
        Some(last) => last.count,
        None => 0,
    }
}

// The last enabled pair behind one more reading.
fn last_after(reading: &Reading, before: Option<LastPair>) -> Option<LastPair>
    ensures { result ≡ last_after reading.now before }
{
    let count = least_count(reading);
    if count_of(before) < count {
        Some(LastPair {
            count,
            line: reading.place.line,
        })
    } else {
        before
    }
}

// Whether a reading shows that a fixed-range register isn't 0.
fn shows_fixed(reading: &Reading) -> bool
    ensures { result ≡ shows_fixed reading.now }
{
    FIRST_FIXED <= reading.number && reading.number <= LAST_FIXED && 0 < reading.value
}

// The last line that shows so, behind one more reading.
fn fixed_line_after(reading: &Reading, before: Option<u64>) -> Option<u64>
    ensures { result ≡ fixed_line_after reading.now before }
{
    if shows_fixed(reading) {
        Some(reading.place.line)
    } else {
        before
    }
}

fn greater(a: u32, b: u32) -> u32
    ensures { result ≡ max a b }
{
    if a < b { b } else { a }
}

fn shown_at(shows: &Shows, i: usize) -> Option<Shown>
    requires { i < 11 }
    ensures { slice_get shows.now i ≡ Some result }
{
    shows[i]
}

fn one_if(matches: bool, count: u64) -> u64
    ensures { result ≡ one_if matches count }
{
    if matches { count_on(count) } else { count }
}

// The line on fixed ranges before, if it says something else.
fn fixed_clash(before: Option<FixedLine>, is_enabled: bool) -> Option<u64>
    ensures { result ≡ fixed_clash before is_enabled }
{
    match before {
        Some(line) if unlike(line.is_enabled, is_enabled) => Some(line.line),
        _ => None,
    }
}

fn unlike(flag: bool, on: bool) -> bool
    ensures { result ≡ unlike flag on }
{
    if flag { !on } else { on }
}

impl LogReader {
    /// A reader that has taken no line of a log, whose format may be known.
    pub fn new(format: Option<Format>) -> LogReader
        ensures taken { HasTakenFacts result (nothing_seen format) }
        ensures context { result.context ≡ starts format }
    {
        let blank = Slot::blank();
        LogReader {
            context: Context::starts(format),
            slots: [blank; 1584],
            capabilities: blank,
            last: None,
            line_of_fixed: None,
            processors: 1,
            width: None,
            line_of_width: 0,
            tally: Tally {
                format,
                lines: 0,
                matches: 0,
                warned: Warned::none(),
            },
        }
    }

    fn held(&self, processor: u32, slot: usize) -> Slot
        requires processor { processor < 16 }
        requires slot { slot < 99 }
        ensures { result ≡ held_at self.now.slots processor (Some slot) }
    {
        self.slots[SLOTS * processor as usize + slot]
    }

    /// What lines have shown of a processor's register.
    pub(crate) fn slot(&self, processor: u32, number: u32) -> Slot
        requires { processor < 16 }
        ensures { result ≡ slots_of self.now processor number }
    {
        match slot_of(number) {
            Some(slot) => self.held(processor, slot),
            None => Slot::blank(),
        }
    }

    /// What every value of the type keeps. This does nothing.
    pub fn is_reader(&self)
        ensures { IsReader self.now.slots self.now.processors self.now.width }
    {
        let _ = &self.processors;
    }

    /// How many processors there are.
    pub fn count(&self) -> u32
        ensures count { result ≡ self.now.processors }
        ensures some { 1 ≤ result }
        ensures few { result ≤ 16 }
    {
        self.processors
    }

    /// The address width that lines show.
    pub(crate) fn shown_width(&self) -> Option<u8>
        ensures width { result ≡ self.now.width }
        ensures fit { IfSome result IsFit }
    {
        self.width
    }

    pub(crate) fn tally(&self) -> Tally
        ensures { result ≡ self.now.tally }
    {
        self.tally
    }

    // Keeps a reading that has no fault.
    fn keep(&mut self, reading: &Reading)
        requires { MayKeep self.old reading.now }
        ensures { KeepsFact self.old self.new (is_register_value reading.now) }
    {
        let Some(slot) = slot_of(reading.number) else {
            unreachable!()
        };
        let next = self.held(reading.processor, slot).with(reading);
        self.slots[SLOTS * reading.processor as usize + slot] = next;
        self.capabilities = capabilities_after(reading, self.capabilities);
        self.last = last_after(reading, self.last);
        self.line_of_fixed = fixed_line_after(reading, self.line_of_fixed);
        self.processors = greater(reading.processor + 1, self.processors);
        self.tally.warned = self.tally.warned.by(reading);
    }

    // Takes a reading.
    fn take_reading(&mut self, supplied: &Supplied, reading: &Reading) -> Result<(), ImportFault>
        requires { HasSlot reading.now.number }
        ensures { TakesFacts supplied.now self.old self.new (is_register_value reading.now ∷ []) result }
    {
        match self.reading_fault(supplied, reading) {
            Some(fault) => Err(fault),
            None => {
                self.keep(reading);
                Ok(())
            }
        }
    }

    // Takes bits of a register, where some dump has the register.
    fn take_shown(
        &mut self,
        supplied: &Supplied,
        processor: u32,
        table: u64,
        shown: Shown,
    ) -> Result<(), ImportFault>
        ensures { TakesFacts supplied.now self.old self.new (reading_facts processor table shown) result }
    {
        if !is_register(shown.number as u64) {
            return Ok(());
        }
        let reading = Reading {
            processor,
            table,
            number: shown.number,
            bits: shown.bits,
            value: shown.value,
            place: shown.place,
        };
        self.take_reading(supplied, &reading)
    }

    fn take_one(
        &mut self,
        supplied: &Supplied,
        processor: u32,
        table: u64,
        shown: Option<Shown>,
    ) -> Result<(), ImportFault>
        ensures { TakesFacts supplied.now self.old self.new (shown_facts processor table shown) result }
    {
        match shown {
            Some(shown) => self.take_shown(supplied, processor, table, shown),
            None => Ok(()),
        }
    }

    // Takes the registers that a line shows, in their order.
    fn take_shows(
        &mut self,
        supplied: &Supplied,
        processor: u32,
        table: u64,
        shows: &Shows,
    ) -> Result<(), ImportFault>
        ensures { TakesFacts supplied.now self.old self.new (shows_facts processor table shows.now) result }
    {
        'shows: for i in 0..MOST_SHOWN {
            if let Err(fault) = self.take_one(supplied, processor, table, shown_at(shows, i)) {
                return Err(fault);
            }
        }
        Ok(())
    }

    // Takes a width.
    fn take_width(
        &mut self,
        supplied: &Supplied,
        width: u64,
        place: Place,
    ) -> Result<(), ImportFault>
        ensures { TakesFacts supplied.now self.old self.new (is_width width place ∷ []) result }
    {
        if !is_fit_width(width) {
            return Err(ImportFault::BadWidth(place));
        }
        match width_rival(supplied.width, self.width, self.line_of_width, width) {
            Some(rival) => Err(ImportFault::WidthContradiction(place, rival)),
            None => {
                self.width = Some(width as u8);
                self.line_of_width = place.line;
                Ok(())
            }
        }
    }

    // Takes a value alone, where a register was announced.
    fn take_value(
        &mut self,
        supplied: &Supplied,
        value: u64,
        place: Place,
    ) -> Result<(), ImportFault>
        ensures { TakesFacts supplied.now self.old self.new (value_facts self.old.context.announced self.old.context.table value place) result }
    {
        match self.context.announced {
            Some(announced) => {
                let shown = shown_as(announced.number, value, place);
                let table = self.context.table;
                self.take_one(supplied, announced.processor, table, shown)
            }
            None => Ok(()),
        }
    }

    // Takes a line on fixed ranges.
    fn take_fixed(
        &mut self,
        supplied: &Supplied,
        is_enabled: bool,
        is_alone: bool,
        place: Place,
    ) -> Result<(), ImportFault>
        ensures { TakesFacts supplied.now self.old self.new (fixed_facts self.old.context is_enabled is_alone place) result }
    {
        if let Some(line) = fixed_clash(self.context.fixed, is_enabled) {
            let rival = Rival::Line(line);
            return Err(ImportFault::Contradiction(place, DEFAULT_TYPE, rival));
        }
        let table = self.context.table;
        self.take_shows(
            supplied,
            0,
            table,
            &fixed_shows(is_enabled, is_alone, place),
        )
    }

    // Takes a line of a list.
    fn take_listed(
        &mut self,
        supplied: &Supplied,
        processor: Option<u32>,
        shown: Shown,
    ) -> Result<(), ImportFault>
        ensures { TakesFacts supplied.now self.old self.new (listed_facts self.old.context processor shown) result }
    {
        if self.context.is_mixed(processor.is_some()) {
            return Err(ImportFault::BadLine(Reason::MixedNumbers, shown.place));
        }
        let table = self.context.table;
        self.take_shown(supplied, named_processor(processor, Some(0)), table, shown)
    }

    // Takes what a line says.
    fn take_said(&mut self, supplied: &Supplied, said: &LineSays) -> Result<(), ImportFault>
        ensures { TakesFacts supplied.now self.old self.new (said_facts self.old.context said.now) result }
    {
        let table = self.context.table;
        match said {
            LineSays::Value(value, place) => self.take_value(supplied, *value, *place),
            LineSays::Shows(processor, shows) => {
                let processor = named_processor(*processor, self.context.processor);
                self.take_shows(supplied, processor, table, shows)
            }
            LineSays::Begins(shows) => self.take_shows(supplied, 0, count_on(table), shows),
            LineSays::FixedRanges(is_enabled, is_alone, place) => {
                self.take_fixed(supplied, *is_enabled, *is_alone, *place)
            }
            LineSays::VariableRanges(is_enabled, place) => {
                let shows = self.context.variable_shows(*is_enabled, *place);
                self.take_shows(supplied, 0, table, &shows)
            }
            LineSays::Width(width, place) => self.take_width(supplied, *width, *place),
            LineSays::Warns(warning, number) => {
                self.tally.warned = self.tally.warned.with(*warning, *number);
                Ok(())
            }
            LineSays::Lists(processor, shown) => self.take_listed(supplied, *processor, *shown),
            LineSays::Bad(why, place) => Err(ImportFault::BadLine(*why, *place)),
            LineSays::Nothing | LineSays::Announces(..) | LineSays::Turns(_) => Ok(()),
        }
    }

    // Counts a line.
    fn count_line(&mut self, number: u64, format: Option<Format>, matches: bool)
        ensures { KeepsFact self.old self.new (is_line number format matches) }
    {
        self.tally = Tally {
            format,
            lines: number,
            matches: one_if(matches, self.tally.matches),
            warned: self.tally.warned,
        };
    }

    fn context(&self) -> Context
        ensures { result ≡ self.now.context }
    {
        self.context
    }

    // Sets the context that the lines so far lead to.
    fn set_context(&mut self, context: Context)
        ensures taken { (seen : Seen) → HasTakenFacts self.old seen → HasTakenFacts self.new seen }
        ensures context { self.new.context ≡ context }
    {
        self.context = context;
    }

    // Takes what a line of this number says in this format.
    fn take_in(
        &mut self,
        supplied: &Supplied,
        number: u64,
        format: Option<Format>,
        said: &LineSays,
    ) -> Result<(), ImportFault>
        ensures { TakesFacts supplied.now self.old self.new (line_facts number format self.old.context said.now) result }
    {
        self.count_line(number, format, said.is_match());
        self.take_said(supplied, said)
    }

    /// Takes what a line says.
    pub(crate) fn take(
        &mut self,
        supplied: &Supplied,
        told: &Told,
        said: &LineSays,
    ) -> Result<(), ImportFault>
        ensures facts { TakesFacts supplied.now self.old self.new
            (line_facts told.now.number told.now.format self.old.context said.now) result }
        ensures context { IfOk result (λ _. self.new.context ≡ context_after self.old.context told.now.format said.now) }
    {
        let before = self.context();
        match self.take_in(supplied, told.number, told.format, said) {
            Ok(()) => {
                self.set_context(before.after(told.format, said));
                Ok(())
            }
            Err(fault) => Err(fault),
        }
    }

    /// A reader that has taken the same lines.
    pub(crate) fn copy(&self) -> LogReader
        ensures { result ≡ self.now }
    {
        LogReader {
            context: self.context,
            slots: self.slots,
            capabilities: self.capabilities,
            last: self.last,
            line_of_fixed: self.line_of_fixed,
            processors: self.processors,
            width: self.width,
            line_of_width: self.line_of_width,
            tally: self.tally,
        }
    }
}
