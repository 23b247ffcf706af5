ghost use Rattle.std.specs.Prelude.{◌≡◌, ◌≢◌, ◌≤◌, ◌<◌, ◌+◌, ◌-◌, ◌==◌, ◌&&◌, nat_lt, not, ◌∷◌, ℕ, List, [], length, Some, None, Ok, Err, ◌↔◌, IfErr, IfOk, IsErrOf, MatchResult, MatchOption};
ghost use Rattle.mt_text.specs.Text.{longest_input};
ghost use Rattle.mt_ports.specs.Causes.{Rose};
ghost use Rattle.mt_text.specs.Feed.{GaveTooMuch};
ghost use Rattle.mt_text.specs.declared.fault.FeedFault.{FeedFault};
ghost use Rattle.mt_regs.specs.RegisterFile.{blank_file, low_byte};
ghost use Rattle.mt_dump.specs.declared.fault.DumpFault.{DumpFault};
ghost use Rattle.mt_dump.specs.Line.{Reading, fault_at, said_of};
ghost use Rattle.mt_dump.specs.Dumps.{Dump as DumpValue};
ghost use Rattle.mt_dump.specs.Dump.{Shown, gives_width, offence_of, is_outside, section_count, up_to_section};
ghost use Rattle.mt_dump.specs.Given.{given_of};
ghost use Rattle.mt_dump.specs.Reader.{HasRead, dump_offence, onto, read_from, with_width};

use crate::dumps::Dump;
use crate::given::Given;
use crate::line::read_line;
use crate::said::Said;
use crate::{DumpFault, DumpReason};
use arrayvec::ArrayVec;
use mt_ports::Source;
use mt_regs::{CAPABILITIES, FIRST_PAIR, RegFile};
use mt_text::{FeedFault, Line, LineReader, Place, read_lines, read_slice};
use std::marker::Model;

const CAP: u64 = CAPABILITIES as u64;

const FIRST: u64 = FIRST_PAIR as u64;

const MARKS: usize = 256;

const USUAL_WIDTH: u8 = 36;

/// Reads the lines of a dump one after the other.
#[derive(Drop)]
pub struct DumpReader {
    // the version that is told, or else 1
    version: u8,
    // whether a line had words
    spoken: bool,
    // the number of `cpu` lines
    sections: u8,
    // the files of the sections behind the present one
    files: ArrayVec<RegFile, 16>,
    // the file of the registers that the present section gave
    file: Option<RegFile>,
    // the width that section 0 gives, or else the usual one
    width: u8,
    // whether the present section gave the width, and 0FEH
    has_width: bool,
    has_capabilities: bool,
    // whether some line gave the width
    width_given: bool,
    // whether it gave each register from 200H on
    given: [bool; 256],
}

impl Model for DumpReader {
    ghost use Rattle.mt_dump.specs.Reader.{State};

    ghost Value = { State };

    ghost use Rattle.mt_dump.specs.Seen.{state_of, IsStateInside};

    ghost view = { state_of };

    ghost invariant = { IsStateInside };
}

pub(crate) fn mark_of(number: u64) -> Option<usize>
    ensures { MatchOption result ((0x200 ≤ number) × (number < 0x300) → ⊥) (λ mark. (0x200 ≤ number) × (number < 0x300) × (mark ≡ number - 0x200)) }
{
    if number >= FIRST && number - FIRST < MARKS as u64 {
        Some((number - FIRST) as usize)
    } else {
        None
    }
}

fn fault(reason: DumpReason, place: Place) -> DumpFault
    ensures { result ≡ fault_at reason place }
{
    DumpFault { reason, place }
}

// A later section than the first, of so many, tells something else than the first.
fn differs(sections: u8, value: u64, first: u64) -> bool
    ensures { result ≡ (nat_lt 1 sections && not (value == first)) }
{
    sections > 1 && value != first
}

// The file of a section that ends, with the width. In its place stands the next section's.
fn end_section(file: &mut RegFile, width: u8) -> RegFile
    requires { (32 ≤ width) × (width ≤ 52) }
    ensures ended { result ≡ with_width file.old width }
    ensures next { file.new ≡ blank_file 36 file.old.capabilities }
{
    let Ok(next) = RegFile::blank(USUAL_WIDTH, file.cap) else {
        unreachable!()
    };
    let mut ended = std::mem::replace(file, next);
    match ended.set_width(width) {
        Ok(()) => ended,
        Err(_) => unreachable!(),
    }
}

impl DumpReader {
    /// A reader that has read nothing.
    pub fn new() -> DumpReader
        ensures { HasRead result [] }
    {
        DumpReader {
            version: 1,
            spoken: false,
            sections: 0,
            files: ArrayVec::new(),
            file: None,
            width: USUAL_WIDTH,
            has_width: false,
            has_capabilities: false,
            width_given: false,
            given: [false; 256],
        }
    }

    fn take_version(&mut self, version: u8, place: Place) -> Result<(), DumpFault>
        requires { (1 ≤ version) × (version ≤ 2) }
        ensures { (before : List Reading) → HasRead self.old before → MatchResult result
            (λ _. HasRead self.new (Ok (Said.Version version place) ∷ before))
            (λ fault. (offence_of before (Ok (Said.Version version place)) ≡ Some fault) × (self.new ≡ self.old)) }
    {
        if self.spoken {
            return Err(fault(DumpReason::BadSection, place));
        }
        self.version = version;
        self.spoken = true;
        Ok(())
    }

    // A line stands before the first section of version 2.
    fn is_outside(&self) -> bool
        ensures { (before : List Reading) → HasRead self.now before → result ≡ is_outside before }
    {
        self.version == 2 && self.sections == 0
    }

    fn take_section(&mut self, number: u8, place: Place) -> Result<(), DumpFault>
        requires { number ≤ 15 }
        ensures { (before : List Reading) → HasRead self.old before → MatchResult result
            (λ _. HasRead self.new (Ok (Said.Section number place) ∷ before))
            (λ fault. (offence_of before (Ok (Said.Section number place)) ≡ Some fault) × (self.new ≡ self.old)) }
    {
        if self.version != 2 || number != self.sections {
            return Err(fault(DumpReason::BadSection, place));
        }
        if number > 0 {
            let Some(file) = &mut self.file else {
                return Err(fault(DumpReason::NoCap, place));
            };
            self.files.push(end_section(file, self.width));
        }
        self.spoken = true;
        self.sections += 1;
        self.has_width = false;
        self.has_capabilities = false;
        self.given = [false; 256];
        Ok(())
    }

    fn take_width(&mut self, width: u8, first: Place, second: Place) -> Result<(), DumpFault>
        requires { (32 ≤ width) × (width ≤ 52) }
        ensures { (before : List Reading) → HasRead self.old before → MatchResult result
            (λ _. HasRead self.new (Ok (Said.Width width first second) ∷ before))
            (λ fault. (offence_of before (Ok (Said.Width width first second)) ≡ Some fault) × (self.new ≡ self.old)) }
    {
        if self.is_outside() {
            return Err(fault(DumpReason::BadSection, first));
        }
        if differs(self.sections, width as u64, self.width as u64) {
            return Err(fault(DumpReason::Differs, second));
        }
        if self.has_width {
            return Err(fault(DumpReason::Repeated, first));
        }
        self.spoken = true;
        self.width = width;
        self.has_width = true;
        self.width_given = true;
        Ok(())
    }

    fn take_capabilities(
        &mut self,
        value: u64,
        first: Place,
        second: Place,
    ) -> Result<(), DumpFault>
        requires { low_byte value ≤ 32 }
        ensures { (before : List Reading) → HasRead self.old before → MatchResult result
            (λ _. HasRead self.new (Ok (Said.Register 0xfe value first second) ∷ before))
            (λ fault. (offence_of before (Ok (Said.Register 0xfe value first second)) ≡ Some fault) × (self.new ≡ self.old)) }
    {
        if self.is_outside() {
            return Err(fault(DumpReason::BadSection, first));
        }
        let Some(file) = &self.file else {
            match RegFile::blank(USUAL_WIDTH, value) {
                Ok(file) => self.file = Some(file),
                Err(_) => unreachable!(),
            }
            self.spoken = true;
            self.has_capabilities = true;
            return Ok(());
        };
        if differs(self.sections, value, file.cap) {
            return Err(fault(DumpReason::Differs, second));
        }
        if self.has_capabilities {
            return Err(fault(DumpReason::Repeated, first));
        }
        self.spoken = true;
        self.has_capabilities = true;
        Ok(())
    }

    fn take_register(
        &mut self,
        number: u64,
        value: u64,
        first: Place,
        second: Place,
    ) -> Result<(), DumpFault>
        requires { number ≢ 0xfe }
        ensures { (before : List Reading) → HasRead self.old before → MatchResult result
            (λ _. HasRead self.new (Ok (Said.Register number value first second) ∷ before))
            (λ fault. (offence_of before (Ok (Said.Register number value first second)) ≡ Some fault) × (self.new ≡ self.old)) }
    {
        if self.is_outside() {
            return Err(fault(DumpReason::BadSection, first));
        }
        let Some(file) = &mut self.file else {
            return Err(fault(DumpReason::NoCap, first));
        };
        let Some(mark) = mark_of(number) else {
            return Err(fault(DumpReason::UnknownRegister, first));
        };
        if self.given[mark] {
            return Err(fault(DumpReason::Repeated, first));
        }
        match file.set(number as u32, value) {
            Ok(()) => {
                self.spoken = true;
                self.given[mark] = true;
                Ok(())
            }
            Err(_) => Err(fault(DumpReason::UnknownRegister, first)),
        }
    }

    /// Takes one line. At `Err` the reader is unchanged.
    #[inline(always)]
    pub fn take(&mut self, line: &Line<'_>) -> Result<(), DumpFault>
        ensures { (before : List Reading) → HasRead self.old before → MatchResult result
            (λ _. HasRead self.new (said_of line.now.number line.now.bytes.now ∷ before))
            (λ fault. (offence_of before (said_of line.now.number line.now.bytes.now) ≡ Some fault) × (self.new ≡ self.old)) }
    {
        match read_line(line)? {
            Said::Nothing => Ok(()),
            Said::Version(version, place) => self.take_version(version, place),
            Said::Section(number, place) => self.take_section(number, place),
            Said::Width(width, first, second) => self.take_width(width, first, second),
            Said::Register(CAP, value, first, second) => self.take_capabilities(
                value, first, second,
            ),
            Said::Register(number, value, first, second) => {
                self.take_register(number, value, first, second)
            }
        }
    }

    // How many `cpu` lines were read.
    pub(crate) fn count(&self) -> usize
        ensures { (before : List Reading) → HasRead self.now before → result ≡ section_count before }
    {
        self.sections as usize
    }

    // Whether some line gave the width.
    pub(crate) fn has_width(&self) -> bool
        ensures { (before : List Reading) → HasRead self.now before → result ≡ gives_width before }
    {
        self.width_given
    }

    // What the lines of the present section gave.
    pub(crate) fn section(&self) -> Given
        ensures { (before : List Reading) → HasRead self.now before → result ≡ given_of (onto (up_to_section before) []) }
    {
        Given {
            has_width: self.has_width,
            has_capabilities: self.has_capabilities,
            marks: self.given,
        }
    }

    /// The dump of all lines that were read. Where none of them gave 0FEH the fault stands at the place.
    pub fn finish(self, at: Place) -> Result<Dump, DumpFault>
        ensures { (before : List Reading) → HasRead self before → result ≡ read_from at before [] }
    {
        let version = self.version;
        let width = self.width;
        let mut files = self.files;
        let Some(mut file) = self.file else {
            return Err(fault(DumpReason::NoCap, at));
        };
        match file.set_width(width) {
            Ok(()) => {
                files.push(file);
                Ok(Dump { version, files })
            }
            Err(_) => unreachable!(),
        }
    }
}

impl LineReader for DumpReader {
    type Answer = Dump;

    type Fault = DumpFault;

    ghost use Rattle.std.specs.Prelude.{⊤};
    ghost use Rattle.mt_dump.specs.Reader.{LeadsTo};

    ghost at = { LeadsTo };

    ghost fits = { λ _. ⊤ };

    #[inline(always)]
    fn take_line(&mut self, line: &Line<'_>) -> Result<(), DumpFault> {
        self.take(line)
    }

    fn finish_at(self, end: Place) -> Result<Dump, DumpFault> {
        self.finish(end)
    }
}

/// The dump that a text shows, or its first offence.
pub fn read_dump(source: &[u8]) -> Result<Dump, DumpFault>
    ensures answer { MatchResult result (λ dump. Shown source.now dump) (λ fault. dump_offence source.now ≡ Some fault) }
    ensures ok { (dump : DumpValue) → (result ≡ Ok dump) ↔ Shown source.now dump }
    ensures err { (fault : DumpFault) → (result ≡ Err fault) ↔ (dump_offence source.now ≡ Some fault) }
{
    read_slice(DumpReader::new(), source)
}

/// The dump that the bytes of a source show, or their first offence, line by line out of one
/// buffer. Behind an offence the rest is read too, so that a failed read and too many bytes come
/// before it.
pub fn read_dump_from<S: Source>(source: &mut S) -> Result<Result<Dump, DumpFault>, FeedFault>
    ensures answer { (bytes : List ℕ) → S.left source.old ≡ Some bytes → IfOk result (λ answer. MatchResult answer (λ dump. Shown bytes dump) (λ fault. dump_offence bytes ≡ Some fault)) }
    ensures end { (bytes : List ℕ) → S.left source.old ≡ Some bytes → IfOk result (λ _. S.left source.new ≡ Some []) }
    ensures too_long { IsErrOf result FeedFault.TooLong ↔ GaveTooMuch (S.given source.old) (S.given source.new) }
    ensures long { (bytes : List ℕ) → S.left source.old ≡ Some bytes → IsErrOf result FeedFault.TooLong → longest_input < length bytes }
    ensures failed { IsErrOf result FeedFault.ReadFault → Rose (S.faults source.old) (S.faults source.new) }
    ensures stands { (IsErrOf result FeedFault.ReadFault → ⊥) → S.faults source.new ≡ S.faults source.old }
{
    read_lines(DumpReader::new(), source)
}
