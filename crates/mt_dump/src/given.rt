ghost use Rattle.std.specs.Prelude.{◌≡◌, ◌<◌, ◌++◌, ◌∷◌, [], IfOk, length};
ghost use Rattle.mt_dump.specs.Given.{Gives, has_register, read_given};

use crate::DumpFault;
use crate::dumps::Dump;
use crate::reader::{DumpReader, mark_of};
use arrayvec::ArrayVec;
use mt_regs::CAPABILITIES;
use mt_text::{Line, LineReader, Place, read_slice};

/// What the lines of one section give.
#[derive(Clone, Copy)]
pub struct Given {
    /// Whether a line gives the width.
    pub has_width: bool,
    // whether a line gives 0FEH
    pub(crate) has_capabilities: bool,
    // whether a line gives each register from 200H on
    pub(crate) marks: [bool; 256],
}

// Nothing is given.
impl Default for Given {
    ghost use Rattle.std.specs.Prelude.{⊤};

    ghost is_default = { λ _. ⊤ };

    fn default() -> Given {
        Given {
            has_width: false,
            has_capabilities: false,
            marks: [false; 256],
        }
    }
}

impl Given {
    /// Whether a line gives the register of this number.
    pub fn has(&self, number: u32) -> bool
        ensures { result ≡ has_register self.now number }
    {
        if number == CAPABILITIES {
            return self.has_capabilities;
        }
        match mark_of(number as u64) {
            Some(mark) => self.marks[mark],
            None => false,
        }
    }
}

/// A dump that a text shows, with what the text gives of it.
#[derive(Drop)]
pub struct GivenDump {
    pub dump: Dump,
    /// Whether a line gives the width. If none does it is 36 bits.
    pub has_width: bool,
    /// What the section of each file gives, in their order. In version 1 all lines are one section.
    pub sections: ArrayVec<Given, 16>,
}

// Adds what a section gives, if there is room.
fn append(sections: &mut ArrayVec<Given, 16>, section: Given)
    ensures { length sections.old.items < 16 → sections.new.items ≡ sections.old.items ++ section ∷ [] }
{
    let _ = sections.try_push(section);
}

// Reads the lines of a dump, and keeps what the sections behind the present one gave.
#[derive(Drop)]
struct GivenReader {
    reader: DumpReader,
    ended: ArrayVec<Given, 16>,
}

impl LineReader for GivenReader {
    type Answer = GivenDump;

    type Fault = DumpFault;

    ghost use Rattle.std.specs.Prelude.{⊤};
    ghost use Rattle.mt_dump.specs.Given.{LeadsToGiven};

    ghost at = { λ r. LeadsToGiven r.reader r.ended.items };

    ghost fits = { λ _. ⊤ };

    fn take_line(&mut self, line: &Line<'_>) -> Result<(), DumpFault> {
        let section = self.reader.section();
        let taken = self.reader.take(line);
        if self.reader.count() > self.ended.len() + 1 {
            append(&mut self.ended, section);
        }
        taken
    }

    fn finish_at(self, end: Place) -> Result<GivenDump, DumpFault> {
        let has_width = self.reader.has_width();
        let mut sections = self.ended;
        append(&mut sections, self.reader.section());
        match self.reader.finish(end) {
            Ok(dump) => Ok(GivenDump {
                dump,
                has_width,
                sections,
            }),
            Err(fault) => Err(fault),
        }
    }
}

/// The dump that a text shows and what the text gives of it, or its first offence.
pub fn read_given(source: &[u8]) -> Result<GivenDump, DumpFault>
    ensures answer { result ≡ read_given source.now }
    ensures given { IfOk result (Gives source.now) }
{
    let reader = GivenReader {
        reader: DumpReader::new(),
        ended: ArrayVec::new(),
    };
    read_slice(reader, source)
}
