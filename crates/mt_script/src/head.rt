ghost use Rattle.std.specs.Prelude.{◌≡◌, true, ◌∷◌, [], List, Some, None, IfOk, IfSome, MatchOption, MatchResult};
ghost use Rattle.mt_dump.specs.ForProcessors.{has_each};
ghost use Rattle.mt_dump.specs.Line.{Reading};
ghost use Rattle.mt_dump.specs.Reader.{HasRead, read_from};
ghost use Rattle.mt_script.specs.Situation.{Situation, at_start};
ghost use Rattle.mt_script.specs.Stages.{is_in_dump};
ghost use Rattle.mt_script.specs.Head.{TakesLine, dump_step, end_step, head_step, offends, shows};

use crate::first_place::first_place;
use crate::number::fault;
use crate::read::ends_dump;
use crate::row_table::is_in_dump;
use crate::{Offence, ScriptReason, Setup, read_command};
use mt_dump::{Dump, DumpReader};
use mt_text::{Line, Place};
use std::mem;

/// A reader of a script's lines up to the dump's end.
#[derive(Drop)]
pub struct Head {
    /// What the lines so far have set up.
    pub setup: Setup,
    /// The lines of the dump so far.
    pub dump: DumpReader,
}

// What the lines of a dump show to so many processors. Its last line has the word `end` at this place.
fn end_dump(dump: &mut DumpReader, cpus: u32, at: Place) -> Result<Dump, Offence>
    ensures each { IfOk result (λ d. has_each cpus d ≡ true) }
    ensures step { (before : List Reading) → HasRead dump.old before → MatchResult result
        (λ d. HasRead dump.new [] × (end_step cpus at (read_from at before []) ≡ shows d))
        (λ offence. end_step cpus at (read_from at before []) ≡ offends offence) }
{
    match mem::replace(dump, DumpReader::new()).finish(at) {
        Ok(d) if d.has_each(cpus) => Ok(d),
        Ok(_) => Err(Offence::Script(fault(ScriptReason::OutOfRange, at))),
        Err(missing) => Err(Offence::Dump(missing)),
    }
}

/// Takes a line of a dump for so many processors. The dump is what the lines so far show, where this
/// line's only word is `end`; the reader has then read nothing.
pub fn take_dump_line(
    dump: &mut DumpReader,
    cpus: u32,
    line: &Line<'_>,
) -> Result<Option<Dump>, Offence>
    ensures each { IfOk result (λ shown. IfSome shown (λ d. has_each cpus d ≡ true)) }
    ensures step { (now : Situation) (before : List Reading) → now.cpus ≡ cpus → HasRead dump.old before → TakesLine now dump.new (dump_step now before line.now.number line.now.bytes.now) result }
{
    if ends_dump(line) {
        return match end_dump(dump, cpus, first_place(line)) {
            Ok(d) => Ok(Some(d)),
            Err(offence) => Err(offence),
        };
    }
    match dump.take(line) {
        Ok(()) => Ok(None),
        Err(fault) => Err(Offence::Dump(fault)),
    }
}

impl Head {
    /// A reader that has taken no line.
    pub fn new() -> Head
        ensures setup { result.setup ≡ at_start }
        ensures dump { HasRead result.dump [] }
    {
        Head {
            setup: Setup::new(),
            dump: DumpReader::new(),
        }
    }

    /// Takes the next line. The dump is what its lines show, where this line ends it.
    pub fn take(&mut self, line: &Line<'_>) -> Result<Option<Dump>, Offence>
        ensures shown { IfOk result (λ shown. IfSome shown (λ d. (is_in_dump self.old.setup.stage ≡ true) × (self.new.setup ≡ self.old.setup))) }
        ensures each { IfOk result (λ shown. IfSome shown (λ d. has_each self.old.setup.cpus d ≡ true)) }
        ensures step { (before : List Reading) → HasRead self.old.dump before → TakesLine self.new.setup self.new.dump (head_step self.old.setup before line.now.number line.now.bytes.now) result }
    {
        if is_in_dump(self.setup.stage()) {
            return take_dump_line(&mut self.dump, self.setup.cpus(), line);
        }
        match read_command(line, &self.setup) {
            Ok(command) => {
                self.setup.accept(&command);
                Ok(None)
            }
            Err(fault) => Err(Offence::Script(fault)),
        }
    }
}
