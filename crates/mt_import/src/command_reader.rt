ghost use Rattle.std.specs.Prelude.{◌≡◌, ◌↔◌, ◌<◌, ◌≤◌, false, ℕ, List, [], length, Some, IfOk, IsErrOf, MatchResult};
ghost use Rattle.mt_text.specs.Text.{longest_input};
ghost use Rattle.mt_ports.specs.Causes.{Rose};
ghost use Rattle.mt_text.specs.Feed.{GaveTooMuch};
ghost use Rattle.mt_text.specs.declared.fault.FeedFault.{FeedFault};
ghost use Rattle.mt_import.specs.Import.{IsWritten, dump_text, failed, tables_outcome};
ghost use Rattle.mt_import.specs.Reader.{IsShort};
ghost use Rattle.mt_import.specs.declared.format.Choice.TheVariants.{Auto, Only};

use crate::auto_reader::AutoReader;
use crate::log_tables::table_hint;
use crate::readers::Readers;
use crate::shape::{Failure, Pick};
use crate::text::{Outcome, faulted};
use crate::tries::Tries;
use crate::{Choice, Format, Supplied};
use mt_ports::Source;
use mt_text::{FeedFault, Line, LineReader, Place, read_lines};

// What was read of a log by one format, with what the command line says.
#[derive(Drop)]
struct CommandReader<'a> {
    tries: Tries,
    supplied: &'a Supplied,
}

impl<'a> LineReader for CommandReader<'a> {
    type Answer = Outcome;

    type Fault = Failure;

    ghost use Rattle.mt_import.specs.Tries.{IsShortFailure, LeadsTo};

    ghost at = { λ c. LeadsTo false c.supplied.now c.tries };

    ghost fits = { λ answer. MatchResult answer (λ told. IsWritten told.status (dump_text told)) IsShortFailure };

    fn take_line(&mut self, line: &Line<'_>) -> Result<(), Failure> {
        if line.too_long() {
            return Err(self.tries.long_line(line));
        }
        self.tries.take_line(self.supplied, line);
        Ok(())
    }

    fn finish_at(self, _end: Place) -> Result<Outcome, Failure> {
        self.tries.answer(false, self.supplied)
    }
}

/// What a fault comes to.
pub(crate) fn failed(pick: Pick, failure: &Failure) -> Outcome
    requires { IsShort failure.now.stop.fault }
    ensures told { result ≡ failed pick failure.now }
    ensures written { IsWritten result.status (dump_text result) }
    ensures room { length result.reasons ≤ 0x7c00 }
{
    faulted(&failure.stop, table_hint(pick, failure).as_slice())
}

// What a log comes to in this format.
fn read_only<S: Source>(
    format: Format,
    supplied: &Supplied,
    source: &mut S,
) -> Result<Outcome, FeedFault>
    ensures answer { (bytes : List ℕ) → S.left source.old ≡ Some bytes → IfOk result (λ answer. answer ≡ tables_outcome (Only format) supplied.now bytes) }
    ensures written { IfOk result (λ answer. IsWritten answer.status (dump_text answer)) }
    ensures end { (bytes : List ℕ) → S.left source.old ≡ Some bytes → IfOk result (λ _. S.left source.new ≡ Some []) }
    ensures too_long { IsErrOf result FeedFault.TooLong ↔ GaveTooMuch (S.given source.old) (S.given source.new) }
    ensures long { (bytes : List ℕ) → S.left source.old ≡ Some bytes → IsErrOf result FeedFault.TooLong → longest_input < length bytes }
    ensures failed { IsErrOf result FeedFault.ReadFault → Rose (S.faults source.old) (S.faults source.new) }
    ensures stands { (IsErrOf result FeedFault.ReadFault → ⊥) → S.faults source.new ≡ S.faults source.old }
{
    let reader = CommandReader {
        tries: Tries::new(Some(format)),
        supplied,
    };
    match read_lines(reader, source) {
        Ok(Ok(outcome)) => Ok(outcome),
        Ok(Err(failure)) => Ok(failed(supplied.table(), &failure)),
        Err(fault) => Err(fault),
    }
}

// What a log comes to in the format of which most lines show registers.
#[inline(never)]
fn read_auto<S: Source>(supplied: &Supplied, source: &mut S) -> Result<Outcome, FeedFault>
    ensures answer { (bytes : List ℕ) → S.left source.old ≡ Some bytes → IfOk result (λ answer. answer ≡ tables_outcome Auto supplied.now bytes) }
    ensures written { IfOk result (λ answer. IsWritten answer.status (dump_text answer)) }
    ensures end { (bytes : List ℕ) → S.left source.old ≡ Some bytes → IfOk result (λ _. S.left source.new ≡ Some []) }
    ensures too_long { IsErrOf result FeedFault.TooLong ↔ GaveTooMuch (S.given source.old) (S.given source.new) }
    ensures long { (bytes : List ℕ) → S.left source.old ≡ Some bytes → IsErrOf result FeedFault.TooLong → longest_input < length bytes }
    ensures failed { IsErrOf result FeedFault.ReadFault → Rose (S.faults source.old) (S.faults source.new) }
    ensures stands { (IsErrOf result FeedFault.ReadFault → ⊥) → S.faults source.new ≡ S.faults source.old }
{
    let mut readers = Readers::new();
    match read_lines(AutoReader::new(&mut readers, supplied), source) {
        Ok(Ok(outcome)) => Ok(outcome),
        Ok(Err(outcome)) => Ok(outcome),
        Err(fault) => Err(fault),
    }
}

/// What a log comes to, line by line out of one buffer. Behind a fault the rest is read too, since a failed read and
/// too many bytes take precedence over it.
pub fn read_log<S: Source>(
    choice: Choice,
    supplied: &Supplied,
    source: &mut S,
) -> Result<Outcome, FeedFault>
    ensures answer { (bytes : List ℕ) → S.left source.old ≡ Some bytes → IfOk result (λ answer. answer ≡ tables_outcome choice supplied.now bytes) }
    ensures written { IfOk result (λ answer. IsWritten answer.status (dump_text answer)) }
    ensures end { (bytes : List ℕ) → S.left source.old ≡ Some bytes → IfOk result (λ _. S.left source.new ≡ Some []) }
    ensures too_long { IsErrOf result FeedFault.TooLong ↔ GaveTooMuch (S.given source.old) (S.given source.new) }
    ensures long { (bytes : List ℕ) → S.left source.old ≡ Some bytes → IsErrOf result FeedFault.TooLong → longest_input < length bytes }
    ensures failed { IsErrOf result FeedFault.ReadFault → Rose (S.faults source.old) (S.faults source.new) }
    ensures stands { (IsErrOf result FeedFault.ReadFault → ⊥) → S.faults source.new ≡ S.faults source.old }
{
    match choice {
        Choice::Auto => read_auto(supplied, source),
        Choice::Only(format) => read_only(format, supplied, source),
    }
}
