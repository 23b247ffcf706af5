ghost use Rattle.std.specs.Prelude.{◌≡◌, ◌≤◌, length, IfOk, MatchResult};
ghost use Rattle.mt_import.specs.Census.{beside, no_census, passed_over};
ghost use Rattle.mt_import.specs.Import.{IsWritten, dump_text, failed};
ghost use Rattle.mt_import.specs.Reader.{IsShort};
ghost use Rattle.mt_import.specs.Readers.{settled};
ghost use Rattle.mt_import.specs.Tries.{IsShortFailure};

use crate::Supplied;
use crate::census::beside;
use crate::command_reader::failed;
use crate::readers::Readers;
use crate::shape::{Census, Failure};
use crate::text::Outcome;
use mt_text::{Line, LineReader, Place};

// What was read of a log by all formats, with what the command line says.
#[derive(Drop)]
pub struct AutoReader<'a> {
    readers: &'a mut Readers,
    census: Census,
    supplied: &'a Supplied,
}

impl<'a> AutoReader<'a> {
    /// That has taken no line, over readers that have taken none.
    pub(crate) fn new(readers: &'a mut Readers, supplied: &'a Supplied) -> AutoReader<'a>
        ensures same_reference { result.readers.ghost_name ≡ readers.entry.ghost_name }
        ensures readers { result.readers.now ≡ readers.old }
        ensures census { result.census ≡ no_census }
        ensures supplied { result.supplied ≡ supplied.entry }
    {
        AutoReader {
            readers,
            census: Census::none(),
            supplied,
        }
    }
}

// What a failure in the format that is taken comes to.
fn failed_in(census: &Census, supplied: &Supplied, failure: &Failure) -> Outcome
    requires { IsShort failure.now.stop.fault }
    ensures told { result ≡ beside (passed_over census.now) (failed supplied.now.table failure.now) }
    ensures written { IsWritten result.status (dump_text result) }
{
    let told = failed(supplied.table(), failure);
    beside(census.passed_over().as_slice(), told)
}

// What an answer of the format that is taken comes to.
fn settled_in(
    census: &Census,
    supplied: &Supplied,
    answer: Result<Outcome, Failure>,
) -> Result<Outcome, Outcome>
    requires fits { MatchResult answer (λ told. IsWritten told.status (dump_text told)) IsShortFailure }
    requires room { IfOk answer (λ told. length told.reasons ≤ 0x7c00) }
    ensures settled { result ≡ settled supplied.now.table (passed_over census.now) answer }
    ensures fits { MatchResult result (λ told. IsWritten told.status (dump_text told)) (λ told. IsWritten told.status (dump_text told)) }
{
    match answer {
        Ok(told) => Ok(beside(census.passed_over().as_slice(), told)),
        Err(failure) => Err(failed_in(census, supplied, &failure)),
    }
}

impl<'a> LineReader for AutoReader<'a> {
    type Answer = Outcome;

    type Fault = Outcome;

    ghost use Rattle.mt_import.specs.Readers.{LeadsBest};

    ghost at = { λ a. LeadsBest a.supplied.now a.readers.now a.census };

    ghost fits = { λ answer. MatchResult answer (λ told. IsWritten told.status (dump_text told)) (λ told. IsWritten told.status (dump_text told)) };

    fn take_line(&mut self, line: &Line<'_>) -> Result<(), Outcome> {
        if line.too_long() {
            let failure = self.readers.by(self.census.taken()).long_line(line);
            return Err(failed_in(&self.census, self.supplied, &failure));
        }
        self.census = self.census.behind(line);
        self.readers.take_line(self.supplied, line);
        Ok(())
    }

    fn finish_at(self, _end: Place) -> Result<Outcome, Outcome> {
        let AutoReader {
            readers,
            census,
            supplied,
        } = self;
        let answer = readers.by(census.taken()).answer(true, supplied);
        settled_in(&census, supplied, answer)
    }
}
