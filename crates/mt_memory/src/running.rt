ghost use Rattle.std.specs.Prelude.{◌≡◌, ◌⊎◌, ◌↔◌, ℕ, List, None, Some, IfOk, IsErrOf, IsSome, map, string_bytes};
ghost use Rattle.mt_ports.specs.Causes.{Rose, StatusHasCause};
ghost use Rattle.mt_text.specs.Feed.{GaveTooMuch};
ghost use Rattle.mt_text.specs.declared.fault.FeedFault.{FeedFault};
ghost use Rattle.mt_output.specs.Ports.{sink_run, source_run};
ghost use Rattle.mt_memory.specs.Command.{command_of};
ghost use Rattle.mt_memory.specs.Help.{own_text};
ghost use Rattle.mt_memory.specs.Outcome.{IsTold, IsToldStatus, Writes, left_of, outcome_of};

use crate::command::command_of;
use crate::help::own_text;
use crate::outcome::{Outcome, outcome_by, own_outcome, usage_outcome};
use crate::read_log;
use mt_output::written;
use mt_ports::{Sink, Source, Status};
use mt_text::FeedFault;

// What the words and the source come to.
fn command_outcome<S: Source>(words: &[String], source: &mut S) -> Result<Outcome, FeedFault>
    ensures answer { (bytes : List ℕ) → S.left source.old ≡ Some bytes → IfOk result (λ answer. answer ≡ outcome_of (map string_bytes words.now) bytes) }
    ensures end { (bytes : List ℕ) → S.left source.old ≡ Some bytes → IfOk result (λ _. S.left source.new ≡ Some (left_of (map string_bytes words.now) bytes)) }
    ensures told { IfOk result (λ answer. IsToldStatus answer.status) }
    ensures unread { command_of (map string_bytes words.now) ≡ None → source.new ≡ source.old }
    ensures own { IsSome (own_text (map string_bytes words.now)) → source.new ≡ source.old }
    ensures too_long { IsErrOf result FeedFault.TooLong ↔ GaveTooMuch (S.given source.old) (S.given source.new) }
    ensures failed { IsErrOf result FeedFault.ReadFault → Rose (S.faults source.old) (S.faults source.new) }
    ensures stands { (IsErrOf result FeedFault.ReadFault → ⊥) → S.faults source.new ≡ S.faults source.old }
{
    if let Some(text) = own_text(words) {
        return Ok(own_outcome(text));
    }
    match command_of(words) {
        Some(asked) => match read_log(asked.format, asked.which, source) {
            Ok(answer) => Ok(outcome_by(&asked, &answer)),
            Err(fault) => Err(fault),
        },
        None => Ok(usage_outcome()),
    }
}

fn status_of(fault: FeedFault) -> Status
    ensures read { (result ≡ Status.ReadFault) ↔ (fault ≡ FeedFault.ReadFault) }
    ensures long { (result ≡ Status.TooLong) ↔ (fault ≡ FeedFault.TooLong) }
{
    match fault {
        FeedFault::ReadFault => Status::ReadFault,
        FeedFault::TooLong => Status::TooLong,
    }
}

// Writes what is told of the log to one sink, and then the map to the other, if there is one. Returns the status unless a sink
// fails.
fn write<K: Sink, E: Sink>(sink: &mut K, errors: &mut E, outcome: &Outcome) -> Status
    requires { IsToldStatus outcome.now.status }
    ensures writes { Writes outcome.now (sink_run K.taken K.faults sink.old sink.new) (sink_run E.taken E.faults errors.old errors.new) result }
    ensures ends { (result ≡ outcome.now.status) ⊎ (result ≡ Status.WriteFault) }
{
    match written(errors, outcome.reasons.as_slice(), outcome.status) {
        Status::Done => written(sink, outcome.map.as_slice(), Status::Done),
        status => status,
    }
}

/// Does all that `mtrr-import memory` does. The words are `memory`, a format, and which of a log's maps, or `memory` and `--help`,
/// `-h` or `--version`. One sink takes the map. The other, as standard error, takes the reasons, and takes them first. A log
/// is read to its end, unless the source fails or gives more than 16,777,216 bytes; then nothing is written.
pub fn import_map<S: Source, K: Sink, E: Sink>(
    words: &[String],
    source: &mut S,
    sink: &mut K,
    errors: &mut E,
) -> Status
    ensures told { IsTold (map string_bytes words.now) (source_run S.left S.faults S.given source.old source.new)
        (sink_run K.taken K.faults sink.old sink.new) (sink_run E.taken E.faults errors.old errors.new) result }

    // Without a command nothing is read, nor for the program's own texts.
    ensures usage { command_of (map string_bytes words.now) ≡ None → source.new ≡ source.old }
    ensures own { IsSome (own_text (map string_bytes words.now)) → source.new ≡ source.old }
    ensures read_fault { StatusHasCause Status.ReadFault (S.faults source.old) (S.faults source.new) result }
    ensures too_long { (result ≡ Status.TooLong) ↔ GaveTooMuch (S.given source.old) (S.given source.new) }
{
    match command_outcome(words, source) {
        Ok(outcome) => write(sink, errors, &outcome),
        Err(fault) => status_of(fault),
    }
}
