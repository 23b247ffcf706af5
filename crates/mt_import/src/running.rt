ghost use Rattle.std.specs.Prelude.{◌≡◌, ◌≢◌, ◌≤◌, ◌↔◌, ℕ, ◌<◌, List, Some, None, IfOk, IsErrOf, IsSome, length, map, string_bytes};
ghost use Rattle.mt_text.specs.Text.{longest_input};
ghost use Rattle.mt_text.specs.declared.fault.FeedFault.{FeedFault};
ghost use Rattle.mt_ports.specs.Causes.{Rose, StatusHasCause};
ghost use Rattle.mt_text.specs.Feed.{GaveTooMuch};
ghost use Rattle.mt_output.specs.Ports.{change, held, port};
ghost use Rattle.mt_import.specs.Help.{own_text};
ghost use Rattle.mt_import.specs.Supplied.{command_of};
ghost use Rattle.mt_import.specs.Import.{HaveCause, Imports, ImportsApart, IsWritten, dump_text, left_of, own_outcome, outcome_of, usage_outcome};

use crate::help::own_text;
use crate::text::Outcome;
use crate::writing::{written_apart, written_in_one};
use crate::{command_of, read_log};
use arrayvec::ArrayVec;
use mt_dump::append_text;
use mt_ports::{Sink, Source, Status};
use mt_text::FeedFault;

fn own_outcome(text: &[u8]) -> Outcome
    requires { length text.now ≤ 0x8000 }
    ensures { result ≡ own_outcome text.now }
{
    let mut dump = ArrayVec::new();
    append_text(&mut dump, text);
    Outcome {
        notes: ArrayVec::new(),
        dump,
        reasons: ArrayVec::new(),
        status: Status::Done,
    }
}

fn usage_outcome() -> Outcome
    ensures { result ≡ usage_outcome }
{
    let mut reasons = ArrayVec::new();
    append_text(&mut reasons, b"usage\n");
    Outcome {
        notes: ArrayVec::new(),
        dump: ArrayVec::new(),
        reasons,
        status: Status::Usage,
    }
}

// What the words and the source come to.
fn command_outcome<S: Source>(words: &[String], source: &mut S) -> Result<Outcome, FeedFault>
    ensures answer { (bytes : List ℕ) → S.left source.old ≡ Some bytes → IfOk result (λ answer. answer ≡ outcome_of (map string_bytes words.now) bytes) }
    ensures end { (bytes : List ℕ) → S.left source.old ≡ Some bytes → IfOk result (λ _. S.left source.new ≡ Some (left_of (map string_bytes words.now) bytes)) }
    ensures written { IfOk result (λ answer. IsWritten answer.status (dump_text answer)) }
    ensures unread { command_of (map string_bytes words.now) ≡ None → source.new ≡ source.old }
    ensures own { IsSome (own_text (map string_bytes words.now)) → source.new ≡ source.old }
    ensures too_long { IsErrOf result FeedFault.TooLong ↔ GaveTooMuch (S.given source.old) (S.given source.new) }
    ensures long { (bytes : List ℕ) → S.left source.old ≡ Some bytes → IsErrOf result FeedFault.TooLong → longest_input < length bytes }
    ensures failed { IsErrOf result FeedFault.ReadFault → Rose (S.faults source.old) (S.faults source.new) }
    ensures stands { (IsErrOf result FeedFault.ReadFault → ⊥) → S.faults source.new ≡ S.faults source.old }
{
    if let Some(text) = own_text(words) {
        return Ok(own_outcome(text));
    }
    match command_of(words) {
        Some((choice, supplied)) => read_log(choice, &supplied, source),
        None => Ok(usage_outcome()),
    }
}

fn status_of(fault: FeedFault) -> Status
    ensures read { (result ≡ Status.ReadFault) ↔ (fault ≡ FeedFault.ReadFault) }
    ensures long { (result ≡ Status.TooLong) ↔ (fault ≡ FeedFault.TooLong) }
    ensures memory { result ≢ Status.NoMemory }
{
    match fault {
        FeedFault::ReadFault => Status::ReadFault,
        FeedFault::TooLong => Status::TooLong,
    }
}

/// Does all that the program does over one sink, which takes the dump, or else the reasons, and returns its status. The words are
/// the command line without the program's name: a format, and what is supplied or may be assumed, or `--help` or `--version` alone.
/// A log is read to its end, unless the source fails or gives more than 16,777,216 bytes; then nothing is written.
pub fn import<S: Source, K: Sink>(words: &[String], source: &mut S, sink: &mut K) -> Status
    ensures imports { (bytes : List ℕ) → S.left source.old ≡ Some bytes →
        Imports (map string_bytes words.now) (held bytes (S.left source.new)) (port K.taken sink.old sink.new) result }

    // Without a command nothing is read, nor for the program's own texts.
    ensures unread { command_of (map string_bytes words.now) ≡ None → source.new ≡ source.old }
    ensures own { IsSome (own_text (map string_bytes words.now)) → source.new ≡ source.old }

    // A port that failed did so once, and the status is its fault; at every other status none failed.
    ensures read_fault { StatusHasCause Status.ReadFault (S.faults source.old) (S.faults source.new) result }
    ensures write_fault { StatusHasCause Status.WriteFault (K.faults sink.old) (K.faults sink.new) result }
    ensures too_long { (result ≡ Status.TooLong) ↔ GaveTooMuch (S.given source.old) (S.given source.new) }
{
    match command_outcome(words, source) {
        Ok(outcome) => written_in_one(sink, &outcome),
        Err(fault) => status_of(fault),
    }
}

/// Does what `import` does over two sinks. One takes the dump. The other, as standard error, takes the reasons, and
/// takes them first.
pub fn import_apart<S: Source, K: Sink, E: Sink>(
    words: &[String],
    source: &mut S,
    sink: &mut K,
    errors: &mut E,
) -> Status
    ensures imports { (bytes : List ℕ) → S.left source.old ≡ Some bytes →
        ImportsApart (map string_bytes words.now) (held bytes (S.left source.new)) (port K.taken sink.old sink.new) (port E.taken errors.old errors.new) result }
    ensures unread { command_of (map string_bytes words.now) ≡ None → source.new ≡ source.old }
    ensures own { IsSome (own_text (map string_bytes words.now)) → source.new ≡ source.old }

    // At statuses such as 1, 2 and 3 nothing is written to the sink of the dump. Nothing is allocated.
    ensures alone { result ≢ Status.Done → result ≢ Status.WriteFault → sink.new ≡ sink.old }
    ensures memory { result ≢ Status.NoMemory }
    ensures read_fault { StatusHasCause Status.ReadFault (S.faults source.old) (S.faults source.new) result }
    ensures write_fault { HaveCause (change (K.faults sink.old) (K.faults sink.new)) (change (E.faults errors.old) (E.faults errors.new)) result }
    ensures too_long { (result ≡ Status.TooLong) ↔ GaveTooMuch (S.given source.old) (S.given source.new) }
{
    match command_outcome(words, source) {
        Ok(outcome) => written_apart(sink, errors, &outcome),
        Err(fault) => status_of(fault),
    }
}
