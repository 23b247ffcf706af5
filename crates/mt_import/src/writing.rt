ghost use Rattle.std.specs.Prelude.{◌≡◌, ◌≢◌, ◌++◌};
ghost use Rattle.mt_ports.specs.Causes.{HasCause, StatusHasCause};
ghost use Rattle.mt_ports.specs.Puts.{Puts};
ghost use Rattle.mt_output.specs.Ports.{change, port};
ghost use Rattle.mt_output.specs.Written.{Writes};
ghost use Rattle.mt_import.specs.Import.{HaveCause, IsWritten, WritesApart, dump_text, one_text};

use crate::text::Outcome;
use mt_output::written;
use mt_ports::{Failed, Sink, Status, put};

// Writes two texts, one behind the other.
fn put_both<K: Sink>(sink: &mut K, first: &[u8], second: &[u8]) -> Result<(), Failed>
    ensures bytes { Puts (K.taken sink.old) (K.taken sink.new) result (first.now ++ second.now) }
    ensures cause { HasCause (K.faults sink.old) (K.faults sink.new) result }
{
    match put(sink, first) {
        Ok(()) => put(sink, second),
        Err(failed) => Err(failed),
    }
}

fn written_both<K: Sink>(sink: &mut K, first: &[u8], second: &[u8], status: Status) -> Status
    requires { IsWritten status (first.now ++ second.now) }
    ensures bytes { Writes (first.now ++ second.now) status (K.taken sink.old) (K.taken sink.new) result }
    ensures cause { StatusHasCause Status.WriteFault (K.faults sink.old) (K.faults sink.new) result }
{
    match put_both(sink, first, second) {
        Ok(()) => status,
        Err(_) => Status::WriteFault,
    }
}

/// Writes the dump with its comments, or else the reasons, and returns the status unless the sink fails.
pub(crate) fn written_in_one<K: Sink>(sink: &mut K, outcome: &Outcome) -> Status
    requires { IsWritten outcome.now.status (dump_text outcome.now) }
    ensures bytes { Writes (one_text outcome.now) outcome.now.status (K.taken sink.old) (K.taken sink.new) result }
    ensures cause { StatusHasCause Status.WriteFault (K.faults sink.old) (K.faults sink.new) result }
{
    if outcome.dump.is_empty() {
        written(sink, outcome.reasons.as_slice(), outcome.status)
    } else {
        written_both(
            sink,
            outcome.notes.as_slice(),
            outcome.dump.as_slice(),
            outcome.status,
        )
    }
}

/// Writes the reasons to one sink, and then the dump with its comments to the other. Returns the status unless a sink fails.
pub(crate) fn written_apart<K: Sink, E: Sink>(
    sink: &mut K,
    errors: &mut E,
    outcome: &Outcome,
) -> Status
    requires { IsWritten outcome.now.status (dump_text outcome.now) }
    ensures bytes { WritesApart outcome.now (port K.taken sink.old sink.new) (port E.taken errors.old errors.new) result }
    ensures alone { result ≢ Status.Done → result ≢ Status.WriteFault → sink.new ≡ sink.old }
    ensures memory { result ≢ Status.NoMemory }
    ensures cause { HaveCause (change (K.faults sink.old) (K.faults sink.new)) (change (E.faults errors.old) (E.faults errors.new)) result }
{
    if put(errors, outcome.reasons.as_slice()).is_err() {
        return Status::WriteFault;
    }
    if outcome.status != Status::Done {
        return outcome.status;
    }
    match put_both(sink, outcome.notes.as_slice(), outcome.dump.as_slice()) {
        Ok(()) => Status::Done,
        Err(_) => Status::WriteFault,
    }
}
