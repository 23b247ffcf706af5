ghost use Rattle.std.specs.Prelude.{◌≡◌, ◌≢◌, ◌⊎◌};
ghost use Rattle.mt_ports.specs.Causes.{StatusHasCause};
ghost use Rattle.mt_output.specs.Lines.{usage_line};
ghost use Rattle.mt_output.specs.Written.{Writes};

use mt_ports::{Sink, Status, put};

/// Writes a text, and returns this status unless the sink fails.
pub fn written<K: Sink>(sink: &mut K, text: &[u8], status: Status) -> Status
    requires { status ≢ Status.WriteFault }
    ensures bytes { Writes text.now status (K.taken sink.old) (K.taken sink.new) result }
    ensures status { (result ≡ status) ⊎ (result ≡ Status.WriteFault) }
    ensures cause { StatusHasCause Status.WriteFault (K.faults sink.old) (K.faults sink.new) result }
{
    match put(sink, text) {
        Ok(()) => status,
        Err(_) => Status::WriteFault,
    }
}

/// Writes the line for words that are no command line.
pub fn wrong_usage<K: Sink>(sink: &mut K) -> Status
    ensures bytes { Writes usage_line Status.Usage (K.taken sink.old) (K.taken sink.new) result }
    ensures status { (result ≡ Status.Usage) ⊎ (result ≡ Status.WriteFault) }
    ensures cause { StatusHasCause Status.WriteFault (K.faults sink.old) (K.faults sink.new) result }
{
    written(sink, b"usage\n", Status::Usage)
}
