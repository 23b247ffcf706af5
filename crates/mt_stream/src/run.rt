ghost use Rattle.std.specs.Prelude.{List, ℕ};
ghost use Rattle.mt_ports.specs.Causes.{HasCause};
ghost use Rattle.mt_text.specs.declared.place.Place.{Place};
ghost use Rattle.mt_stream.specs.Lines.{Closes, Path};
ghost use Rattle.mt_output.specs.Ports.{port};
ghost use Rattle.mt_stream.specs.Transcript.{Telling, Transcript};

use crate::End;
use mt_output::Writer;
use mt_ports::{Failed, Sink};
use mt_text::Place;

/// A run over the lines of a text, as it is between two of them.
pub trait LineRun {
    /// This text was written so far, and the lines that follow lead to this.
    ghost at: { Self → List ℕ → Path → Type 0 };

    /// The output at the end of the text, which is at this place.
    ghost ends: { Self → Place → Transcript };

    /// It may allocate at a line of this number, if this is the output from that line on.
    ghost asks: { Self → Telling → ℕ → List ℕ → Type 0 };

    /// It can take a line behind this many.
    ghost ready: { ℕ → Self → Type 0 };

    /// Writes the output at the end of the text, with all that waits, and returns how it ends.
    fn write_end<K: Sink>(
        &self,
        end: Place,
        writer: &mut Writer,
        sink: &mut K,
    ) -> Result<End, Failed>
        ensures bytes { Closes (ends self.now end) writer.old (port K.taken sink.old sink.new) result }
        ensures cause { HasCause (K.faults sink.old) (K.faults sink.new) result };
}
