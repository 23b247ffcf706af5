ghost use Rattle.std.specs.Prelude.{◌≡◌, ◌≤◌, ◌+◌, [], ◌++◌, length, IfOk, OnErr};
ghost use Rattle.mt_ports.specs.Causes.{HasCause};
ghost use Rattle.mt_output.specs.Writing.{Adds};
ghost use Rattle.mt_output.specs.Ports.{change, port};

use mt_ports::{Failed, NoMemory, Sink, put};
use std::alloc::Global;
use std::marker::Model;

/// How many bytes may wait.
pub const WRITER_ROOM: usize = 65_536;

/// Gathers texts and hands them to a sink many at a time. Its value is the bytes that wait. Memory
/// is taken once, by `new`.
#[derive(Drop)]
pub struct Writer {
    text: Vec<u8>,
}

impl Model for Writer {
    ghost use Rattle.std.specs.Prelude.{ℕ, ◌≤◌, List, vec_len, vec_capacity};

    ghost Value = { List ℕ };

    ghost view = { λ w. w.text.items };

    ghost invariant = { λ w. (vec_len w.text ≤ 65536) × (65536 ≤ vec_capacity w.text) };
}

impl Writer {
    /// A writer of which nothing waits.
    pub fn new(alloc: Global) -> Result<Writer, NoMemory>
        ensures { IfOk result (λ writer. writer ≡ []) }
    {
        let text = Vec::with_capacity(alloc, WRITER_ROOM)?;
        Ok(Writer { text })
    }

    /// Hands all that waits to the sink. Nothing waits then, even if the sink failed.
    pub fn flush<K: Sink>(&mut self, sink: &mut K) -> Result<(), Failed>
        ensures bytes { Adds [] (change self.old self.new) (port K.taken sink.old sink.new) result }
        ensures waiting { self.new ≡ [] }
        ensures cause { HasCause (K.faults sink.old) (K.faults sink.new) result }
    {
        let result = put(sink, self.text.as_slice());
        self.clear();
        result
    }

    /// Adds a text to the bytes that wait. They go to the sink at the latest where there isn't room
    /// for more. After a failure nothing waits.
    pub fn write<K: Sink>(&mut self, sink: &mut K, text: &[u8]) -> Result<(), Failed>
        requires { length text.now ≤ WRITER_ROOM }
        ensures bytes { Adds text.now (change self.old self.new) (port K.taken sink.old sink.new) result }
        ensures room { length self.new ≤ WRITER_ROOM }
        ensures failed { OnErr result (self.new ≡ []) }
        ensures cause { HasCause (K.faults sink.old) (K.faults sink.new) result }
    {
        if text.len() > WRITER_ROOM - self.text.len() {
            self.flush(sink)?;
        }
        self.append(text);
        Ok(())
    }

    /// Sees to it that so many bytes have room behind those that wait: where there isn't, they go to the
    /// sink. After a failure nothing waits.
    pub fn make_room<K: Sink>(&mut self, sink: &mut K, room: usize) -> Result<(), Failed>
        requires { room ≤ WRITER_ROOM }
        ensures bytes { Adds [] (change self.old self.new) (port K.taken sink.old sink.new) result }
        ensures room { length self.new + room ≤ WRITER_ROOM }
        ensures failed { OnErr result (self.new ≡ []) }
        ensures cause { HasCause (K.faults sink.old) (K.faults sink.new) result }
    {
        if room > WRITER_ROOM - self.text.len() {
            self.flush(sink)
        } else {
            Ok(())
        }
    }

    /// Adds a text for which there is room to the bytes that wait. No sink is needed.
    pub fn append(&mut self, text: &[u8])
        requires { length self.old + length text.now ≤ WRITER_ROOM }
        ensures text { self.new ≡ self.old ++ text.now }
        ensures size { length self.new ≡ length self.old + length text.now }
    {
        self.text.extend_from_slice(text).unwrap();
    }

    /// The bytes that wait.
    pub fn waiting(&self) -> &[u8]
        ensures { result.now ≡ self.now }
    {
        self.text.as_slice()
    }

    /// Lets go of all that waits.
    pub fn clear(&mut self)
        ensures { self.new ≡ [] }
    {
        self.text.clear();
    }
}
