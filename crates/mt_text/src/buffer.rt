ghost use Rattle.std.specs.Prelude.{◌≡◌, ◌+◌, ◌<◌, ◌≤◌, [], length, take, drop};
ghost use Rattle.mt_ports.specs.Causes.{HasCause};
ghost use Rattle.mt_ports.specs.Counts.{CountsGiven};

use mt_ports::{Failed, Source};

const SIZE: usize = 8192;

/// Bytes of a source: the line that was lent last, and those that are pending.
#[derive(Drop)]
pub(crate) struct Buffer {
    bytes: [u8; SIZE],
    line: usize,
    stop: usize,
    start: usize,
    end: usize,
    ghost line_ordered: { line ≤ stop },
    ghost line_within: { stop ≤ 8192 },
    ghost ordered: { start ≤ end },
    ghost within: { end ≤ 8192 },
}

impl Buffer {
    ghost use Rattle.mt_text.specs.Feed.{Reads, lent, pending};

    /// A buffer that holds nothing.
    pub(crate) fn new() -> Buffer
        ensures lent { lent result ≡ [] }
        ensures pending { pending result ≡ [] }
    {
        Buffer {
            bytes: [0; SIZE],
            line: 0,
            stop: 0,
            start: 0,
            end: 0,
        }
    }

    /// The line that was lent last.
    pub(crate) fn lent(&self) -> &[u8]
        ensures { result.now ≡ lent self.now }
    {
        &self.bytes[self.line..self.stop]
    }

    /// The bytes that were taken and not lent yet.
    pub(crate) fn pending(&self) -> &[u8]
        ensures value { result.now ≡ pending self.now }
        ensures fits { length result.now ≤ 8192 }
    {
        &self.bytes[self.start..self.end]
    }

    /// Lends so many bytes, and passes over some more behind them.
    pub(crate) fn pass(&mut self, count: usize, more: usize)
        requires { count + more ≤ length (pending self.old) }
        ensures lent { lent self.new ≡ take count (pending self.old) }
        ensures pending { pending self.new ≡ drop (count + more) (pending self.old) }
    {
        self.line = self.start;
        self.stop = self.start + count;
        self.start += count + more;
    }

    // The pending bytes go to the front. What was lent is gone.
    fn move_to_front(&mut self)
        ensures lent { (self.new.line ≡ 0) × (self.new.stop ≡ 0) }
        ensures pending { pending self.new ≡ pending self.old }
        ensures end { self.new.end ≡ length (pending self.old) }
    {
        let (start, end) = (self.start, self.end);
        self.bytes.copy_within(start..end, 0);
        self.line = 0;
        self.stop = 0;
        self.start = 0;
        self.end = end - start;
    }

    fn read<S: Source>(&mut self, source: &mut S) -> Result<usize, Failed>
        requires { self.old.end < 8192 }
        ensures lent { (self.new.line ≡ self.old.line) × (self.new.stop ≡ self.old.stop) }
        ensures bytes { Reads (pending self.old) (pending self.new) (S.left source.old) (S.left source.new) result }
        ensures count { CountsGiven (S.given source.old) (S.given source.new) result }
        ensures cause { HasCause (S.faults source.old) (S.faults source.new) result }
    {
        let end = self.end;
        match source.take(&mut self.bytes[end..]) {
            Ok(count) => {
                self.end = end + count;
                Ok(count)
            }
            Err(failed) => Err(failed),
        }
    }

    /// Takes more bytes behind the pending ones. What was lent is gone.
    pub(crate) fn take_from<S: Source>(&mut self, source: &mut S) -> Result<usize, Failed>
        requires { length (pending self.old) < 8192 }
        ensures lent { lent self.new ≡ [] }
        ensures bytes { Reads (pending self.old) (pending self.new) (S.left source.old) (S.left source.new) result }
        ensures count { CountsGiven (S.given source.old) (S.given source.new) result }
        ensures cause { HasCause (S.faults source.old) (S.faults source.new) result }
    {
        self.move_to_front();
        self.read(source)
    }
}
