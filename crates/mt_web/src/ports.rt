ghost use Rattle.std.specs.Prelude.{◌≡◌, ◌≤◌, [], Some, length, drop};

use mt_ports::{Failed, Sink, Source};
use std::alloc::Global;

/// A source over bytes of the host. It never fails.
#[derive(Drop)]
pub(crate) struct ByteSource<'a> {
    bytes: &'a [u8],
    place: usize,
    ghost in_range: { place ≤ length bytes.now },
}

impl<'a> ByteSource<'a> {
    /// A source of these bytes.
    pub fn new(bytes: &'a [u8]) -> ByteSource<'a>
        ensures { (result.bytes.now ≡ bytes.now) × (result.place ≡ 0) }
    {
        ByteSource { bytes, place: 0 }
    }
}

impl<'a> Source for ByteSource<'a> {
    ghost use Rattle.std.specs.Prelude.{Some, drop};
    ghost use Rattle.std.specs.Io.{ReadsAtMost};
    ghost use Rattle.std.specs.Io.KnownBytes.{ReadConsumes};
    ghost use Rattle.mt_ports.specs.Causes.{HasCause};
    ghost use Rattle.mt_ports.specs.Counts.{CountsGiven};

    ghost left = { λ s. Some (drop s.place s.bytes.now) };

    ghost faults = { λ _. 0 };

    ghost given = { λ s. s.place };

    fn take(&mut self, into: &mut [u8]) -> Result<usize, Failed> {
        let rest = &self.bytes[self.place..];
        let count = rest.len().min(into.len());
        into[..count].copy_from_slice(&rest[..count]);
        self.place += count;
        Ok(count)
    }
}

/// A sink that grows. It fails only if memory is refused.
#[derive(Drop)]
pub(crate) struct TextSink {
    pub text: Vec<u8>,
    faults: u64,
}

impl TextSink {
    /// An empty sink.
    pub fn new(alloc: Global) -> TextSink
        ensures { result.text.items ≡ [] }
    {
        TextSink {
            text: Vec::new(alloc),
            faults: 0,
        }
    }
}

impl Sink for TextSink {
    ghost use Rattle.std.specs.Prelude.{Some};

    ghost taken = { λ s. Some s.text.items };

    ghost faults = { λ s. s.faults };

    fn give(&mut self, from: &[u8]) -> Result<usize, Failed> {
        match self.text.extend_from_slice(from) {
            Ok(()) => Ok(from.len()),
            Err(_) => {
                self.faults = self.faults.saturating_add(1);
                Err(Failed)
            }
        }
    }
}
