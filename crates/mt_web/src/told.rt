ghost use Rattle.std.specs.Prelude.{◌≡◌, [], length};
ghost use Rattle.mt_ports.specs.Exit.{code};
ghost use Rattle.mt_ports.specs.declared.status.Status.TheVariants.{NoMemory};
ghost use Rattle.mt_web.specs.Outcome.{told_number, told_text};
ghost use Rattle.mt_web.specs.Placed.{Places, on_threads};

use crate::ports::TextSink;
use mt_ports::Status;
use std::alloc::Global;

const SMALL_ROOM: u32 = 64;

const ON_THREADS: u32 = 65;

/// A text, and the number that a call returns with it.
#[derive(Drop)]
pub(crate) struct PageText {
    pub text: Vec<u8>,
    pub number: u32,
}

/// What a run comes to that ends with this status.
pub(crate) fn ended(alloc: Global, status: Status, sink: TextSink) -> PageText
    ensures text { result.text.items ≡ told_text status sink.text.items }
    ensures number { result.number ≡ told_number status }
{
    match status {
        Status::WriteFault => no_memory(alloc),
        _ => PageText {
            text: sink.text,
            number: status.code() as u32,
        },
    }
}

/// What a run comes to for which there is no memory.
pub(crate) fn no_memory(alloc: Global) -> PageText
    ensures { (result.text.items ≡ []) × (result.number ≡ code NoMemory) }
{
    PageText {
        text: Vec::new(alloc),
        number: Status::NoMemory.code() as u32,
    }
}

/// What a command comes to that runs on threads.
pub(crate) fn threaded(alloc: Global) -> PageText
    ensures { (result.text.items ≡ []) × (result.number ≡ on_threads) }
{
    PageText {
        text: Vec::new(alloc),
        number: ON_THREADS,
    }
}

/// Copies a text to the front of the host's room, if it has room, and its length to `written`.
pub(crate) fn place(told: &PageText, output: &mut [u8], written: &mut usize) -> u32
    ensures written { written.new ≡ length told.now.text.items }
    ensures places { Places told.now.text.items told.now.number output.old output.new result }
{
    let text = told.text.as_slice();
    *written = text.len();
    if text.len() > output.len() {
        return SMALL_ROOM;
    }
    output[..text.len()].copy_from_slice(text);
    told.number
}
