use mt_ports::Status;
use std::alloc::{AllocError, AllocFailed, Global};

/// A run of the program: the words of its command line and its whole input, and the status and the
/// whole output that it must give.
#[derive(Drop)]
pub struct Row {
    pub name: String,
    pub words: Vec<String>,
    pub input: Vec<u8>,
    pub output: Vec<u8>,
    pub status: u8,
}

impl Row {
    ghost use Rattle.std.specs.Prelude.{◌≡◌, ◌↔◌, [], IsTrue};
    ghost use Rattle.mt_ports.specs.Exit.{code};

    /// A row without a word and without a byte.
    pub fn new(alloc: Global, name: String) -> Row
        ensures name { result.name ≡ name }
        ensures input { result.input.items ≡ [] }
        ensures output { result.output.items ≡ [] }
    {
        Row {
            name,
            words: Vec::new(alloc),
            input: Vec::new(alloc),
            output: Vec::new(alloc),
            status: 0,
        }
    }

    /// Whether a run that ended so is the one that the row says.
    pub fn is_met_by(&self, status: Status, output: &[u8]) -> bool
        ensures { IsTrue result ↔ (code status ≡ self.now.status) × (output.now ≡ self.now.output.items) }
    {
        status.code() == self.status && output == self.output.as_slice()
    }
}

/// Why a line isn't of the format of rows, or can't be kept.
#[derive(Clone, Copy)]
pub enum Fault {
    BadKind,
    BadByte,
    BadEscape,
    BadWord,
    BadStatus,
    NoEnd,
    Memory,
}

impl From<AllocError> for Fault {
    fn from(_error: AllocError) -> Fault {
        Fault::Memory
    }
}

impl<T: Drop> From<AllocFailed<T>> for Fault {
    fn from(_failed: AllocFailed<T>) -> Fault {
        Fault::Memory
    }
}

impl Fault {
    /// What is printed of it.
    pub fn text(self) -> &'static str {
        match self {
            Fault::BadKind => "no line of this kind here",
            Fault::BadByte => "a blank at the end, or a byte that has to be escaped",
            Fault::BadEscape => "bad escape",
            Fault::BadWord => "bad word",
            Fault::BadStatus => "bad status",
            Fault::NoEnd => "no end",
            Fault::Memory => "out of memory",
        }
    }
}
