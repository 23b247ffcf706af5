ghost use Rattle.std.specs.Prelude.{◌≡◌, ℕ, List, MatchResult, None, Option, Some, ⊤};

use arrayvec::ArrayVec;
use mt_dump::{TextBuffer, append_text};
use mt_ports::{Source, StdSource};
use std::fs::{File, Files};
use std::io::{self, Read, Stdin};

/// A source that can go on with a file.
pub trait FileSource<R>: Source {
    /// What opening a file comes to, by its name and the source before: the source that goes on with it, or none.
    ghost opens: { List ℕ → Self → Option Self → Type 0 };

    /// Opens a file, and goes on with its bytes in place of those that are left. The counts stay.
    fn go_on_with(&mut self, rt: &R, name: &str) -> io::Result<()>
        ensures opens { MatchResult result (λ _. opens name.now self.old (Some self.new)) (λ _. opens name.now self.old None) }
        ensures unopened { MatchResult result (λ _. ⊤) (λ _. self.new ≡ self.old) }
        ensures faults { Self.faults self.new ≡ Self.faults self.old }
        ensures given { Self.given self.new ≡ Self.given self.old };

    /// The first bytes that it gave, of the file if there is one.
    fn front(&self) -> &[u8];
}

#[derive(Drop)]
enum Reader<F> {
    Standard(Stdin),
    File(F),
}

/// Standard input, or a file in its place. It remembers the first 32,768 bytes.
#[derive(Drop)]
pub struct Input<F> {
    reader: Reader<F>,
    front: TextBuffer,
}

impl<F> Input<F> {
    /// Standard input.
    pub fn standard(input: Stdin) -> Input<F> {
        Input {
            reader: Reader::Standard(input),
            front: ArrayVec::new(),
        }
    }

    fn file(file: F) -> Input<F> {
        Input {
            reader: Reader::File(file),
            front: ArrayVec::new(),
        }
    }
}

impl<F: Read> Read for Input<F> {
    fn read(&mut self, into: &mut [u8]) -> io::Result<usize> {
        let count = match &mut self.reader {
            Reader::Standard(input) => input.read(into)?,
            Reader::File(file) => file.read(into)?,
        };
        let room = self.front.remaining_capacity();
        append_text(&mut self.front, &into[..count.min(room)]);
        Ok(count)
    }
}

// Files and standard input tell no bytes.
impl<R: Files> FileSource<R> for StdSource<Input<R::File>> {
    ghost opens = { λ _ _ _. ⊤ };

    fn go_on_with(&mut self, rt: &R, name: &str) -> io::Result<()> {
        let file = File::open(rt, name)?;
        self.go_on(Input::file(file));
        Ok(())
    }

    fn front(&self) -> &[u8] {
        self.input().front.as_slice()
    }
}
