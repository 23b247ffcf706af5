ghost use Rattle.std.specs.Prelude.{◌≡◌, ◌<◌, length, slice_index_or};
ghost use Rattle.mt_tidy.specs.Packed.{kind_byte, kind_of_byte, run_of};
ghost use Rattle.mt_types.specs.declared.run.Run.{Run};

use mt_kinds::MemType;
use mt_regs::PageType;
use mt_types::Run;
use std::marker::Model;

/// A run as words of fixed widths. Any words are one: a `kind` that is no type's byte stands for no defined type.
#[repr(C)]
#[derive(Clone, Copy)]
pub struct PackedRun {
    pub first: u64,
    pub count: u64,
    pub kind: u8,
}

/// A run of no pages.
pub const NO_RUN: PackedRun = PackedRun {
    first: 0,
    count: 0,
    kind: 0,
};

const NO_TYPE: u8 = 255;

fn kind_byte(kind: PageType) -> u8
    ensures { result ≡ kind_byte kind }
{
    match kind {
        PageType::Kind(kind) => kind.byte(),
        PageType::Undefined => NO_TYPE,
    }
}

fn kind_of_byte(byte: u8) -> PageType
    ensures { result ≡ kind_of_byte byte }
{
    match MemType::of_byte(byte) {
        Some(kind) => PageType::Kind(kind),
        None => PageType::Undefined,
    }
}

impl PackedRun {
    pub fn of(run: Run) -> PackedRun
        ensures { run_of result ≡ run }
    {
        PackedRun {
            first: run.first,
            count: run.count,
            kind: kind_byte(run.kind),
        }
    }

    /// The run that the words stand for.
    pub fn unpacked(&self) -> Run
        ensures { result ≡ run_of self.now }
    {
        Run {
            first: self.first,
            count: self.count,
            kind: kind_of_byte(self.kind),
        }
    }
}

/// Runs that stand as words, side by side.
#[derive(Drop)]
pub struct PackedRuns<'a> {
    pub packed: &'a [PackedRun],
}

impl<'a> Model for PackedRuns<'a> {
    ghost use Rattle.std.specs.Prelude.{List};
    ghost use Rattle.mt_tidy.specs.Packed.{runs_of};
    ghost use Rattle.mt_types.specs.declared.run.Run.{Run};

    ghost Value = { List Run };

    ghost view = { λ w. runs_of w.packed.now };
}

impl<'a> PackedRuns<'a> {
    /// How many there are.
    pub fn count(&self) -> usize
        ensures { result ≡ length self.now }
    {
        self.packed.len()
    }

    /// The run at a place.
    pub fn run_at(&self, i: usize) -> Run
        requires { i < length self.now }
        ensures { (d : Run) → result ≡ slice_index_or self.now i d }
    {
        let packed = self.packed;
        packed[i].unpacked()
    }
}
