ghost use Rattle.std.specs.Prelude.{◌≡◌, ◌≤◌, length, slice_get, MatchOption, Some, None};
ghost use Rattle.std.specs.List.{AllByRecursion};
ghost use Rattle.mt_regs.specs.Words.{HasWords};
ghost use Rattle.mt_dump.specs.Dumps.{dump_of, first_file, IsDump};

use arrayvec::ArrayVec;
use mt_regs::RegFile;
use std::marker::Model;

/// What a dump shows: a file for each processor, or in version 1 one for all. All have one width and one capability value.
#[derive(Drop)]
pub struct Dump {
    /// 1, with one file, or 2.
    pub version: u8,
    /// Processor 0's file first.
    pub files: ArrayVec<RegFile, 16>,
}

impl Model for Dump {
    ghost use Rattle.mt_dump.specs.Dumps.{Dump as Shown, IsDump};

    ghost Value = { Shown };

    ghost view = { λ d. record { version = d.version; files = d.files.items } };

    ghost invariant = { λ d. IsDump (record { version = d.version; files = d.files.items }) };
}

// The same files.
fn copied(files: &[RegFile]) -> ArrayVec<RegFile, 16>
    requires { length files.now ≤ 16 }
    ensures { result.items ≡ files.now }
{
    let mut copy = ArrayVec::new();
    'files: for f in files {
        copy.push(f.same());
    }
    copy
}

fn nth(files: &[RegFile], k: usize) -> Option<&RegFile>
    ensures { MatchOption result (slice_get files.now k ≡ None) (λ f. slice_get files.now k ≡ Some f.now) }
{
    if k < files.len() {
        Some(&files[k])
    } else {
        None
    }
}

// Each value of a register is one of 64 bits. This does nothing.
fn each_has_words(files: &[RegFile])
    ensures { AllByRecursion HasWords files.now }
{
    'files: for f in files {
        f.has_words();
    }
}

impl Dump {
    /// The dump of version 1 with this file.
    pub fn of(f: &RegFile) -> Dump
        ensures { result ≡ dump_of f.now }
    {
        let mut files = ArrayVec::new();
        files.push(f.same());
        Dump { version: 1, files }
    }

    /// What every dump keeps. This does nothing.
    pub fn is_dump(&self)
        ensures { IsDump self.now }
    {
        let _ = &self.version;
    }

    /// Each value of a register is one of 64 bits. This does nothing.
    pub fn have_words(&self)
        ensures { AllByRecursion HasWords self.now.files }
    {
        each_has_words(self.files.as_slice());
    }

    /// Processor 0's file.
    pub fn first_file(&self) -> &RegFile
        ensures { result.now ≡ first_file self.now }
    {
        &self.files[0]
    }

    /// The file of the processor of this number, if there is one.
    pub fn file_at(&self, k: u32) -> Option<&RegFile>
        ensures { MatchOption result (slice_get self.now.files k ≡ None) (λ f. slice_get self.now.files k ≡ Some f.now) }
    {
        nth(self.files.as_slice(), k as usize)
    }

    /// An equal dump.
    pub fn copy(&self) -> Dump
        ensures { result ≡ self.now }
    {
        Dump {
            version: self.version,
            files: copied(self.files.as_slice()),
        }
    }
}
