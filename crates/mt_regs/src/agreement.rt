ghost use Rattle.std.specs.Prelude.{◌≡◌, ◌<◌, ◌^◌, List, length, IfSome, MatchOption};
ghost use Rattle.std.specs.List.{All};
ghost use Rattle.mt_regs.specs.RegisterFile.{IsRegisterFile, RegisterFile};
ghost use Rattle.mt_regs.specs.Faults.{IsAccepted};
ghost use Rattle.mt_regs.specs.StartFiles.{AreOfOneKind, SameKind};
ghost use Rattle.mt_regs.specs.Agreement.{differing_register, first_difference, first_refusal, AreEqual, IsFirstDifference, IsFirstRefusal};
ghost use Rattle.mt_regs.specs.Registers.{HasThreeDigits};

use crate::{Fault, RegFile};

/// The least number of a file that isn't accepted, and its first fault.
pub fn first_refusal(files: &[RegFile]) -> Option<(u32, Fault)>
    requires { length files.now < 2 ^ 32 }
    ensures refusal { result ≡ first_refusal files.now }
    ensures short { IfSome result (λ found. HasThreeDigits found.1.msr) }
{
    for (k, file) in files.iter().enumerate() {
        file.is_register_file(); // a fact for the proof
        if let Some(fault) = file.first_fault() {
            return Some((k as u32, fault));
        }
    }
    None
}

impl RegFile {
    // The first writable register in which a file of the same kind differs.
    fn differing_register(&self, other: &RegFile) -> Option<u32>
        requires { SameKind self.now other.now }
        ensures number { result ≡ differing_register self.now other.now }
        ensures short { IfSome result HasThreeDigits }
    {
        self.is_register_file(); // a fact for the proof
        other.is_register_file(); // a fact for the proof
        for i in 0..self.count() {
            let register = self.register_at(i)?;
            if self.value_of(register) != other.value_of(register) {
                return Some(register.number());
            }
        }
        None
    }
}

/// The least number of a file that isn't equal to file 0, and the first writable register in which it differs.
pub fn first_difference(files: &[RegFile]) -> Option<(u32, u32)>
    requires few { length files.now < 2 ^ 32 }
    requires one_kind { AreOfOneKind files.now }
    ensures difference { result ≡ first_difference files.now }
    ensures short { IfSome result (λ found. HasThreeDigits found.1) }
{
    let first = files.first()?;
    for (k, file) in files.iter().enumerate() {
        if let Some(msr) = first.differing_register(file) {
            return Some((k as u32, msr));
        }
    }
    None
}

/// If no file is refused, each is accepted. A file that is refused is the first that isn't accepted.
pub fn a_first_refusal_is_the_least()
    ensures { (files : List RegisterFile) → MatchOption (first_refusal files) (All IsAccepted files) (λ found. IsFirstRefusal files found.0 found.1) }
{}

/// If no file differs, all are equal. A file that differs is the first that does, in its least register that does.
pub fn a_first_difference_is_the_least()
    ensures { (files : List RegisterFile) → All IsRegisterFile files → AreOfOneKind files → MatchOption (first_difference files) (AreEqual files) (λ found. IsFirstDifference files found.0 found.1) }
{}
