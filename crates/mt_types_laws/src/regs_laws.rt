ghost use Rattle.std.specs.Prelude.{◌≡◌, ℕ, Option, Some};
ghost use Rattle.mt_regs.specs.declared.fault.Fault.{Fault};
ghost use Rattle.mt_regs.specs.RegisterFile.{IsRegisterFile, RegisterFile};
ghost use Rattle.mt_regs.specs.Registers.{HasThreeDigits, ChangesOnly, written};
ghost use Rattle.mt_regs.specs.Faults.{IsFirstFault};

/// A file has one first fault, or none.
pub fn one_first_fault()
    ensures { (f : RegisterFile) (a b : Option Fault) → IsFirstFault f a → IsFirstFault f b → a ≡ b }
{}

/// Each file has a first fault or is accepted.
pub fn a_first_fault_or_none()
    ensures { (f : RegisterFile) → (answer : Option Fault) × IsFirstFault f answer }
{}

/// The register at fault has a number of three hexadecimal digits.
pub fn a_fault_has_a_short_number()
    ensures { (f : RegisterFile) (fault : Fault) → IsRegisterFile f → IsFirstFault f (Some fault) → HasThreeDigits fault.msr }
{}

/// A write changes the value of one register.
pub fn a_write_changes_one_register()
    ensures { (old new : RegisterFile) (number v : ℕ) → IsRegisterFile old → written old number v ≡ Some new → ChangesOnly old new number v }
{}
