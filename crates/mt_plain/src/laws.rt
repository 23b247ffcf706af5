ghost use Rattle.std.specs.Prelude.{◌≡◌, true};
ghost use Rattle.mt_plain.specs.Plain.{file_in, has_no_other_pair, is_file};
ghost use Rattle.mt_regs.specs.RegisterFile.{IsRegisterFile};

use crate::PlainRegisters;

/// If the pairs beyond VCNT are zeros and the words stand for a register file, `is_file` returns true.
pub fn each_file_is_taken(r: &PlainRegisters)
    ensures taken { has_no_other_pair r.now ≡ true → IsRegisterFile (file_in r.now) → is_file r.now ≡ true }
{}
