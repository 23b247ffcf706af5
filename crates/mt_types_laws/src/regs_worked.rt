// Relations that laws alone cite: for each part an instance that fails in that alone.
ghost use Rattle.std.specs.Prelude.{◌≡◌, ◌∷◌, []};
ghost use Rattle.mt_regs.specs.declared.fault.Reason.TheVariants.{ReservedBit, UnsupportedType};
ghost use Rattle.mt_regs.specs.declared.registers.Register.TheVariants.{DefaultType, PhysBase, PhysMask};
ghost use Rattle.mt_regs.specs.RegisterFile.{blank_file};
ghost use Rattle.mt_regs.specs.Registers.{ChangesOnly, with_value};
ghost use Rattle.mt_types_laws.specs.WorkedRows.{four_gigabytes, plain};
ghost use Rattle.mt_regs.specs.Agreement.{AreEqual, IsFirstDifference, IsFirstRefusal};

/// Files that are equal, and files that aren't.
pub fn worked_equal_files()
    ensures all_equal { AreEqual (plain ∷ plain ∷ []) }
    ensures not_equal { AreEqual (plain ∷ plain ∷ four_gigabytes ∷ []) → ⊥ }
{}

/// The first refusal among some files.
pub fn worked_first_refusals()
    ensures first { IsFirstRefusal (blank_file 36 0x400 ∷ with_value (blank_file 36 0x400) DefaultType 0x802 ∷ []) 1 (record { msr = 0x2ff; reason = UnsupportedType }) }
    ensures no_file { IsFirstRefusal (blank_file 36 0x400 ∷ with_value (blank_file 36 0x400) DefaultType 0x802 ∷ []) 2 (record { msr = 0x2ff; reason = UnsupportedType }) → ⊥ }
    ensures other_fault { IsFirstRefusal (blank_file 36 0x400 ∷ with_value (blank_file 36 0x400) DefaultType 0x802 ∷ []) 1 (record { msr = 0x2ff; reason = ReservedBit }) → ⊥ }
    ensures second { IsFirstRefusal (with_value (blank_file 36 0x400) DefaultType 0x1000 ∷ with_value (blank_file 36 0x400) DefaultType 0x802 ∷ []) 1 (record { msr = 0x2ff; reason = UnsupportedType }) → ⊥ }
{}

/// The first difference among some files.
pub fn worked_first_differences()
    ensures first { IsFirstDifference (plain ∷ plain ∷ with_value plain DefaultType 0x800 ∷ []) 2 0x2ff }
    ensures no_file { IsFirstDifference [] 0 0x2ff → ⊥ }
    ensures no_later_file { IsFirstDifference (plain ∷ with_value plain DefaultType 0x800 ∷ []) 2 0x2ff → ⊥ }
    ensures equal_there { IsFirstDifference (plain ∷ with_value plain DefaultType 0x800 ∷ []) 1 0x277 → ⊥ }
    ensures lower_register { IsFirstDifference (plain ∷ with_value (with_value plain (PhysMask 7) 0x800) DefaultType 0x800 ∷ []) 1 0x2ff → ⊥ }
    ensures earlier_file { IsFirstDifference (plain ∷ with_value plain DefaultType 0x800 ∷ with_value plain DefaultType 0x800 ∷ []) 2 0x2ff → ⊥ }
{}

/// What isn't a change of one register alone, for one thing.
pub fn worked_changes()
    ensures other_value { ChangesOnly plain (with_value plain DefaultType 0x806) 0x2ff 0x800 → ⊥ }
    ensures two_registers { ChangesOnly plain (with_value (with_value plain DefaultType 0x806) (PhysBase 7) 6) 0x2ff 0x806 → ⊥ }
    ensures other_width { ChangesOnly plain (record (with_value plain DefaultType 0x806) { width = 40 }) 0x2ff 0x806 → ⊥ }
{}
