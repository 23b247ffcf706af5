ghost use Rattle.std.specs.Prelude.{◌≡◌, ◌↔◌, true};
ghost use Rattle.mt_regs.specs.RegisterFile.{RegisterFile};
ghost use Rattle.mt_regs.specs.Faults.{IsFirstFault};
ghost use Rattle.mt_replay.specs.FirstFault.{first_fault};
ghost use Rattle.mt_replay.specs.Texts.{is_same_file};

/// The first fault as a function is the first fault.
pub fn the_first_fault_is_first()
    ensures { (f : RegisterFile) → IsFirstFault f (first_fault f) }
{}

/// Files are the same exactly where they are equal.
pub fn same_files_are_equal()
    ensures { (f g : RegisterFile) → (is_same_file f g ≡ true) ↔ (f ≡ g) }
{}
