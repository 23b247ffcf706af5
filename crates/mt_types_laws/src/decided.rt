ghost use Rattle.std.specs.Prelude.{◌≡◌, ◌⊎◌, ℕ, true};
ghost use Rattle.mt_regs.specs.RegisterFile.{IsRegisterFile, is_enabled};
ghost use Rattle.mt_regs.specs.Faults.{IsAccepted};
ghost use Rattle.mt_tidy.specs.Kept.{IsTidy, NeedsMore};
ghost use Rattle.mt_tidy.specs.Tidied.{Tidying};
ghost use Rattle.mt_tidy.specs.declared.fits.Tidied.{Tidied};

/// Each accepted file whose ranges are on can be tidied, or needs more pairs than may be used.
pub fn each_file_is_tidied_or_needs_more()
    ensures { (t : Tidying) → IsRegisterFile t.file → IsAccepted t.file → is_enabled t.file ≡ true
        → ((new : Tidied) × IsTidy t new) ⊎ ((needs : ℕ) × (has : ℕ) × NeedsMore t needs has) }
{}
