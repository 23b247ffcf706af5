ghost use Rattle.std.specs.Prelude.{◌≡◌, ◌≢◌, ◌++◌, ◌∷◌, ℕ, List, false, true};
ghost use Rattle.std.specs.List.{All};
ghost use Rattle.mt_regs.specs.declared.page_type.PageType.TheVariants.{Kind};
ghost use Rattle.mt_regs.specs.declared.registers.Register.TheVariants.{DefaultType};
ghost use Rattle.mt_regs.specs.PageTypes.{page_type};
ghost use Rattle.mt_regs.specs.RegisterFile.{RegisterFile, is_enabled};
ghost use Rattle.mt_regs.specs.Registers.{number_of};
ghost use Rattle.mt_mend.specs.declared.wish.Wish.{Wish};
ghost use Rattle.mt_mend.specs.declared.write.Write.{Write};
ghost use Rattle.mt_mend.specs.Wishes.{has_page, wished_type};
ghost use Rattle.mt_mend.specs.Writes.{AreWrites};

/// The last wish that has a page decides its type. A page that no wish has keeps its own.
pub fn the_last_wish_decides()
    ensures last { (f : RegisterFile) (front back : List Wish) (w : Wish) (page : ℕ) → has_page w page ≡ true
        → All (λ v. has_page v page ≡ false) back → wished_type f (front ++ w ∷ back) page ≡ Kind w.kind }
    ensures own { (f : RegisterFile) (wishes : List Wish) (page : ℕ) → All (λ v. has_page v page ≡ false) wishes
        → wished_type f wishes page ≡ page_type f page }
{}

/// When another register than the default type's is written, E is clear.
pub fn range_registers_change_with_e_clear()
    ensures { (old new : RegisterFile) (front back : List Write) (w : Write) → AreWrites old (front ++ w ∷ back) new
        → w.number ≢ number_of DefaultType → (now : RegisterFile) × AreWrites old front now × (is_enabled now ≡ false) }
{}
