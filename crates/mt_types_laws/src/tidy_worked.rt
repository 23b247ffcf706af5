ghost use Rattle.std.specs.Prelude.{◌≡◌, ◌∷◌, [], Some};
ghost use Rattle.mt_kinds.specs.declared.mem_type.MemType.TheVariants.{UC, WB};
ghost use Rattle.mt_regs.specs.declared.fault.Reason.TheVariants.{ReservedBit};
ghost use Rattle.mt_tidy.specs.declared.faults.TidyFault.TheVariants.{Disabled, Refused};
ghost use Rattle.mt_tidy.specs.Cost.{whole_cost};
ghost use Rattle.mt_tidy.specs.Kept.{IsTidy, IsWhy};
ghost use Rattle.mt_tidy.specs.Tidied.{StandsFor, tidying, with_ranges};
ghost use Rattle.mt_tidy.specs.Wanted.{IsLeastFor, IsWanted};
ghost use Rattle.mt_types_laws.specs.WorkedRanges.{holed, range, uncached, with_reserved_bit};
ghost use Rattle.mt_types_laws.specs.WorkedSmall.{apart, beside, seven};

/// Two ranges give sixteen pages their types if ranges of eight pages may share pages with others, and three if not.
pub fn worked_least_of_sixteen()
    ensures wanted { IsWanted apart seven }
    ensures cost { whole_cost apart seven 0x8000 ≡ Some 2 }
    ensures cost_apart { whole_cost apart seven 0x7fff ≡ Some 3 }
    ensures least { IsLeastFor apart seven 0x8000 2 }
{}

/// The file of these two ranges is tidy with one pair of three to spare. Two files aren't tidy: the ranges of one aren't
/// in order, and those of the other share pages.
pub fn worked_sixteen_tidied()
    ensures tidy { IsTidy (tidying apart 0x8000 1) (record { file = with_ranges apart holed; used = 2 }) }
    ensures not_in_order { (t : IsTidy (tidying apart 0x8000 1) (record { file = with_ranges apart (range 7 0 UC ∷ range 0 3 WB ∷ []); used = 2 }))
        → t.ranges ≡ range 7 0 UC ∷ range 0 3 WB ∷ [] → ⊥ }
    ensures not_allowed { (t : IsTidy (tidying beside 0 0) (record { file = with_ranges beside (range 0 3 WB ∷ range 4 2 UC ∷ []); used = 2 }))
        → t.ranges ≡ range 0 3 WB ∷ range 4 2 UC ∷ [] → ⊥ }
{}

/// What isn't why nothing is tidied, for one thing.
pub fn worked_why()
    ensures enabled { IsWhy (tidying uncached 0 0) Disabled → ⊥ }
    ensures disabled_and_not_accepted { IsWhy (tidying (record with_reserved_bit { default_type = 6 }) 0 0) Disabled → ⊥ }
    ensures other_register { IsWhy (tidying with_reserved_bit 0 0) (Refused (record { msr = 0x201; reason = ReservedBit })) → ⊥ }
{}

/// A pair that stands for a range, and pairs that don't. Two fail in one part. The other isn't valid, so it matches no
/// page.
pub fn worked_pairs()
    ensures stands { StandsFor 16 (range 0 3 WB) (6, 0x8800) }
    ensures stands_not_valid { StandsFor 36 (range 0 20 WB) (6, 0xf00000000) → ⊥ }
    ensures stands_for_others { StandsFor 36 (range 0 20 WB) (6, 0xff0000800) → ⊥ }
    ensures stands_for_another_type { StandsFor 36 (range 0 20 WB) (4, 0xf00000800) → ⊥ }
{}
