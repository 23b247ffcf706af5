ghost use Rattle.std.specs.Prelude.{[]};
ghost use Rattle.mt_regs.specs.declared.fault.Reason.TheVariants.{ReservedBit};
ghost use Rattle.mt_types_laws.specs.WorkedRanges.{uncached, with_reserved_bit, written_back};
ghost use Rattle.mt_gran.specs.declared.fault.GranFault.TheVariants.{Disabled, Refused, TooFew};
ghost use Rattle.mt_gran.specs.Grained.{IsGrained, IsLeastRounded, IsWhy};
ghost use Rattle.mt_tidy.specs.Tidied.{tidying};

/// A rounded file, all of UC.
pub fn worked_grained()
    ensures { IsGrained (tidying uncached 0 8) 4 (record { tidied = record { file = uncached; used = 0 }; lost = 0; parts = [] }) }
{}

/// Files with a least number of ranges that give the rounded types: one of UC, the default type, and one of WB.
pub fn worked_least_rounded()
    ensures least { IsLeastRounded uncached 4 0 0 }
    ensures more_than_least { IsLeastRounded uncached 4 0 1 → ⊥ }
    ensures too_few { IsWhy (tidying written_back 0 8) 4 (TooFew 1 0) }
{}

/// What isn't why nothing is rounded, for one thing.
pub fn worked_why()
    ensures enabled { IsWhy (tidying uncached 0 0) 0 Disabled → ⊥ }
    ensures disabled_and_not_accepted { IsWhy (tidying (record with_reserved_bit { default_type = 6 }) 0 0) 0 Disabled → ⊥ }
    ensures other_register { IsWhy (tidying with_reserved_bit 0 0) 0 (Refused (record { msr = 0x201; reason = ReservedBit })) → ⊥ }
{}
