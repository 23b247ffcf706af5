// The manual's tables, cell by cell.
ghost use Rattle.std.specs.Prelude.{◌≡◌, [], ◌∷◌, map};
ghost use Rattle.mt_kinds.specs.declared.mem_type.MemType.TheVariants.{UC, WC, WT, WP, WB};
ghost use Rattle.mt_kinds.specs.declared.pat_type.PatType.TheVariants.{UC as PatUC, WC as PatWC, WT as PatWT, WP as PatWP, WB as PatWB, UCMinus as PatUCMinus};
ghost use Rattle.mt_kinds.specs.EffectiveType.{effective_type};
ghost use Rattle.mt_ranges.specs.FixedPart.{fixed_part};

/// The table of effective types, a row for each MTRR type. Its columns are PAT UC, UC-, WC, WT, WB and WP.
pub fn the_table_of_effective_types()
    ensures uncached { map (effective_type UC) (PatUC ∷ PatUCMinus ∷ PatWC ∷ PatWT ∷ PatWB ∷ PatWP ∷ []) ≡ UC ∷ UC ∷ WC ∷ UC ∷ UC ∷ UC ∷ [] }
    ensures write_combining { map (effective_type WC) (PatUC ∷ PatUCMinus ∷ PatWC ∷ PatWT ∷ PatWB ∷ PatWP ∷ []) ≡ UC ∷ WC ∷ WC ∷ UC ∷ WC ∷ UC ∷ [] }
    ensures write_through { map (effective_type WT) (PatUC ∷ PatUCMinus ∷ PatWC ∷ PatWT ∷ PatWB ∷ PatWP ∷ []) ≡ UC ∷ UC ∷ WC ∷ WT ∷ WT ∷ WP ∷ [] }
    ensures write_back { map (effective_type WB) (PatUC ∷ PatUCMinus ∷ PatWC ∷ PatWT ∷ PatWB ∷ PatWP ∷ []) ≡ UC ∷ UC ∷ WC ∷ WT ∷ WB ∷ WP ∷ [] }
    ensures write_protected { map (effective_type WP) (PatUC ∷ PatUCMinus ∷ PatWC ∷ PatWT ∷ PatWB ∷ PatWP ∷ []) ≡ UC ∷ WC ∷ WC ∷ WT ∷ WP ∷ WP ∷ [] }
{}

/// The first and the last page of each row of the table of fixed ranges.
pub fn the_table_of_fixed_ranges()
    ensures parts_of_64_kb { map fixed_part (0x0 ∷ 0xf ∷ 0x10 ∷ 0x7f ∷ []) ≡ (0, 0) ∷ (0, 0) ∷ (0, 1) ∷ (0, 7) ∷ [] }
    ensures parts_of_16_kb { map fixed_part (0x80 ∷ 0x83 ∷ 0x84 ∷ 0x9f ∷ []) ≡ (1, 0) ∷ (1, 0) ∷ (1, 1) ∷ (1, 7) ∷ [] }
    ensures video_memory { map fixed_part (0xa0 ∷ 0xa3 ∷ 0xa4 ∷ 0xbf ∷ []) ≡ (2, 0) ∷ (2, 0) ∷ (2, 1) ∷ (2, 7) ∷ [] }
    ensures parts_of_4_kb { map fixed_part (0xc0 ∷ 0xc7 ∷ 0xc8 ∷ 0xff ∷ []) ≡ (3, 0) ∷ (3, 7) ∷ (4, 0) ∷ (10, 7) ∷ [] }
{}
