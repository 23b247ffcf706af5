ghost use Rattle.std.specs.Prelude.{◌≡◌, ◌/◌, ◌^◌, ◌<◌, ◌↔◌, ◌⊎◌, ℕ, List, [], Some, true, false};
ghost use Rattle.mt_kinds.specs.declared.mem_type.MemType.{MemType};
ghost use Rattle.mt_regs.specs.declared.page_type.PageType.TheVariants.{Kind};
ghost use Rattle.mt_regs.specs.RegisterFile.{IsRegisterFile, RegisterFile, is_enabled, page_count};
ghost use Rattle.mt_regs.specs.PageTypes.{page_type};
ghost use Rattle.mt_regs.specs.Faults.{IsAccepted};
ghost use Rattle.mt_types.specs.declared.run.Run.{Run};
ghost use Rattle.mt_gran.specs.Grained.{IsGrained, IsLeastRounded, NeedsMore};
ghost use Rattle.mt_gran.specs.Granules.{TypedPages, is_whole, pages_of, rounded_kind};
ghost use Rattle.mt_gran.specs.Parts.{ArePartsOf};
ghost use Rattle.mt_gran.specs.Sizes.{IsGranuleSize, log_among};
ghost use Rattle.mt_gran.specs.declared.grains.Grained.{Grained};
ghost use Rattle.mt_tidy.specs.Tidied.{Tidying};

/// The rounded types of a rounded file are its own types.
pub fn the_rounded_file_keeps_its_types()
    ensures { (t : Tidying) (g : ℕ) (new : Grained) → IsGrained t g new → (page : ℕ) → page < page_count new.tidied.file
        → rounded_kind (pages_of new.tidied.file) g page ≡ page_type new.tidied.file page }
{}

/// Where a rounded file is rounded to granules of the same size, nothing is lost.
pub fn a_second_rounding_loses_nothing()
    ensures parts { (t again : Tidying) (g : ℕ) (new newer : Grained) → IsGrained t g new → again.file ≡ new.tidied.file → IsGrained again g newer → newer.parts ≡ [] }
    ensures lost { (t again : Tidying) (g : ℕ) (new newer : Grained) → IsGrained t g new → again.file ≡ new.tidied.file → IsGrained again g newer → newer.lost ≡ 0 }
{}

/// A granule is whole exactly where all its pages that aren't free have one type.
pub fn a_granule_is_whole_where_its_pages_have_one_type()
    ensures { (m : TypedPages) (g granule : ℕ) → (is_whole m g granule ≡ true)
        ↔ ((t : MemType) × ((page : ℕ) → page < m.count → page / 2 ^ g ≡ granule → m.free page ≡ false → m.kind page ≡ Kind t)) }
{}

/// Pages have at most one list of parts.
pub fn a_file_has_one_list_of_parts()
    ensures { (m : TypedPages) (g : ℕ) (parts others : List Run) → ArePartsOf m g parts → ArePartsOf m g others → parts ≡ others }
{}

/// The rounded types have at most one least number of ranges, and it is the number that is returned or asked for.
pub fn each_size_has_one_least_number()
    ensures one { (f : RegisterFile) (g chunk a b : ℕ) → IsLeastRounded f g chunk a → IsLeastRounded f g chunk b → a ≡ b }
    ensures used { (t : Tidying) (g : ℕ) (new : Grained) → IsGrained t g new → IsLeastRounded t.file g t.chunk new.tidied.used }
    ensures needs { (t : Tidying) (g needs has : ℕ) → NeedsMore t g needs has → IsLeastRounded t.file g t.chunk needs }
{}

/// Each accepted file whose ranges are on can be rounded, or needs more pairs than may be used.
pub fn each_file_is_rounded_or_needs_more()
    ensures { (t : Tidying) → IsRegisterFile t.file → IsAccepted t.file → is_enabled t.file ≡ true → (g : ℕ)
        → ((new : Grained) × IsGrained t g new) ⊎ ((needs : ℕ) × (has : ℕ) × NeedsMore t g needs has) }
{}

/// A size is that of granules of `2^log` pages exactly where it is `2^(12 + log)` bytes, of at most `2^28` pages.
pub fn a_size_is_a_power_of_two()
    ensures { (size log : ℕ) → (log_among size 0 29 ≡ Some log) ↔ IsGranuleSize size log }
{}
