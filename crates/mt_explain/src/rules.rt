ghost use Rattle.std.specs.Prelude.{◌≡◌, false, true, MatchOption};
ghost use Rattle.mt_regs.specs.RegisterFile.{is_fixed_enabled};
ghost use Rattle.mt_ranges.specs.FixedPart.{fixed_part};
ghost use Rattle.mt_explain.specs.Rules.{Decides, DecidesAmong, is_fixed};

use crate::Rule;
use mt_kinds::MemType;
use mt_ranges::fixed_place;
use mt_regs::{RegFile, are_one, are_written, has_uncached};

// What the types of the matching pairs come to.
fn rule_among(types: &[MemType]) -> Rule
    ensures { DecidesAmong types.now result }
{
    if types.is_empty() {
        Rule::NoPair
    } else if are_one(types) {
        Rule::OneType
    } else if has_uncached(types) {
        Rule::UncachedWins
    } else if are_written(types) {
        Rule::ThroughOverBack
    } else {
        Rule::NotDefined
    }
}

// The place of the fixed-range register that gives a page its type, and the byte of it.
fn fixed_byte(f: &RegFile, page: u64) -> Option<(u8, u8)>
    ensures { MatchOption result (is_fixed f.now page ≡ false) (λ part. (is_fixed f.now page ≡ true) × (fixed_part page ≡ part)) }
{
    if f.is_fixed_enabled() {
        fixed_place(page)
    } else {
        None
    }
}

/// The case that gives a page its type.
pub(crate) fn rule_of(f: &RegFile, page: u64) -> Rule
    ensures { Decides f.now page result }
{
    if !f.is_enabled() {
        return Rule::Off;
    }
    match fixed_byte(f, page) {
        Some((place, byte)) => Rule::FixedByte { place, byte },
        None => rule_among(f.matching_types(page).as_slice()),
    }
}
