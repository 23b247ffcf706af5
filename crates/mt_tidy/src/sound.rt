ghost use Rattle.std.specs.Prelude.{◌≡◌, ◌<◌, ℕ, None, length, slice_index, true};
ghost use Rattle.mt_regs.specs.Faults.{reason_of, register_fault};
ghost use Rattle.mt_regs.specs.RegisterFile.{has_write_combining, pair_at};
ghost use Rattle.mt_regs.specs.declared.registers.Register.TheVariants.{DefaultType, Pat};
ghost use Rattle.mt_tidy.specs.Sound.{IsPairValue, has_types};

use mt_kinds::{PHYSMASK_V, PatType, bits, byte_at, is_bit_set};
use mt_ranges::block_of;
use mt_regs::{RegFile, is_supported};

// Whether each byte is a type of the processor.
fn has_types(has_combining: bool, value: u64) -> bool
    ensures { result ≡ true → has_types has_combining value ≡ true }
{
    for i in 0..8 {
        if !is_supported(has_combining, byte_at(value, i)) {
            return false;
        }
    }
    true
}

// Whether the values of a pair are sound.
fn is_pair_sound(f: &RegFile, pair: (u64, u64)) -> bool
    ensures { result ≡ true → IsPairValue f.now pair }
{
    if bits(pair.0, 8, 4) != 0 || pair.0 >> f.maxphy != 0 {
        return false;
    }
    if !is_supported(f.has_write_combining(), (pair.0 & 0xff) as u8) {
        return false;
    }
    if pair.1 % (1 << 11) != 0 || pair.1 >> f.maxphy != 0 {
        return false;
    }
    !is_bit_set(pair.1, PHYSMASK_V) || block_of(0, pair.1, f.maxphy).is_some()
}

fn are_pairs_sound(f: &RegFile) -> bool
    ensures { result ≡ true → (n : ℕ) → n < length f.now.pairs → IsPairValue f.now (pair_at f.now.pairs n) }
{
    for pair in f.pairs.as_slice() {
        if !is_pair_sound(f, *pair) {
            return false;
        }
    }
    true
}

// Many of the registers have one value, which is looked at once.
fn are_fixed_sound(f: &RegFile) -> bool
    ensures { result ≡ true → (place : ℕ) → place < 11 → has_types (has_write_combining f.now) (slice_index f.now.fixed place) ≡ true }
{
    let has_combining = f.has_write_combining();
    let mut sound = 0;
    for value in &f.fixed {
        if *value != sound {
            if !has_types(has_combining, *value) {
                return false;
            }
            sound = *value;
        }
    }
    true
}

fn is_pat_sound(f: &RegFile) -> bool
    ensures { result ≡ true → reason_of f.now Pat ≡ None }
{
    for i in 0..8 {
        if PatType::of_byte(byte_at(f.pat, i)).is_none() {
            return false;
        }
    }
    true
}

fn is_default_sound(f: &RegFile) -> bool
    ensures { result ≡ true → reason_of f.now DefaultType ≡ None }
{
    if bits(f.deftype, 8, 2) != 0 || f.deftype >> 12 != 0 {
        return false;
    }
    if f.is_fixed_enabled() && !f.has_fixed() {
        return false;
    }
    is_supported(f.has_write_combining(), (f.deftype & 0xff) as u8)
}

/// A quick look at each register by itself: whether none is at fault.
pub fn is_sound(f: &RegFile) -> bool
    ensures { result ≡ true → register_fault f.now ≡ None }
{
    if !are_pairs_sound(f) || !is_pat_sound(f) || !is_default_sound(f) {
        return false;
    }
    !f.has_fixed() || are_fixed_sound(f)
}
