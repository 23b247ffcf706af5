ghost use Rattle.std.specs.Prelude.{◌≡◌, ◌++◌, ◌∷◌, [], map, None, IfOk, IsTrue, OnOk, true};
ghost use Rattle.std.specs.List.{filter, list_all, list_any, range_with_len};
ghost use Rattle.mt_ranges.specs.Match.{is_valid};
ghost use Rattle.mt_regs.specs.Faults.{register_fault};
ghost use Rattle.mt_regs.specs.RegisterFile.{pair_at, pair_count};
ghost use Rattle.mt_explain.specs.declared.note.Note.TheVariants.{IdlePair, OtherWidth};
ghost use Rattle.mt_explain.specs.Notes.{has_fixed_value, has_width, is_accepted, is_idle, is_mask_of, is_note, is_spare, is_uncached, may_be_of, notes, widths, without};

use crate::Note;
use crate::changes::changed_pages;
use crate::pairs::pair_at;
use mt_kinds::{MemType, is_bit_set};
use mt_ranges::{block_of, is_valid};
use mt_regs::{PageType, RegFile, Register, same_page_type};
use std::alloc::{AllocError, Global};

/// The page of the local APIC after power-up.
pub const LOCAL_APIC: u64 = 0xfee00;

/// The page of the I/O APIC.
pub const IO_APIC: u64 = 0xfec00;

fn is_uncached(f: &RegFile, page: u64) -> bool
    ensures { result ≡ is_uncached f.now page }
{
    same_page_type(f.page_type(page), PageType::Kind(MemType::UC))
}

fn has_fixed_value(f: &RegFile) -> bool
    ensures { result ≡ has_fixed_value f.now }
{
    f.fixed.iter().any(|value| *value != 0)
}

fn is_accepted(f: &RegFile) -> bool
    ensures test { result ≡ is_accepted f.now }
    ensures checked { IsTrue result → register_fault f.now ≡ None }
{
    f.first_fault().is_none()
}

// The file with V of a valid pair clear.
fn without(f: &RegFile, n: u8) -> RegFile
    requires { is_valid (pair_at f.now.pairs n) ≡ true }
    ensures { result ≡ without f.now n }
{
    let mask = pair_at(f, n).1;
    let mut other = f.same();
    other.put(Register::PhysMask(n), mask - (1 << 11));
    other
}

// Whether a valid pair of an accepted file changes no page's type.
fn is_spare(f: &RegFile, n: u8) -> bool
    ensures { result ≡ is_spare f.now n }
{
    is_valid(pair_at(f, n)) && is_accepted(f) && changed_pages(f, &without(f, n)) == 0
}

// Whether this is so though E is set.
fn is_idle(f: &RegFile, n: u8) -> bool
    ensures { result ≡ is_idle f.now n }
{
    f.is_enabled() && is_spare(f, n)
}

// Whether a mask is one of an address width of 32 to 52 bits.
fn is_mask_of(width: u8, mask: u64) -> bool
    ensures { result ≡ is_mask_of width mask }
{
    width >= 32
        && width <= 52
        && mask >> width == 0
        && is_bit_set(mask, width - 1)
        && block_of(0, mask, width).is_some()
}

fn may_be_of(width: u8, pair: (u64, u64)) -> bool
    ensures { result ≡ may_be_of width pair }
{
    !is_valid(pair) || is_mask_of(width, pair.1)
}

fn has_valid(pairs: &[(u64, u64)]) -> bool
    ensures { result ≡ list_any is_valid pairs.now }
{
    pairs.iter().any(|pair| is_valid(*pair))
}

fn all_may_be_of(width: u8, pairs: &[(u64, u64)]) -> bool
    ensures { result ≡ list_all (may_be_of width) pairs.now }
{
    pairs.iter().all(|pair| may_be_of(width, *pair))
}

// Whether the valid masks are those of this width, and not of the file's.
fn has_width(f: &RegFile, width: u8) -> bool
    ensures { result ≡ has_width f.now width }
{
    let pairs = f.pairs.as_slice();
    width != f.maxphy && has_valid(pairs) && all_may_be_of(width, pairs)
}

/// Whether a note holds of a file.
pub fn is_note(f: &RegFile, note: Note) -> bool
    ensures { result ≡ is_note f.now note }
{
    match note {
        Note::Off => !f.is_enabled(),
        Note::FixedOff => f.has_fixed() && !f.is_fixed_enabled() && has_fixed_value(f),
        Note::LocalApic => !is_uncached(f, LOCAL_APIC),
        Note::IoApic => !is_uncached(f, IO_APIC),
        Note::IdlePair(n) => is_idle(f, n),
        Note::OtherWidth(width) => has_width(f, width),
    }
}

// Adds a note if it holds.
fn add(list: &mut Vec<Note>, f: &RegFile, note: Note) -> Result<(), AllocError>
    ensures { OnOk result (list.new.items ≡ list.old.items ++ filter (is_note f.now) (note ∷ [])) }
{
    if is_note(f, note) {
        list.push(note)?;
    }
    Ok(())
}

fn add_pairs(list: &mut Vec<Note>, f: &RegFile) -> Result<(), AllocError>
    ensures { OnOk result (list.new.items ≡ list.old.items ++ filter (is_note f.now) (map IdlePair (range_with_len 0 (pair_count f.now)))) }
{
    f.is_register_file(); // a fact for the proof
    for n in 0..f.pairs.len() {
        add(list, f, Note::IdlePair(n as u8))?;
    }
    Ok(())
}

fn add_widths(list: &mut Vec<Note>, f: &RegFile) -> Result<(), AllocError>
    ensures { OnOk result (list.new.items ≡ list.old.items ++ filter (is_note f.now) (map OtherWidth widths)) }
{
    for i in 0..21 {
        add(list, f, Note::OtherWidth(32 + i))?;
    }
    Ok(())
}

/// All notes of a file, each if and only if it holds: in the order of the enum, pairs and widths in ascending order. Fails only if an
/// allocation fails.
pub fn notes(alloc: Global, f: &RegFile) -> Result<Vec<Note>, AllocError>
    ensures { IfOk result (λ list. list.items ≡ notes f.now) }
{
    let mut list = Vec::new(alloc);
    add(&mut list, f, Note::Off)?;
    add(&mut list, f, Note::FixedOff)?;
    add(&mut list, f, Note::LocalApic)?;
    add(&mut list, f, Note::IoApic)?;
    add_pairs(&mut list, f)?;
    add_widths(&mut list, f)?;
    Ok(list)
}
