ghost use Rattle.std.specs.Prelude.{◌≡◌, ◌≢◌, ◌≤◌, ◌<◌, ◌+◌, ◌*◌, ◌↔◌, ◌⊎◌, IfOk, IsTrue, OnOk, Some, false, length, true};
ghost use Rattle.mt_regs.specs.RegisterFile.{RegisterFile};
ghost use Rattle.mt_regs.specs.StartFiles.{SameKind};
ghost use Rattle.mt_regs.specs.Registers.{value_at};
ghost use Rattle.mt_mend.specs.Courses.{HasRegister, IsCopied, IsOnWay, IsSwitchedOff, IsWritten, course};
ghost use Rattle.mt_mend.specs.Writes.{AreNamed, AreWrites};

use crate::Write;
use mt_explain::are_equal;
use mt_kinds::{PHYSMASK_V, is_bit_set};
use mt_regs::{DEFAULT_TYPE, FIRST_PAIR, RegFile};
use std::alloc::{AllocError, Global};

// Writes a register that the file has.
fn put(file: &mut RegFile, list: &mut Vec<Write>, number: u32, value: u64) -> Result<(), AllocError>
    requires { HasRegister file.old number }
    ensures { OnOk result (IsWritten (course file.old list.old.items) (course file.new list.new.items) (record { number = number; value = value })) }
{
    list.push(Write { number, value })?;
    let _ = file.set(number, value);
    Ok(())
}

// Clears bit 11 of a register that the file has, which is a switch, if it is set.
fn switch_off(file: &mut RegFile, list: &mut Vec<Write>, number: u32) -> Result<(), AllocError>
    requires { 0x200 ≤ number }
    ensures { OnOk result (IsSwitchedOff (course file.old list.old.items) (course file.new list.new.items) number) }
{
    let Some(value) = file.get(number) else {
        return Ok(());
    };
    if !is_bit_set(value, PHYSMASK_V) {
        return Ok(());
    }
    put(file, list, number, value - (1 << PHYSMASK_V))
}

// Whether the file has a register of this value.
fn holds(file: &RegFile, number: u32, value: u64) -> bool
    ensures { IsTrue result ↔ (value_at file.now number ≡ Some value) }
{
    file.get(number) == Some(value)
}

// Writes the value that a register has in another file, unless the register has it.
fn copy(
    file: &mut RegFile,
    list: &mut Vec<Write>,
    new: &RegFile,
    number: u32,
) -> Result<(), AllocError>
    requires register { 0x200 ≤ number }
    requires kind { SameKind file.old new.now }
    ensures { OnOk result (IsCopied new.now (course file.old list.old.items) (course file.new list.new.items) number) }
{
    let Some(value) = new.get(number) else {
        return Ok(());
    };
    if holds(file, number, value) {
        return Ok(());
    }
    put(file, list, number, value)
}

fn pair_count(f: &RegFile) -> u32
    ensures count { result ≡ length f.now.pairs }
    ensures few { result ≤ 32 }
{
    f.pairs.len() as u32
}

// Whether two files have one value at a number.
fn agree(a: &RegFile, b: &RegFile, number: u32) -> bool
    ensures { IsTrue result ↔ (value_at a.now number ≡ value_at b.now number) }
{
    a.get(number) == b.get(number)
}

// Whether two files have the same values in the registers of a pair.
fn agree_in_pair(a: &RegFile, b: &RegFile, n: u32) -> bool
    requires { n < 32 }
    ensures same { result ≡ true → (value_at a.now (0x200 + 2 * n) ≡ value_at b.now (0x200 + 2 * n))
        × (value_at a.now (0x201 + 2 * n) ≡ value_at b.now (0x201 + 2 * n)) }
    ensures differ { result ≡ false → (value_at a.now (0x200 + 2 * n) ≢ value_at b.now (0x200 + 2 * n))
        ⊎ (value_at a.now (0x201 + 2 * n) ≢ value_at b.now (0x201 + 2 * n)) }
{
    if !agree(a, b, FIRST_PAIR + 2 * n) {
        return false;
    }
    agree(a, b, FIRST_PAIR + 1 + 2 * n)
}

// Writes both registers of a pair that differs: V is cleared first, and set last.
fn copy_pair(
    file: &mut RegFile,
    list: &mut Vec<Write>,
    new: &RegFile,
    n: u32,
) -> Result<(), AllocError>
    requires pair { n < length new.now.pairs }
    requires kind { SameKind file.old new.now }
    ensures { OnOk result ((old : RegisterFile) → IsOnWay old new.now (course file.old list.old.items) (0x200 + 2 * n)
        → IsOnWay old new.now (course file.new list.new.items) (0x202 + 2 * n)) }
{
    new.is_register_file(); // a fact for the proof
    file.is_register_file(); // a fact for the proof
    if agree_in_pair(file, new, n) {
        return Ok(());
    }
    switch_off(file, list, FIRST_PAIR + 1 + 2 * n)?;
    file.is_register_file(); // a fact for the proof
    copy(file, list, new, FIRST_PAIR + 2 * n)?;
    copy(file, list, new, FIRST_PAIR + 1 + 2 * n)?;
    Ok(())
}

/// The writes that make of one file another one of its width and capabilities, in their order: E is cleared first; then
/// follow the registers that differ in ascending order, and so the default type with E last. V of a pair is cleared before
/// the pair changes. No other register is written, and none if the files are equal. Fails only if an allocation fails.
pub fn changes(alloc: Global, old: &RegFile, new: &RegFile) -> Result<Vec<Write>, AllocError>
    requires kind { SameKind old.now new.now }
    ensures writes { IfOk result (λ list. AreWrites old.now list.items new.now) }
    ensures named { IfOk result (λ list. AreNamed old.now new.now list.items) }
{
    old.is_register_file(); // a fact for the proof
    new.is_register_file(); // a fact for the proof
    let mut list = Vec::new(alloc);
    if are_equal(old, new) {
        return Ok(list);
    }
    let mut file = old.same();
    switch_off(&mut file, &mut list, DEFAULT_TYPE)?;
    let pairs = pair_count(new);
    for n in 0..pairs {
        copy_pair(&mut file, &mut list, new, n)?;
    }
    for number in FIRST_PAIR + 2 * pairs..DEFAULT_TYPE {
        copy(&mut file, &mut list, new, number)?;
    }
    copy(&mut file, &mut list, new, DEFAULT_TYPE)?;
    Ok(list)
}
