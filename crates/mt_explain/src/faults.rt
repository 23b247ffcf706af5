ghost use Rattle.std.specs.Prelude.{◌≡◌, ◌≤◌, ◌<◌, ◌-◌, ◌↔◌, ◌++◌, ◌&&◌, not, [], None, IfOk, OnOk};
ghost use Rattle.mt_kinds.specs.Bits.{is_bit_set};
ghost use Rattle.mt_ranges.specs.Match.{is_run, page_field};
ghost use Rattle.mt_regs.specs.Registers.{HasNumber, IsWithin};
ghost use Rattle.mt_regs.specs.Faults.{register_fault};
ghost use Rattle.mt_explain.specs.FieldFaults.{base_faults, default_faults, entry_faults, fault_if, faults_at, field, field_faults, fixed_faults, mask_faults, pat_faults};

use crate::{Defect, FieldFault};
use mt_kinds::{bits, byte_at, is_bit_set};
use mt_ranges::block_of;
use mt_regs::{RegFile, Register, is_pat_byte, is_supported};
use std::alloc::{AllocError, Global};

// The address width of a file, in bits.
fn width_of(f: &RegFile) -> u8
    ensures width { result ≡ f.now.width }
    ensures wide { 32 ≤ result }
    ensures narrow { result ≤ 52 }
{
    f.is_register_file(); // a fact for the proof
    f.maxphy
}

// What is wrong with the `count` bits from bit `low` on.
fn field(register: Register, value: u64, low: u8, count: u8, defect: Defect) -> FieldFault
    requires number { HasNumber register }
    requires low { low < 64 }
    requires count { count < 64 }
    ensures { result ≡ field register value low count defect }
{
    FieldFault {
        msr: register.number(),
        value,
        low,
        count,
        found: bits(value, low, count),
        defect,
    }
}

// Adds a fault if there is one.
fn add_if(list: &mut Vec<FieldFault>, is_fault: bool, fault: FieldFault) -> Result<(), AllocError>
    ensures { OnOk result (list.new.items ≡ list.old.items ++ fault_if is_fault fault) }
{
    if is_fault {
        list.push(fault)?;
    }
    Ok(())
}

fn add_base(list: &mut Vec<FieldFault>, f: &RegFile, n: u8, value: u64) -> Result<(), AllocError>
    ensures { OnOk result (list.new.items ≡ list.old.items ++ base_faults f.now n value) }
{
    let register = Register::PhysBase(n);
    let width = width_of(f);
    let low = field(register, value, 8, 4, Defect::ReservedBits);
    let high = field(register, value, width, 64 - width, Defect::ReservedBits);
    let kind = field(register, value, 0, 8, Defect::NoType);
    let is_kind = is_supported(f.has_write_combining(), (value & 0xff) as u8);
    add_if(list, bits(value, 8, 4) != 0, low)?;
    add_if(list, value >> width != 0, high)?;
    add_if(list, !is_kind, kind)
}

// Whether a valid mask has a gap.
fn has_gap(width: u8, value: u64) -> bool
    requires low { 32 ≤ width }
    requires high { width ≤ 52 }
    ensures { result ≡ (is_bit_set value 11 && not (is_run (width - 12) (page_field width value))) }
{
    is_bit_set(value, 11) && block_of(0, value, width).is_none()
}

fn add_mask(list: &mut Vec<FieldFault>, f: &RegFile, n: u8, value: u64) -> Result<(), AllocError>
    ensures { OnOk result (list.new.items ≡ list.old.items ++ mask_faults f.now n value) }
{
    let register = Register::PhysMask(n);
    let width = width_of(f);
    let low = field(register, value, 0, 11, Defect::ReservedBits);
    let high = field(register, value, width, 64 - width, Defect::ReservedBits);
    let gap = field(register, value, 12, width - 12, Defect::Gap);
    add_if(list, value % (1 << 11) != 0, low)?;
    add_if(list, value >> width != 0, high)?;
    add_if(list, has_gap(width, value), gap)
}

fn add_fixed(
    list: &mut Vec<FieldFault>,
    has_combining: bool,
    place: u8,
    value: u64,
) -> Result<(), AllocError>
    requires { place < 11 }
    ensures { OnOk result (list.new.items ≡ list.old.items ++ fixed_faults has_combining place value 8) }
{
    for i in 0..8 {
        let kind = field(Register::FixedRange(place), value, 8 * i, 8, Defect::NoType);
        add_if(list, !is_supported(has_combining, byte_at(value, i)), kind)?;
    }
    Ok(())
}

// Adds the faults of an entry of the PAT.
fn add_entry(list: &mut Vec<FieldFault>, value: u64, i: u8) -> Result<(), AllocError>
    requires { i < 8 }
    ensures { OnOk result (list.new.items ≡ list.old.items ++ entry_faults value i) }
{
    let byte = byte_at(value, i);
    let high = field(Register::Pat, value, 8 * i + 3, 5, Defect::ReservedBits);
    let kind = field(Register::Pat, value, 8 * i, 8, Defect::NoType);
    add_if(list, byte / 8 != 0, high)?;
    add_if(list, !is_pat_byte(byte), kind)
}

fn add_pat(list: &mut Vec<FieldFault>, value: u64) -> Result<(), AllocError>
    ensures { OnOk result (list.new.items ≡ list.old.items ++ pat_faults value 8) }
{
    for i in 0..8 {
        add_entry(list, value, i)?;
    }
    Ok(())
}

fn add_default(list: &mut Vec<FieldFault>, f: &RegFile, value: u64) -> Result<(), AllocError>
    ensures { OnOk result (list.new.items ≡ list.old.items ++ default_faults f.now value) }
{
    let register = Register::DefaultType;
    let low = field(register, value, 8, 2, Defect::ReservedBits);
    let high = field(register, value, 12, 52, Defect::ReservedBits);
    let fixed = field(register, value, 10, 1, Defect::ReservedBits);
    let kind = field(register, value, 0, 8, Defect::NoType);
    let is_kind = is_supported(f.has_write_combining(), (value & 0xff) as u8);
    add_if(list, bits(value, 8, 2) != 0, low)?;
    add_if(list, value >> 12 != 0, high)?;
    add_if(list, is_bit_set(value, 10) && !f.has_fixed(), fixed)?;
    add_if(list, !is_kind, kind)
}

// Adds the faults that a register has with a value.
fn add_faults(
    list: &mut Vec<FieldFault>,
    f: &RegFile,
    register: Register,
    value: u64,
) -> Result<(), AllocError>
    requires { IsWithin f.now register }
    ensures { OnOk result (list.new.items ≡ list.old.items ++ faults_at f.now register value) }
{
    match register {
        Register::PhysBase(n) => add_base(list, f, n, value),
        Register::PhysMask(n) => add_mask(list, f, n, value),
        Register::FixedRange(place) => add_fixed(list, f.has_write_combining(), place, value),
        Register::Pat => add_pat(list, value),
        Register::DefaultType => add_default(list, f, value),
    }
}

/// Every fault that a register has by itself: registers in ascending order, each with all its faults. There is none if and only if
/// the first fault of the file, if it has one, is an undefined overlap. Fails only if an allocation fails.
pub fn field_faults(alloc: Global, f: &RegFile) -> Result<Vec<FieldFault>, AllocError>
    ensures faults { IfOk result (λ list. list.items ≡ field_faults f.now) }
    ensures lawful { IfOk result (λ list. (list.items ≡ []) ↔ (register_fault f.now ≡ None)) }
{
    let mut list = Vec::new(alloc);
    for i in 0..f.count() {
        let Some(register) = f.register_at(i) else {
            unreachable!()
        };
        add_faults(&mut list, f, register, f.value_of(register))?;
    }
    Ok(list)
}
