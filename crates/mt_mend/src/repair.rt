ghost use Rattle.std.specs.Prelude.{◌≡◌, ◌≤◌, ◌<◌, ◌-◌, ◌^◌, IfOk, IfSome, None};
ghost use Rattle.mt_regs.specs.Faults.{register_fault};
ghost use Rattle.mt_mend.specs.Nearest.{distance, nearest_field, nearest_ones, repaired, repaired_at, run_field, turned};

use mt_explain::{Defect, FieldFault, field_faults};
use mt_regs::RegFile;
use std::alloc::{AllocError, Global};

fn power(log: u8) -> u64
    requires { log < 64 }
    ensures { result ≡ 2 ^ log }
{
    1 << log
}

// The field of so many bits, of which the highest so many are set.
fn run_field(count: u8, ones: u8) -> u64
    requires count { count < 64 }
    requires ones { ones ≤ count }
    ensures { result ≡ run_field count ones }
{
    power(count).saturating_sub(power(count - ones))
}

// In how many bits a field differs from that one.
fn distance(count: u8, field: u64, ones: u8) -> u32
    requires count { count < 64 }
    requires ones { ones ≤ count }
    ensures { result ≡ distance count field ones }
{
    (field ^ run_field(count, ones)).count_ones()
}

// The number of ones of the nearest such field.
fn nearest_ones(count: u8, field: u64) -> u8
    requires few { count < 64 }
    requires some { 0 < count }
    ensures { result ≡ nearest_ones count field count }
{
    let mut nearest = 1;
    for ones in 1..count + 1 {
        if !(distance(count, field, nearest) < distance(count, field, ones)) {
            nearest = ones;
        }
    }
    nearest
}

// The lawful value of a field at fault that is guessed.
fn nearest_field(fault: &FieldFault) -> u64
    ensures { result ≡ nearest_field fault.now }
{
    match fault.defect {
        Defect::ReservedBits => 0,
        Defect::NoType => 0,
        Defect::Gap => {
            if 0 < fault.count && fault.count < 64 {
                run_field(fault.count, nearest_ones(fault.count, fault.found))
            } else {
                0
            }
        }
    }
}

// A value in which the bits of a field are turned that differ from the nearest ones.
fn turned(fault: &FieldFault, value: u64) -> u64
    ensures { result ≡ turned fault.now value }
{
    value ^ ((fault.found ^ nearest_field(fault)) << (fault.low % 64))
}

// Puts the guessed value in place of a field at fault.
fn repair(file: &mut RegFile, fault: &FieldFault)
    ensures { file.new ≡ repaired_at file.old fault.now }
{
    if let Some(value) = file.get(fault.msr) {
        let _ = file.set(fault.msr, turned(fault, value));
    }
}

/// The file with the nearest lawful value in place of each field at fault, which is a guess: reserved bits are cleared, UC stands for
/// what is no type, and a mask with a gap becomes the one without a gap that differs in the fewest bits, or of several the one of the
/// smallest range. `None` if a register is at fault then. Fails only if an allocation fails.
pub fn lawful_file(alloc: Global, f: &RegFile) -> Result<Option<RegFile>, AllocError>
    ensures { IfOk result (λ made. IfSome made (λ g. (g ≡ repaired f.now) × (register_fault g ≡ None))) }
{
    let faults = field_faults(alloc, f)?;
    let mut file = f.same();
    for fault in faults.as_slice() {
        repair(&mut file, fault);
    }
    Ok(if file.register_fault().is_none() {
        Some(file)
    } else {
        None
    })
}
