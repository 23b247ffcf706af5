ghost use Rattle.std.specs.Prelude.{◌≡◌, ◌↔◌, IfOk, IsTrue};
ghost use Rattle.mt_explain.specs.Differences.{AreDifferences};

use crate::Difference;
use mt_regs::{CAPABILITIES, RegFile};
use std::alloc::{AllocError, Global};

// No register has this number or a higher one.
const PAST_REGISTERS: u32 = 0x300;

fn same_value(a: Option<u64>, b: Option<u64>) -> bool
    ensures { IsTrue result ↔ (a ≡ b) }
{
    a == b
}

/// The registers whose values differ in two files, each with both values, in ascending order of their numbers: the capability
/// register and the writable ones. Fails only if an allocation fails.
pub fn differences(
    alloc: Global,
    old: &RegFile,
    new: &RegFile,
) -> Result<Vec<Difference>, AllocError>
    ensures { IfOk result (λ list. AreDifferences old.now new.now list.items) }
{
    old.is_register_file(); // a fact for the proof
    new.is_register_file(); // a fact for the proof
    let mut list = Vec::new(alloc);
    for msr in CAPABILITIES..PAST_REGISTERS {
        let old = old.get(msr);
        let new = new.get(msr);
        if !same_value(old, new) {
            list.push(Difference { msr, old, new })?;
        }
    }
    Ok(list)
}
