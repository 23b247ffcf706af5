ghost use Rattle.std.specs.Prelude.{◌≡◌, ◌/◌, ◌==◌, not};
ghost use Rattle.mt_regs.specs.Faults.{any_byte, has_broken_mask, has_reserved_bit, has_unsupported_type, is_pat_byte, is_supported, reason_of, register_fault, IsFirstFault};
ghost use Rattle.mt_regs.specs.Registers.{IsWithin};

use crate::{Fault, Reason, RegFile, Register};
use mt_kinds::{DEF_TYPE_FE, MemType, PHYSMASK_V, PatType, bits, byte_at, is_bit_set};
use mt_ranges::block_of;

/// Whether a byte is a memory type of the processor. WC is one only with write combining.
pub fn is_supported(has_combining: bool, byte: u8) -> bool
    ensures { result ≡ is_supported has_combining byte }
{
    MemType::of_byte(byte).is_some() && (byte != 1 || has_combining)
}

/// Whether a byte is a type that an entry of the PAT may have.
pub fn is_pat_byte(byte: u8) -> bool
    ensures { result ≡ is_pat_byte byte }
{
    PatType::of_byte(byte).is_some()
}

// Whether a byte of a fixed-range register is no type of the processor.
fn has_unsupported_byte(has_combining: bool, value: u64) -> bool
    ensures { result ≡ any_byte (λ byte. not (is_supported has_combining byte)) value 8 }
{
    let mut found = false;
    for i in 0..8 {
        found = found || !is_supported(has_combining, byte_at(value, i));
    }
    found
}

// Whether a byte of the PAT is none of its types.
fn has_unlisted_byte(value: u64) -> bool
    ensures { result ≡ any_byte (λ byte. not (is_pat_byte byte)) value 8 }
{
    let mut found = false;
    for i in 0..8 {
        found = found || !is_pat_byte(byte_at(value, i));
    }
    found
}

// Whether a byte of the PAT has one of its bits 7:3 set.
fn has_high_bit(value: u64) -> bool
    ensures { result ≡ any_byte (λ byte. not (byte / 8 == 0)) value 8 }
{
    let mut found = false;
    for i in 0..8 {
        found = found || byte_at(value, i) / 8 != 0;
    }
    found
}

impl RegFile {
    fn has_reserved_bit(&self, register: Register, value: u64) -> bool
        ensures { result ≡ has_reserved_bit self.now register value }
    {
        match register {
            Register::PhysBase(_) => bits(value, 8, 4) != 0 || value >> self.maxphy != 0,
            Register::PhysMask(_) => value % (1 << 11) != 0 || value >> self.maxphy != 0,
            Register::FixedRange(_) => false,
            Register::Pat => has_high_bit(value),
            Register::DefaultType => {
                bits(value, 8, 2) != 0
                    || value >> 12 != 0
                    || (is_bit_set(value, DEF_TYPE_FE) && !self.has_fixed())
            }
        }
    }

    fn has_unsupported_type(&self, register: Register, value: u64) -> bool
        ensures { result ≡ has_unsupported_type self.now register value }
    {
        let has_combining = self.has_write_combining();
        match register {
            Register::PhysBase(_) | Register::DefaultType => {
                !is_supported(has_combining, (value & 0xff) as u8)
            }
            Register::PhysMask(_) => false,
            Register::FixedRange(_) => has_unsupported_byte(has_combining, value),
            Register::Pat => has_unlisted_byte(value),
        }
    }

    fn has_broken_mask(&self, register: Register, value: u64) -> bool
        ensures { result ≡ has_broken_mask self.now register value }
    {
        match register {
            Register::PhysMask(_) => is_bit_set(value, PHYSMASK_V)
                && block_of(0, value, self.maxphy).is_none(),
            _ => false,
        }
    }

    fn reason_of(&self, register: Register) -> Option<Reason>
        requires { IsWithin self.now register }
        ensures { result ≡ reason_of self.now register }
    {
        let value = self.value_of(register);
        if self.has_reserved_bit(register, value) {
            Some(Reason::ReservedBit)
        } else if self.has_unsupported_type(register, value) {
            Some(Reason::UnsupportedType)
        } else if self.has_broken_mask(register, value) {
            Some(Reason::BrokenMask)
        } else {
            None
        }
    }

    /// The first fault of a register by itself: a reserved bit, an unsupported type or a broken mask. Returns `None` if no
    /// register has one.
    pub fn register_fault(&self) -> Option<Fault>
        ensures { result ≡ register_fault self.now }
    {
        for i in 0..self.count() {
            let register = self.register_at(i)?;
            if let Some(reason) = self.reason_of(register) {
                let msr = register.number();
                return Some(Fault { msr, reason });
            }
        }
        None
    }

    /// The first fault. Returns `None` if and only if the file is accepted.
    pub fn first_fault(&self) -> Option<Fault>
        ensures { IsFirstFault self.now result }
    {
        if let Some(fault) = self.register_fault() {
            return Some(fault);
        }
        match self.undefined_overlap() {
            Some(msr) => Some(Fault {
                msr,
                reason: Reason::UndefinedOverlap,
            }),
            None => None,
        }
    }
}
