ghost use Rattle.std.specs.Prelude.{◌≡◌, ◌<◌, ◌≤◌, length, slice_get, ◌*◌, IfSome, MatchResult, Some, None, true};
ghost use Rattle.std.specs.Option.{option_map};
ghost use Rattle.mt_regs.specs.RegisterFile.{has_fixed, pair_count};
ghost use Rattle.mt_regs.specs.Registers.{fixed_part_of, number_of, pair_registers, register_of, value_at, value_of, with_value, writable, written, HasNumber, IsWithin};

use crate::{RegFile, Register};

/// The number of the capability register.
pub const CAPABILITIES: u32 = 0xfe;

/// The number of the first pair's base register.
pub const FIRST_PAIR: u32 = 0x200;

/// The number of the PAT's register.
pub const PAT: u32 = 0x277;

/// The number of the default type's register, the last one.
pub const DEFAULT_TYPE: u32 = 0x2ff;

const FIXED_COUNT: u32 = 11;

// The numbers of the fixed-range registers.
const FIXED: [u32; 11] = [
    0x250, 0x258, 0x259, 0x268, 0x269, 0x26a, 0x26b, 0x26c, 0x26d, 0x26e, 0x26f,
];

/// The number is no writable register's.
#[derive(Clone, Copy, Debug, PartialEq, Eq)]
pub struct Unknown;

impl Register {
    /// The number of the register.
    pub fn number(self) -> u32
        requires { HasNumber self }
        ensures { result ≡ number_of self }
    {
        match self {
            Register::PhysBase(n) => FIRST_PAIR + 2 * n as u32,
            Register::PhysMask(n) => FIRST_PAIR + 1 + 2 * n as u32,
            Register::FixedRange(place) => FIXED[place as usize],
            Register::Pat => PAT,
            Register::DefaultType => DEFAULT_TYPE,
        }
    }
}

impl RegFile {
    /// The value of a register.
    pub fn value_of(&self, register: Register) -> u64
        requires { IsWithin self.now register }
        ensures { result ≡ value_of self.now register }
    {
        match register {
            Register::PhysBase(n) => self.pairs.as_slice()[n as usize].0,
            Register::PhysMask(n) => self.pairs.as_slice()[n as usize].1,
            Register::FixedRange(place) => self.fixed[place as usize],
            Register::Pat => self.pat,
            Register::DefaultType => self.deftype,
        }
    }

    /// The number of writable registers.
    pub fn count(&self) -> u32
        ensures count { result ≡ length (writable self.now) }
        ensures few { result ≤ 77 }
    {
        self.pair_register_count() + self.fixed_count() + 2
    }

    /// Returns the writable register at a place in ascending order. There is none past their number.
    pub fn register_at(&self, i: u32) -> Option<Register>
        ensures at { slice_get (writable self.now) i ≡ result }
        ensures within { IfSome result (IsWithin self.now) }
    {
        let pairs = self.pair_register_count();
        if i < pairs {
            let n = (i / 2) as u8;
            return Some(if i % 2 == 0 {
                Register::PhysBase(n)
            } else {
                Register::PhysMask(n)
            });
        }
        let past = i - pairs;
        let fixed = self.fixed_count();
        if past < fixed {
            Some(Register::FixedRange(past as u8))
        } else if past == fixed {
            Some(Register::Pat)
        } else if past == fixed + 1 {
            Some(Register::DefaultType)
        } else {
            None
        }
    }

    /// The number of a writable register, by its place in ascending order.
    pub fn register(&self, i: u32) -> Option<u32>
        ensures { result ≡ option_map number_of (slice_get (writable self.now) i) }
    {
        match self.register_at(i) {
            Some(register) => Some(register.number()),
            None => None,
        }
    }

    // The writable register that has a number.
    fn register_of(&self, msr: u32) -> Option<Register>
        ensures register { result ≡ register_of self.now msr }
        ensures within { IfSome result (IsWithin self.now) }
    {
        for i in 0..self.count() {
            let register = self.register_at(i)?;
            if register.number() == msr {
                return Some(register);
            }
        }
        None
    }

    /// The value of the capability register or of a writable register.
    pub fn get(&self, msr: u32) -> Option<u64>
        ensures { result ≡ value_at self.now msr }
    {
        if msr == CAPABILITIES {
            return Some(self.cap);
        }
        match self.register_of(msr) {
            Some(register) => Some(self.value_of(register)),
            None => None,
        }
    }

    /// Changes one writable register.
    pub fn set(&mut self, msr: u32, v: u64) -> Result<(), Unknown>
        ensures { MatchResult result (λ _. written self.old msr v ≡ Some self.new) (λ _. (written self.old msr v ≡ None) × (self.new ≡ self.old)) }
    {
        match self.register_of(msr) {
            Some(register) => {
                self.put(register, v);
                Ok(())
            }
            None => Err(Unknown),
        }
    }

    /// Changes a register that the file has.
    pub fn put(&mut self, register: Register, v: u64)
        requires { IsWithin self.old register }
        ensures { self.new ≡ with_value self.old register v }
    {
        match register {
            Register::PhysBase(n) => {
                let mask = self.pairs.as_slice()[n as usize].1;
                self.pairs.as_mut_slice()[n as usize] = (v, mask);
            }
            Register::PhysMask(n) => {
                let base = self.pairs.as_slice()[n as usize].0;
                self.pairs.as_mut_slice()[n as usize] = (base, v);
            }
            Register::FixedRange(place) => self.fixed[place as usize] = v,
            Register::Pat => self.pat = v,
            Register::DefaultType => self.deftype = v,
        }
    }

    // The number of the registers of pairs.
    fn pair_register_count(&self) -> u32
        ensures count { result ≡ length (pair_registers 0 (pair_count self.now)) }
        ensures pairs { result ≡ 2 * length self.now.pairs }
        ensures few { result ≤ 64 }
    {
        2 * self.pairs.len() as u32
    }

    // The number of the fixed-range registers that the file has.
    fn fixed_count(&self) -> u32
        ensures count { result ≡ length (fixed_part_of self.now) }
        ensures few { result ≤ 11 }
        ensures has { 0 < result → has_fixed self.now ≡ true }
    {
        if self.has_fixed() { FIXED_COUNT } else { 0 }
    }
}
