ghost use Rattle.std.specs.Prelude.{◌≡◌};
ghost use Rattle.mt_import.specs.Slot.{blank_slot, clashes, fresh_after, is_disabled, is_whole, slot_with, whole_value};

use crate::Reading;
use crate::shape::Slot;
use mt_kinds::{PHYSMASK_V, is_bit_set};

const ALL_BITS: u64 = u64::MAX;

const VALID: u64 = 1 << PHYSMASK_V;

impl Slot {
    pub(crate) fn blank() -> Slot
        ensures { result ≡ blank_slot }
    {
        Slot {
            bits: 0,
            fresh: 0,
            table: 0,
            value: 0,
            line: 0,
        }
    }

    /// Whether the lines of one table, or one line, have shown the whole register.
    pub fn is_whole(&self) -> bool
        ensures { result ≡ is_whole self.now }
    {
        self.fresh == ALL_BITS
    }

    // The bits that one table has shown, after one more reading.
    fn fresh_after(&self, reading: &Reading) -> u64
        ensures { result ≡ fresh_after self.now reading.now }
    {
        if self.is_whole() {
            self.fresh
        } else if self.table == reading.table {
            self.fresh | reading.bits
        } else {
            reading.bits
        }
    }

    /// The slot after one more reading.
    pub(crate) fn with(&self, reading: &Reading) -> Slot
        ensures { result ≡ slot_with self.now reading.now }
    {
        Slot {
            bits: self.bits | reading.bits,
            fresh: self.fresh_after(reading),
            table: reading.table,
            value: self.value | reading.value,
            line: reading.place.line,
        }
    }

    /// Whether a reading shows another value in the bits that lines before it have shown.
    pub(crate) fn clashes(&self, reading: &Reading) -> bool
        ensures { result ≡ clashes self.now reading.now }
    {
        self.value & reading.bits != reading.value & self.bits
    }

    /// The register's value, if it is whole.
    pub fn whole(&self) -> Option<u64>
        ensures { result ≡ whole_value self.now }
    {
        if self.is_whole() {
            Some(self.value)
        } else {
            None
        }
    }

    /// Whether V alone of a PhysMask is shown, and clear.
    pub(crate) fn is_disabled(&self) -> bool
        ensures { result ≡ is_disabled self.now }
    {
        self.bits == VALID && !is_bit_set(self.value, PHYSMASK_V)
    }
}
