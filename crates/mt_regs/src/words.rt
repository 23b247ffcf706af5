ghost use Rattle.std.specs.Prelude.{◌≡◌, ℕ};
ghost use Rattle.mt_regs.specs.RegisterFile.{IsRegisterFile, RegisterFile};
ghost use Rattle.mt_regs.specs.Registers.{value_at};
ghost use Rattle.mt_regs.specs.Words.{HasWords};

use crate::{CAPABILITIES, RegFile};

impl RegFile {
    /// Each register's value is one of 64 bits. The calls are for the proof alone.
    pub fn has_words(&self)
        ensures { HasWords self.now }
    {
        'registers: for i in 0..self.count() {
            if let Some(register) = self.register_at(i) {
                let _ = self.value_of(register);
            }
        }
        let _ = self.get(CAPABILITIES).unwrap_or(0);
        let _ = &self.maxphy;
    }
}

/// Files of one width whose registers have equal values are equal.
pub fn files_of_equal_values_are_equal()
    ensures { (f g : RegisterFile) → IsRegisterFile f → IsRegisterFile g → f.width ≡ g.width → ((number : ℕ) → value_at f number ≡ value_at g number) → f ≡ g }
{}
