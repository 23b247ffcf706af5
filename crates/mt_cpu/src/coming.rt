ghost use Rattle.std.specs.Prelude.{◌≡◌, ◌≤◌, IfOk};
ghost use Rattle.mt_regs.specs.RegisterFile.{low_byte};
ghost use Rattle.mt_machine.specs.ComingAndGoing.{newcomer};

use crate::cpu::Cpu;
use mt_ports::NoMemory;
use mt_regs::RegFile;
use std::alloc::Global;

impl Cpu {
    /// A processor as it comes up beside others, with the width and the capabilities of their files and with
    /// their era: its registers are blank, its cache is in no-fill mode, and it runs and holds nothing.
    ///
    /// # Errors
    ///
    /// Fails if an allocation fails.
    pub fn come_up(alloc: Global, maxphy: u8, cap: u64, era: u64) -> Result<Cpu, NoMemory>
        requires wide { 32 ≤ maxphy }
        requires narrow { maxphy ≤ 52 }
        requires pairs { low_byte cap ≤ 32 }
        ensures { IfOk result (λ cpu. cpu ≡ newcomer maxphy cap era) }
    {
        let Ok(regs) = RegFile::blank(maxphy, cap) else {
            unreachable!()
        };
        let mut cpu = Cpu::new(alloc, regs)?;
        cpu.state.cd = true;
        cpu.state.era = era;
        Ok(cpu)
    }
}
