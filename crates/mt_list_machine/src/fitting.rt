ghost use Rattle.std.specs.Prelude.{◌≡◌, ◌<◌, ◌^◌, ◌==◌, ◌&&◌, nat_lt};
ghost use Rattle.std.specs.List.{list_all};
ghost use Rattle.mt_list_machine.specs.Calls.{is_fit};

use crate::cpu::Cpu;
use crate::ram::PHYSICAL_LINES;
use mt_cache::CacheLine;
use mt_regs::RegFile;

impl Cpu {
    /// Whether a goal is of the processor's kind, and its numbers have room.
    pub fn is_fit(&self, goal: &RegFile) -> bool
        ensures { result ≡ is_fit goal.now self.now }
    {
        is_kind(&self.regs, goal) && self.era < u64::MAX && are_physical(self.lines.as_slice())
    }
}

fn is_kind(regs: &RegFile, goal: &RegFile) -> bool
    ensures { result ≡ (goal.now.width == regs.now.width) && (goal.now.capabilities == regs.now.capabilities) }
{
    goal.maxphy == regs.maxphy && goal.cap == regs.cap
}

/// Whether the lines are within the physical addresses.
pub fn are_physical(lines: &[CacheLine]) -> bool
    ensures { result ≡ list_all (λ l. nat_lt l.number (2 ^ 46)) lines.now }
{
    for line in lines {
        if line.number >= PHYSICAL_LINES {
            return false;
        }
    }
    true
}
