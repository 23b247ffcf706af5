ghost use Rattle.std.specs.Prelude.{◌≡◌, Some, slice_get, true};
ghost use Rattle.mt_machine.specs.System.{Processor, change};
ghost use Rattle.mt_machine.specs.Machine.{own_step, step};
ghost use Rattle.mt_list_machine.specs.Calls.{HasPlace, is_fit};

use crate::bus::Bus;
use crate::steps::{own_step, put_phase};
use mt_machine::{Event, Phase};
use mt_regs::RegFile;

impl Bus<'_> {
    fn put_phase(&mut self, k: usize, phase: Phase)
        ensures { self.new ≡ change (λ p. record p { phase = phase }) k self.old }
    {
        if let Some(cpu) = self.cpus.get_mut(k) {
            put_phase(cpu, phase);
        }
    }

    fn own_step(&mut self, k: usize, goal: &RegFile, e: Event)
        requires fit { (p : Processor) → slice_get self.old.processors k ≡ Some p → is_fit goal.now p ≡ true }
        requires place { HasPlace e }
        ensures { self.new ≡ change (own_step goal.now e) k self.old }
    {
        let Some(cpu) = self.cpus.get_mut(k) else {
            return;
        };
        own_step(cpu, goal, e);
    }

    /// Does an event of a processor, whether or not it is due.
    pub fn event(&mut self, k: usize, goal: &RegFile, e: Event)
        requires fit { (p : Processor) → slice_get self.old.processors k ≡ Some p → is_fit goal.now p ≡ true }
        requires place { HasPlace e }
        ensures { self.new ≡ step goal.now e k self.old }
    {
        match e {
            Event::Take => {
                self.drain(k);
                self.put_phase(k, Phase::Taken);
                return;
            }
            Event::WriteBack { address, value } => self.store_in_memory(address, value),
            Event::Arrive
            | Event::Leave
            | Event::Pass
            | Event::SetNoFill
            | Event::DropLines
            | Event::FlushTlb
            | Event::Disable
            | Event::Write(_)
            | Event::Enable
            | Event::SetNormal
            | Event::RestorePge
            | Event::ArriveAgain
            | Event::Release => {}
        }
        self.own_step(k, goal, e);
    }
}
