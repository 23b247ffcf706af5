ghost use Rattle.mt_machine.specs.System.{IsProcessor};

use crate::cpu::Cpu;

/// What the types of a processor and of its parts keep.
pub fn a_processor_is_whole(cpu: &Cpu)
    ensures { IsProcessor cpu.now }
{
    let state = &*cpu.state; // a fact for the proof
    state.regs.is_register_file(); // a fact for the proof
    let _ = state.maps.list(); // a fact for the proof
    let _ = state.tlb.entries(); // a fact for the proof
    let _ = state.cache.len(); // a fact for the proof
    let _ = state.buffers.lines(); // a fact for the proof
}
