ghost use Rattle.mt_bus.specs.Refusals.{AccessesRefuseInOrder, ControlsRefuseInOrder};
ghost use Rattle.mt_machine.specs.System.{IsSound};

use crate::system::System;

/// What a system keeps: caches and memory agree, each cached or buffered line lies in a window, and each
/// processor is one.
pub fn a_system_is_sound(system: &System)
    ensures { IsSound system.now }
{
    let _ = &system.bus; // a fact for the proof
}

/// Specifies when each refusal of an access is returned, and what then changes.
pub fn accesses_refuse_in_order()
    ensures { AccessesRefuseInOrder }
{}

/// Specifies when each refusal of a control instruction is returned, and that nothing then changes.
pub fn controls_refuse_in_order()
    ensures { ControlsRefuseInOrder }
{}
