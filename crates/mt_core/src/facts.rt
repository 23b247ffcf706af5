ghost use Rattle.mt_core.specs.Arises.{IsCore};

use crate::core_type::Core;

/// What a core keeps: its state arises, it has at most 16 processors, and an update under way was called while the eras
/// had room. States arise from a start by events and new windows. While no update is under way processors may also
/// become self-snooping, come up or go.
pub fn a_core_arises(core: &Core)
    ensures { IsCore core.now }
{
    let _ = &core.order; // a fact for the proof
}
