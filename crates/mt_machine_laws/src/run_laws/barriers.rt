ghost use Rattle.mt_laws.specs.Barriers.{BarriersHold, NoneActsInChange, NoneRunsInChange, OpenWhereFull};
ghost use Rattle.mt_machine.specs.Machine.{Machine, Reached};
ghost use Rattle.mt_machine.specs.Start.{IsStart};

/// In each reached state the barriers hold, and none has passed the first before the go was given. While
/// some processor changes its registers, none runs, so none accesses memory.
pub fn barriers_hold()
    ensures barriers { (s t : Machine) → IsStart s → Reached s t → BarriersHold t }
    ensures exclusive { (s t : Machine) → IsStart s → Reached s t → NoneRunsInChange t }
    ensures busy { (s t : Machine) → IsStart s → Reached s t → NoneActsInChange t }
{}

/// A barrier is open if and only if as many have arrived at it as are awaited. At the first the coordinator counts too,
/// and has arrived once the go is given.
pub fn barriers_count()
    ensures { OpenWhereFull }
{}
