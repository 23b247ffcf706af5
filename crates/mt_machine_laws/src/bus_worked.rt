// Instances of what the laws say: refusals of accesses and of control instructions. Of each part there is one that fails in
// just that.
ghost use Rattle.mt_kinds.specs.declared.mem_type.MemType.TheVariants.{UC, WB};
ghost use Rattle.mt_machine.specs.declared.control.Control.TheVariants.{Cr3, Map};
ghost use Rattle.mt_machine.specs.declared.done.Done.TheVariants as done;
ghost use Rattle.mt_machine.specs.declared.op.Op.TheVariants.{Fence, Load, Store};
ghost use Rattle.mt_machine.specs.declared.ruled.Ruled.TheVariants.{Busy, Full, Okay};
ghost use Rattle.mt_machine.specs.Access.{access};
ghost use Rattle.mt_machine.specs.Control.{control};
ghost use Rattle.mt_machine_laws.specs.MachineWorkedRuns.{alone, idle, mapping, ready, whole};
ghost use Rattle.mt_bus.specs.Refusals.{AccessesRefuseInOrder, ControlsRefuseInOrder, RefusesInOrder, RulesInOrder};
ghost use Rattle.mt_machine_laws.specs.WorkedRefusals.{Refuses, Rules, astray, crammed, translated};

/// An access that is served, and answers that are none for one thing.
pub fn worked_access_refusals()
    ensures served { Refuses whole (Load 0x1000) (done.Value 0 WB) whole }
    ensures of_the_machine { AccessesRefuseInOrder → RefusesInOrder (alone whole).system 0 whole (Load 0x1000) (access (alone whole).system 0 (Load 0x1000)) }
    ensures busy_though_it_runs { Refuses whole (Load 0x1000) done.Busy whole → ⊥ }
    ensures served_though_under_way { Refuses ready Fence done.Fenced ready → ⊥ }
    ensures unmapped_though_mapped { Refuses whole (Load 0x1000) done.Unmapped whole → ⊥ }
    ensures stored_though_unmapped { Refuses idle (Store 0x1000 7) (done.Stored UC) idle → ⊥ }
    ensures no_memory_though_there { Refuses whole (Load 0x1000) done.NoRam whole → ⊥ }
    ensures loaded_without_memory { Refuses astray (Load 0x1000) (done.Value 0 UC) translated → ⊥ }
    ensures busy_and_changed { Refuses ready (Load 0x1000) done.Busy idle → ⊥ }
    ensures unmapped_and_changed { Refuses idle (Load 0x1000) done.Unmapped ready → ⊥ }
    ensures translation_dropped { Refuses astray (Load 0x1000) done.NoRam astray → ⊥ }
{}

/// A control instruction that is done, and answers that are none for one thing.
pub fn worked_control_refusals()
    ensures reloaded { Rules crammed Cr3 Okay crammed }
    ensures of_the_machine { ControlsRefuseInOrder → RulesInOrder (alone crammed).system 0 crammed Cr3 (control (alone crammed).system 0 Cr3) }
    ensures busy_though_it_runs { Rules idle Cr3 Busy idle → ⊥ }
    ensures done_though_under_way { Rules ready Cr3 Okay ready → ⊥ }
    ensures full_with_room { Rules idle (Map (mapping 65 0x100 0)) Full idle → ⊥ }
    ensures mapped_without_room { Rules crammed (Map (mapping 65 0x100 0)) Okay crammed → ⊥ }
    ensures busy_and_changed { Rules ready Cr3 Busy idle → ⊥ }
    ensures full_and_changed { Rules crammed (Map (mapping 65 0x100 0)) Full idle → ⊥ }
{}
