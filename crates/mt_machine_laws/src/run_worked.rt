// Relations of the laws: one state that meets each, and states that fail in one part.
ghost use Rattle.std.specs.Prelude.{◌≡◌, ◌∷◌, ◌++◌, [], false, map};
ghost use Rattle.mt_regs.specs.RegisterFile.{blank_file};
ghost use Rattle.mt_regs.specs.Registers.{with_value};
ghost use Rattle.mt_regs.specs.declared.registers.Register.TheVariants.{DefaultType, Pat};
ghost use Rattle.mt_machine.specs.declared.event.Event.TheVariants.{Arrive, Pass, Release, SetNoFill};
ghost use Rattle.mt_machine.specs.declared.phase.Phase.TheVariants.{Arrived, NoFill, Passed, Restored, Taken, Writing};
ghost use Rattle.mt_machine.specs.Machine.{Steps, run};
ghost use Rattle.mt_machine_laws.specs.MachineWorkedRuns.{alone, bare, bare_file, call_order, called, calling, entry, goal_of, idle, line_of, machine_of, palette, walk, whole, with_first_word};
ghost use Rattle.mt_laws.specs.Barriers.{BarriersHold, NoneActsInChange, NoneRunsInChange};
ghost use Rattle.mt_laws.specs.Counts.{IsCounted, IsEachAtMostOnce, IsEachOnce};
ghost use Rattle.mt_laws.specs.Kept.{OrderHolds, SameHoldings};
ghost use Rattle.mt_laws.specs.Settled.{IsFirstRelease, IsFresh};
ghost use Rattle.mt_laws.specs.Starts.{HasEras};
ghost use Rattle.mt_laws.specs.Updates.{HoldsNothing, LeadsToBroadcast};
ghost use Rattle.mt_machine_laws.specs.RunWorkedRuns.{bare_called, between_of_bare, between_of_snooper, pair_arrived, pair_between, pair_order, pair_released, snooper_called, way_on};

/// Two processors at the first barrier, and the first release, which comes after each has made its way to the
/// second. What fails in one part.
pub fn worked_first_release()
    ensures first { IsFirstRelease pair_arrived pair_released pair_order }
    ensures other_order { IsFirstRelease pair_arrived pair_released (record pair_order { goal = bare_file 0x800 }) → ⊥ }
    ensures after_a_pass { IsFirstRelease (run pair_arrived (Steps 0 Pass ∷ [])) pair_released pair_order → ⊥ }
    ensures release_between { (h : IsFirstRelease pair_arrived (run pair_released (Steps 0 Release ∷ [])) pair_order) → h.first ≡ 0 → h.last ≡ 0 → h.between ≡ pair_between ++ Steps 1 Release ∷ [] → ⊥ }
    ensures not_enabled { (h : IsFirstRelease pair_arrived (run pair_arrived (Steps 0 Pass ∷ Steps 0 Release ∷ [])) pair_order) → h.first ≡ 0 → h.last ≡ 0 → h.between ≡ [] → ⊥ }
    ensures other_state { (h : IsFirstRelease pair_arrived pair_arrived pair_order) → h.first ≡ 0 → h.last ≡ 1 → h.between ≡ pair_between → ⊥ }
{}

/// What leaves files, lines, buffers, entries and words as they were, and what doesn't for one thing.
pub fn worked_holdings()
    ensures same { SameHoldings palette.system (walk 1 0 (called palette)).system }
    ensures other_file { SameHoldings (alone whole).system (alone (record whole { file = goal_of })).system → ⊥ }
    ensures other_lines { SameHoldings (alone whole).system (alone (record whole { lines = [] })).system → ⊥ }
    ensures other_buffers { SameHoldings (alone whole).system (alone (record whole { buffers = [] })).system → ⊥ }
    ensures other_entries { SameHoldings (alone whole).system (alone (record whole { entries = [] })).system → ⊥ }
    ensures other_word { SameHoldings (alone whole).system (with_first_word 9 (alone whole)).system → ⊥ }
{}

/// A processor that holds a line, a buffer and an entry of its own era, and of an earlier one.
pub fn worked_fresh()
    ensures fresh { IsFresh whole }
    ensures older_line { IsFresh (record whole { era = 1; buffers = []; entries = [] }) → ⊥ }
    ensures older_buffer { IsFresh (record whole { era = 1; lines = []; entries = [] }) → ⊥ }
    ensures older_entry { IsFresh (record whole { era = 1; lines = []; buffers = [] }) → ⊥ }
{}

/// The events of an update from a take to a release, and who takes. What fails in one part.
pub fn worked_counts()
    ensures counted { IsCounted bare_called 0 between_of_bare }
    ensures self_snooping { IsCounted snooper_called 0 between_of_snooper }
    ensures no_pass { (h : IsCounted bare_called 0 (map (Steps 0) (Arrive ∷ SetNoFill ∷ way_on))) → h.before ≡ Steps 0 Arrive ∷ [] → ⊥ }
    ensures one_step_more { (h : IsCounted bare_called 0 (between_of_bare ++ Steps 0 Arrive ∷ [])) → h.before ≡ Steps 0 Arrive ∷ [] → ⊥ }
    ensures one_missing { IsEachOnce 2 (0 ∷ []) → ⊥ }
    ensures one_too_many { IsEachOnce 2 (0 ∷ 1 ∷ 2 ∷ []) → ⊥ }
    ensures twice { IsEachAtMostOnce 2 (0 ∷ 0 ∷ []) → ⊥ }
{}

/// Machines at the barriers, and what doesn't hold there, for one thing.
pub fn worked_barriers()
    ensures hold { BarriersHold (calling pair_order (record idle { phase = Arrived } ∷ [])) }
    ensures one_not_arrived { BarriersHold (calling pair_order (record idle { phase = Passed } ∷ record idle { phase = Taken } ∷ [])) → ⊥ }
    ensures not_given { BarriersHold (calling call_order (record idle { phase = Passed } ∷ [])) → ⊥ }
    ensures one_not_arrived_again { BarriersHold (calling pair_order (record idle { era = 1 } ∷ record idle { phase = Restored } ∷ [])) → ⊥ }
    ensures one_runs { NoneRunsInChange (machine_of (record idle { phase = NoFill } ∷ idle ∷ [])) → ⊥ }
    ensures one_acts { NoneActsInChange (machine_of (record idle { phase = NoFill } ∷ idle ∷ [])) → ⊥ }
{}

/// An order that holds, and what doesn't hold while one stands, for one thing.
pub fn worked_orders()
    ensures written { OrderHolds (calling pair_order (record idle { phase = Writing 1 } ∷ [])) pair_order }
    ensures not_written { OrderHolds (calling pair_order (record idle { file = with_value (bare_file 0x806) Pat 0; phase = Writing 1 } ∷ [])) pair_order → ⊥ }
    ensures other_width { OrderHolds (calling pair_order (record idle { file = with_value (blank_file 40 0x400) DefaultType 0x800 } ∷ [])) pair_order → ⊥ }
    ensures no_file { OrderHolds (machine_of []) (record pair_order { goal = record (bare_file 0x806) { fixed = [] } }) → ⊥ }
    ensures not_accepted { OrderHolds (machine_of []) (record pair_order { goal = bare_file 0x802 }) → ⊥ }
{}

/// A processor that holds nothing, and takes that lead to a broadcast state. What fails in one part.
pub fn worked_nothing()
    ensures nothing { HoldsNothing (bare_file 0x800) idle }
    ensures other_file { HoldsNothing (bare_file 0x806) idle → ⊥ }
    ensures line { HoldsNothing (bare_file 0x800) (record idle { lines = line_of 0x4000 0 ∷ [] }) → ⊥ }
    ensures buffer { HoldsNothing (bare_file 0x800) (record idle { buffers = line_of 0x4000 0 ∷ [] }) → ⊥ }
    ensures entry { HoldsNothing (bare_file 0x800) (record idle { entries = entry 1 false ∷ [] }) → ⊥ }
    ensures broadcast { LeadsToBroadcast bare (bare_file 0x806) (0 ∷ []) }
    ensures one_too_few { LeadsToBroadcast (machine_of (idle ∷ idle ∷ [])) (bare_file 0x806) (0 ∷ []) → ⊥ }
    ensures taken_twice { LeadsToBroadcast bare (bare_file 0x806) (0 ∷ 0 ∷ []) → ⊥ }
{}

/// Eras that fit, and that don't, for one thing.
pub fn worked_eras()
    ensures fit { HasEras (calling pair_order (idle ∷ [])) }
    ensures too_late { HasEras (machine_of (record idle { era = 0x10000000000000000 } ∷ [])) → ⊥ }
    ensures none_after { HasEras (calling (record pair_order { from_era = 0xffffffffffffffff }) []) → ⊥ }
{}
