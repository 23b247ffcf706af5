// Relations on states: one state that meets each, and states that fail in one part.
ghost use Rattle.std.specs.Prelude.{◌∷◌, [], false, replicate, true};
ghost use Rattle.mt_regs.specs.RegisterFile.{blank_file};
ghost use Rattle.mt_regs.specs.Registers.{with_value};
ghost use Rattle.mt_types_laws.specs.WorkedRows.{four_gigabytes};
ghost use Rattle.mt_regs.specs.declared.registers.Register.TheVariants.{DefaultType};
ghost use Rattle.mt_machine.specs.declared.go.Go.TheVariants.{Given};
ghost use Rattle.mt_machine.specs.declared.phase.Phase.TheVariants.{Arrived, Normal, Restored, Taken, Writing};
ghost use Rattle.mt_machine.specs.Memory.{IsMemory};
ghost use Rattle.mt_machine.specs.Start.{IsBroadcast, IsQuiet, IsStart};
ghost use Rattle.mt_machine.specs.System.{IsCoherent, IsProcessor, IsSound};
ghost use Rattle.mt_machine.specs.Update.{IsSettledOn};
ghost use Rattle.mt_machine_laws.specs.MachineWorkedRuns.{alone, bare, bare_file, begun, call_order, calling, copier, dirty_lines, entries_from, entry, goal_of, idle, keeper, line_of, machine_of, mapping, mappings_from, one_window, ready, whole, with_first_word};
ghost use Rattle.mt_machine_laws.specs.WorkedSetups.{order_for};

/// A memory, and what fails in one part.
pub fn worked_memory()
    ensures descending { IsMemory (record { windows = record { base = 0x40; lines = 1 } ∷ record { base = 0; lines = 1 } ∷ []; words = replicate 16 0 }) }
    ensures window_without_lines { IsMemory (record { windows = record { base = 0; lines = 0 } ∷ []; words = [] }) → ⊥ }
    ensures within_a_line { IsMemory (record { windows = record { base = 0x20; lines = 1 } ∷ []; words = replicate 8 0 }) → ⊥ }
    ensures past_the_end { IsMemory (record { windows = record { base = 0xfffffffffffc0; lines = 2 } ∷ []; words = replicate 16 0 }) → ⊥ }
    ensures shared_line { IsMemory (record { windows = record { base = 0; lines = 2 } ∷ record { base = 0x40; lines = 1 } ∷ []; words = replicate 24 0 }) → ⊥ }
    ensures word_missing { IsMemory (record { windows = record { base = 0; lines = 1 } ∷ []; words = replicate 7 0 }) → ⊥ }
{}

/// A sound system, and what fails in one part.
pub fn worked_sound()
    ensures sound { IsSound (alone whole).system }
    ensures clean_word_differs { IsCoherent (with_first_word 9 (alone whole)).system → ⊥ }
    ensures copied_by_the_next { IsCoherent (machine_of (whole ∷ copier ∷ [])).system → ⊥ }
    ensures memory_misses_a_word { IsSound (record { processors = []; memory = record { windows = one_window; words = [] } }) → ⊥ }
    ensures incoherent { IsSound (with_first_word 9 (alone whole)).system → ⊥ }
    ensures line_outside { IsSound (alone (record whole { lines = line_of 0x4040 0 ∷ [] })).system → ⊥ }
    ensures buffer_outside { IsSound (alone (record whole { buffers = line_of 0x3fff 0 ∷ [] })).system → ⊥ }
    ensures second_no_processor { IsSound (machine_of (whole ∷ record idle { phase = Writing 9 } ∷ [])).system → ⊥ }
{}

/// A processor, and what fails in one part.
pub fn worked_processors()
    ensures processor { IsProcessor whole }
    ensures no_file { IsProcessor (record whole { file = record (bare_file 0x800) { width = 53 } }) → ⊥ }
    ensures not_accepted { IsProcessor (record whole { file = bare_file 0x802 }) → ⊥ }
    ensures past_the_registers { IsProcessor (record idle { phase = Writing 2 }) → ⊥ }
    ensures index { IsProcessor (record whole { mappings = mapping 1 0x100 8 ∷ [] }) → ⊥ }
    ensures mapped_page { IsProcessor (record whole { mappings = mapping 1 0x1000000 0 ∷ [] }) → ⊥ }
    ensures mappings { IsProcessor (record whole { mappings = mappings_from 1 65 }) → ⊥ }
    ensures twice_mapped { IsProcessor (record whole { mappings = mapping 1 0x100 0 ∷ mapping 2 0x100 0 ∷ mapping 1 0x101 0 ∷ [] }) → ⊥ }
    ensures global_entry { IsProcessor (record whole { entries = entry 1 true ∷ [] }) → ⊥ }
    ensures entry_without_a_mapping { IsProcessor (record whole { entries = entry 2 false ∷ [] }) → ⊥ }
    ensures entry_page { IsProcessor (record whole { entries = record (entry 1 false) { ppage = 0x1000000 } ∷ [] }) → ⊥ }
    ensures entry_after_the_flush { IsProcessor (record whole { phase = Normal }) → ⊥ }
    ensures entries { IsProcessor (record whole { entries = entries_from 1 65 }) → ⊥ }
    ensures two_entries { IsProcessor (record whole { entries = entry 1 false ∷ entry 1 false ∷ [] }) → ⊥ }
    ensures lines { IsProcessor (record whole { lines = dirty_lines 0x4000 65 }) → ⊥ }
    ensures line_twice { IsProcessor (record whole { lines = line_of 0x4000 0 ∷ line_of 0x4001 0 ∷ line_of 0x4000 0 ∷ [] }) → ⊥ }
    ensures line_of_seven { IsProcessor (record whole { lines = record (line_of 0x4000 0) { words = replicate 7 0 } ∷ [] }) → ⊥ }
    ensures buffers { IsProcessor (record whole { buffers = dirty_lines 0x4000 5 }) → ⊥ }
    ensures buffer_twice { IsProcessor (record whole { buffers = line_of 0x4000 0 ∷ line_of 0x4000 0 ∷ [] }) → ⊥ }
    ensures buffer_of_seven { IsProcessor (record whole { buffers = record (line_of 0x4000 0) { words = replicate 7 0 } ∷ [] }) → ⊥ }
{}

/// A quiet machine, and what fails in one part.
pub fn worked_quiet()
    ensures quiet { IsQuiet (machine_of (idle ∷ idle ∷ [])) }
    ensures unsound { IsQuiet (with_first_word 9 (alone whole)) → ⊥ }
    ensures not_running { IsQuiet (machine_of (idle ∷ record idle { phase = Restored } ∷ [])) → ⊥ }
    ensures two_eras { IsQuiet (machine_of (idle ∷ record idle { era = 1 } ∷ [])) → ⊥ }
    ensures two_widths { IsQuiet (machine_of (idle ∷ record idle { file = with_value (blank_file 40 0x400) DefaultType 0x800 } ∷ [])) → ⊥ }
    ensures under_way { IsQuiet (begun (bare_file 0x806) bare) → ⊥ }
{}

/// A broadcast state, and what fails in one part.
pub fn worked_broadcast()
    ensures broadcast { IsBroadcast (calling call_order (ready ∷ ready ∷ [])) call_order }
    ensures unsound { IsBroadcast (with_first_word 9 (calling call_order (record whole { phase = Taken; buffers = [] } ∷ []))) call_order → ⊥ }
    ensures other_order { IsBroadcast (calling call_order (ready ∷ [])) (order_for (bare_file 0x800)) → ⊥ }
    ensures given { IsBroadcast (calling (record call_order { go = Given }) (ready ∷ [])) (record call_order { go = Given }) → ⊥ }
    ensures arrived { IsBroadcast (calling call_order (ready ∷ record ready { phase = Arrived } ∷ [])) call_order → ⊥ }
    ensures buffer { IsBroadcast (calling call_order (ready ∷ record ready { buffers = line_of 0x4000 0 ∷ [] } ∷ [])) call_order → ⊥ }
    ensures two_eras { IsBroadcast (calling call_order (ready ∷ record ready { era = 1 } ∷ [])) call_order → ⊥ }
    ensures no_file { IsBroadcast (calling (order_for (record (bare_file 0x806) { fixed = [] })) (ready ∷ [])) (order_for (record (bare_file 0x806) { fixed = [] })) → ⊥ }
    ensures not_accepted { IsBroadcast (calling (order_for (bare_file 0x802)) (ready ∷ [])) (order_for (bare_file 0x802)) → ⊥ }
    ensures other_width { IsBroadcast (calling (order_for (with_value (blank_file 40 0x400) DefaultType 0x806)) (ready ∷ [])) (order_for (with_value (blank_file 40 0x400) DefaultType 0x806)) → ⊥ }
{}

/// A start in a broadcast state, and what is no start.
pub fn worked_starts()
    ensures broadcast { IsStart (calling call_order (ready ∷ ready ∷ [])) }
    ensures one_has_not_taken { IsStart (calling call_order (ready ∷ idle ∷ [])) → ⊥ }
{}

/// A settled processor, and what fails in one part.
pub fn worked_settled()
    ensures settled { IsSettledOn 1 goal_of keeper }
    ensures other_file { IsSettledOn 1 goal_of (record keeper { file = four_gigabytes }) → ⊥ }
    ensures older_line { IsSettledOn 1 goal_of (record keeper { lines = line_of 0x4001 1 ∷ line_of 0x4000 0 ∷ [] }) → ⊥ }
    ensures older_buffer { IsSettledOn 1 goal_of (record keeper { buffers = line_of 0x4000 0 ∷ [] }) → ⊥ }
    ensures older_entry { IsSettledOn 1 goal_of (record keeper { entries = entry 1 false ∷ [] }) → ⊥ }
{}
