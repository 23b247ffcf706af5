// Which events are enabled, and what they lead to.
ghost use Rattle.std.specs.Prelude.{◌≡◌, ◌∷◌, [], true};
ghost use Rattle.std.specs.List.{list_all};
ghost use Rattle.mt_regs.specs.RegisterFile.{blank_file};
ghost use Rattle.mt_regs.specs.Registers.{with_value};
ghost use Rattle.mt_regs.specs.declared.registers.Register.TheVariants.{DefaultType};
ghost use Rattle.mt_machine.specs.declared.control.Control.TheVariants.{Cr3};
ghost use Rattle.mt_machine.specs.declared.event.Event.TheVariants.{Arrive, Leave, Release, Take};
ghost use Rattle.mt_machine.specs.declared.op.Op.TheVariants.{Fence};
ghost use Rattle.mt_machine.specs.Machine.{Accesses, AreEnabled, Calls, Cancels, Controls, Goes, IsEnabled, Reached, Steps, run};
ghost use Rattle.mt_machine.specs.Update.{IsHeld, Led, stored_words};
ghost use Rattle.mt_laws.specs.Kept.{is_of_update, is_still};
ghost use Rattle.mt_machine_laws.specs.MachineWorkedRuns.{bare, bare_file, begun, called, goal_of, load, mapping, maps, palette, store, walk, with_first_word, with_word};

/// Accesses and control instructions that are enabled, and that aren't for one thing.
pub fn worked_enabled()
    ensures last_word { IsEnabled palette (load 0 0xfffffffffff8) }
    ensures past_the_last_word { IsEnabled palette (load 0 0x1000000000000) → ⊥ }
    ensures within_a_word { IsEnabled palette (load 0 0x1004) → ⊥ }
    ensures largest_value { IsEnabled palette (store 1 0xfffffffffff8 0xffffffffffffffff) }
    ensures past_the_largest { IsEnabled palette (store 0 0x1000 0x10000000000000000) → ⊥ }
    ensures store_within_a_word { IsEnabled palette (store 0 0x1004 7) → ⊥ }
    ensures busy { IsEnabled (walk 1 0 (called palette)) (Accesses 0 Fence) → ⊥ }
    ensures last_page { IsEnabled palette (maps 1 (mapping 0xfffffffff 0xffffff 7)) }
    ensures busy_control { IsEnabled (walk 1 0 (called palette)) (Controls 0 Cr3) → ⊥ }
    ensures past_the_last_page { IsEnabled palette (maps 0 (mapping 0x1000000000 0x100 0)) → ⊥ }
    ensures past_the_memory { IsEnabled palette (maps 0 (mapping 6 0x1000000 0)) → ⊥ }
    ensures past_the_entries { IsEnabled palette (maps 0 (mapping 6 0x100 8)) → ⊥ }
{}

/// Events of the coordinator and steps that are enabled, and that aren't for one thing.
pub fn worked_coordinator()
    ensures call { IsEnabled bare (Calls (bare_file 0x806)) }
    ensures under_way { IsEnabled (begun (bare_file 0x806) bare) (Calls (bare_file 0x806)) → ⊥ }
    ensures no_file { IsEnabled bare (Calls (record (bare_file 0x806) { fixed = [] })) → ⊥ }
    ensures not_accepted { IsEnabled bare (Calls (bare_file 0x802)) → ⊥ }
    ensures other_width { IsEnabled bare (Calls (with_value (blank_file 40 0x400) DefaultType 0x806)) → ⊥ }
    ensures other_capabilities { IsEnabled bare (Calls (with_value (blank_file 36 0) DefaultType 0x806)) → ⊥ }
    ensures go { IsEnabled (begun goal_of palette) Goes }
    ensures no_second_go { IsEnabled (called palette) Goes → ⊥ }
    ensures cancel { IsEnabled (begun goal_of palette) Cancels }
    ensures no_cancel_behind_the_go { IsEnabled (called palette) Cancels → ⊥ }
    ensures step { IsEnabled (called palette) (Steps 0 Take) }
    ensures other_step { IsEnabled (called palette) (Steps 0 Arrive) → ⊥ }
{}

/// Events that are enabled each in its turn, and where they lead.
pub fn worked_reached()
    ensures enabled { AreEnabled bare (Accesses 0 Fence ∷ Controls 0 Cr3 ∷ Calls (bare_file 0x806) ∷ Goes ∷ Steps 0 Take ∷ Steps 0 Arrive ∷ []) }
    ensures not_in_this_turn { AreEnabled bare (Calls (bare_file 0x806) ∷ Steps 0 Arrive ∷ Steps 0 Take ∷ []) → ⊥ }
    ensures given { Reached bare (run bare (Calls (bare_file 0x806) ∷ Goes ∷ Steps 0 Take ∷ [])) }
{}

/// Kinds of events, and what go, cancel and steps lead to.
pub fn worked_kinds()
    ensures still { list_all is_still (Calls goal_of ∷ Goes ∷ Cancels ∷ Steps 0 Arrive ∷ Steps 0 Leave ∷ []) ≡ true }
    ensures of_update { list_all is_of_update (Calls goal_of ∷ Goes ∷ Cancels ∷ Steps 0 Take ∷ Steps 0 Release ∷ []) ≡ true }
    ensures led_by_go { Led (begun (bare_file 0x806) bare) (run (begun (bare_file 0x806) bare) (Goes ∷ Steps 0 Take ∷ [])) }
    ensures led_by_cancel { Led (begun (bare_file 0x806) bare) (run (begun (bare_file 0x806) bare) (Steps 0 Take ∷ Cancels ∷ Steps 0 Leave ∷ [])) }
    ensures call_is_not_led { Led bare (begun (bare_file 0x806) bare) → ⊥ }
{}

/// The words that a list of events stores. A refused store stores none.
pub fn worked_stored_words()
    ensures busy { stored_words (walk 1 0 (called palette)) (store 0 0x1000 7 ∷ []) ≡ [] }
    ensures no_ram { stored_words (run palette (maps 0 (mapping 6 0x200 0) ∷ [])) (store 0 0x6000 7 ∷ []) ≡ [] }
    ensures in_turn { stored_words palette (store 0 0x6000 1 ∷ maps 0 (mapping 6 0x100 0) ∷ store 0 0x6010 1 ∷ load 0 0x1008 ∷ store 1 0x1000 2 ∷ []) ≡ 0x100010 ∷ 0x100000 ∷ [] }
{}

/// Words that are held, and that aren't for one thing.
pub fn worked_held()
    ensures held { IsHeld palette.system palette [] }
    ensures changed { IsHeld palette.system (with_first_word 7 palette) [] → ⊥ }
    ensures second_word { IsHeld palette.system (with_word 0x100008 7 palette) [] → ⊥ }
    ensures left_in_a_cache { IsHeld (run palette (store 1 0x1000 7 ∷ [])).system palette [] → ⊥ }
    ensures other_word_stored { IsHeld palette.system (with_first_word 7 palette) (store 0 0x4008 1 ∷ []) → ⊥ }
    ensures after_the_events { IsHeld palette.system (run palette (store 0 0x3000 7 ∷ [])) (Accesses 0 Fence ∷ []) → ⊥ }
{}
