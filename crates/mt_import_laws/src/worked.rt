ghost use Rattle.std.specs.Prelude.{◌≡◌, ◌∷◌, ◌++◌, [], ℕ, List, codes, length, Some};
ghost use Rattle.mt_text.specs.Text.{longest_line};
ghost use Rattle.mt_import.specs.Readings.{starts};
ghost use Rattle.mt_import.specs.declared.format.Choice.TheVariants.{Auto, Only};
ghost use Rattle.mt_import.specs.declared.format.Format.TheVariants.{Linux, Rdmsr};
ghost use Rattle.mt_import.specs.Supplied.{command_of, nothing_supplied};
ghost use Rattle.mt_import_laws.specs.Alone.{HasAlone};
ghost use Rattle.mt_import_laws.specs.Origins.{IsAssumed, context_after_lines, seen_of};
ghost use Rattle.mt_import_laws.specs.Returns.{DifferInReturns, GetsReturn};
ghost use Rattle.mt_import_laws.specs.Worked.{IsWorked, IsWorkedFixed, IsWorkedSwitch, IsWorkedWord, all_values, headed_log, last_table, late_log, no_values, pat_allowed, returned_log, second_boot, spaced_log, two_boots, warning_log, worked_choice, worked_log};
ghost use Rattle.mt_import_laws.specs.Spare.{HasSpareLine, TakesNoneBack};
ghost use Rattle.mt_import_laws.specs.Warnings.{AreWarning, HasWarning, facts_read};
ghost use Rattle.mt_import_laws.specs.Assumptions.{IsNamedValue};
ghost use Rattle.mt_import_laws.specs.Missing.{NamesLacking, value_word_of};
ghost use Rattle.mt_import.specs.Slot.{blank_slot};
ghost use Rattle.mt_import.specs.Values.{linux_pat};
ghost use Rattle.mt_import.specs.declared.shape.Warning.TheVariants.{Unlike, WrongMask};

/// An instance of `contradictions_are_faults`: the lines of a log of two lines are read, and contradict each other.
pub fn worked_contradiction()
    ensures { IsWorked }
{}

/// An instance of `fixed_ranges_without_fix_are_faults`: a log of two lines shows a fixed-range register, and FIX as clear.
pub fn worked_fixed_ranges()
    ensures { IsWorkedFixed }
{}

/// An instance of `a_word_without_fix_is_a_fault`: a log shows a fixed-range register, and a word supplies 0FEH without FIX.
pub fn worked_word()
    ensures { IsWorkedWord }
{}

/// An instance of `lines_on_fixed_ranges_agree`: two lines of Linux that don't.
pub fn worked_switch()
    ensures { IsWorkedSwitch }
{}

/// An instance of `warnings_are_told`: a kernel's warning in a log of rdmsr.
pub fn worked_warning()
    ensures { HasWarning worked_choice warning_log Unlike }
{}

/// Instances of `warnings_are_told` at status 3: what a line in front of the fault warns of is read, and not what a line behind it does.
pub fn worked_late_warning()
    ensures early { AreWarning (facts_read worked_choice nothing_supplied late_log) WrongMask 1 }
    ensures late { AreWarning (facts_read worked_choice nothing_supplied late_log) Unlike 4 → ⊥ }
{}

/// Instances of `what_is_missing_is_named` and `what_is_tried_gives_the_others`: a register that a processor lacks is named. No text
/// leaves it out, has another register in its place, or names one that each processor has.
pub fn worked_missing()
    ensures meets { NamesLacking no_values 1 (0x277 ∷ []) value_word_of (codes " 277=VALUE") }
    ensures silent { NamesLacking no_values 1 (0x277 ∷ []) value_word_of [] → ⊥ }
    ensures other { NamesLacking no_values 1 (0x277 ∷ []) value_word_of (codes " 2ff=VALUE") → ⊥ }
    ensures known { NamesLacking all_values 1 (0x277 ∷ []) value_word_of (codes " 277=VALUE") → ⊥ }
{}

/// Instances of `assumed_values_are_named`: the PAT of a log of Linux. A PAT of 0 isn't named, nor is a register 10H.
pub fn worked_assumption()
    ensures meets { IsAssumed pat_allowed (seen_of (Only Linux) []) 0 0x277 linux_pat }
    ensures value { IsNamedValue (λ number. blank_slot) 0x277 0 → ⊥ }
    ensures number { IsNamedValue (λ number. blank_slot) 0x10 0 → ⊥ }
{}

/// An instance of `returns_change_nothing`: a line of a log gets a CR. One that stays gets none, and none is a second one or past the longest line.
pub fn worked_returns()
    ensures meets { DifferInReturns worked_log returned_log }
    ensures stays { GetsReturn (codes "6") (codes "6") → ⊥ }
    ensures second { GetsReturn (codes "6" ++ 13 ∷ []) (codes "6" ++ 13 ∷ 13 ∷ []) → ⊥ }
    ensures longest { (line longer : List ℕ) → length line ≡ longest_line → GetsReturn line longer → ⊥ }
{}

/// Instances of `lines_that_match_nothing_may_be_left_out`: a log of rdmsr without a line of a shell's output, and `auto` without the
/// line in front of the one that tells the format. A line between a call and its value isn't spare: it takes the call back.
pub fn worked_spare_line()
    ensures meets { HasSpareLine worked_choice spaced_log worked_log }
    ensures by_auto { HasSpareLine Auto headed_log worked_log }
    ensures waits { TakesNoneBack (context_after_lines (starts (Some Rdmsr)) 1 (codes "+ rdmsr 0x277" ∷ [])) 3 (codes "6" ∷ []) → ⊥ }
    ensures takes_back { TakesNoneBack (context_after_lines (starts (Some Rdmsr)) 1 (codes "+ rdmsr 0x277" ∷ [])) 3 (codes "+ rdmsr 0x2ff" ∷ []) }
{}

/// An instance of `a_table_is_read_alone`: two boots of Linux, with a region of `/proc/mtrr` behind them, and the lines that `table=last` leaves.
pub fn worked_table()
    ensures words { command_of (codes "linux" ∷ codes "table=last" ∷ []) ≡ Some (Only Linux, last_table) }
    ensures alone { HasAlone last_table.table Linux two_boots second_boot }
{}
