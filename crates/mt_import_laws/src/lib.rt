//! Laws of logs: where the values of a dump come from, what contradictions and lines that match nothing come to,
//! and that what a program prints reads back.
#![tactic(auto)]

mod laws;
mod printers;
mod worked;

pub use laws::{
    a_table_is_read_alone, a_width_that_contradicts_a_word_is_a_fault,
    a_word_without_fix_is_a_fault, all_tables_are_read_without_the_word, assumed_values_are_named,
    assumed_values_are_noted, auto_comes_to_that_format, auto_takes_the_most,
    capabilities_that_contradict_are_faults, contradictions_are_faults, enabled_pairs_are_counted,
    fixed_ranges_without_fix_are_faults, lines_on_fixed_ranges_agree,
    lines_that_match_nothing_change_nothing, lines_that_match_nothing_may_be_left_out,
    readings_come_from_lines, reasons_come_alone, returns_change_nothing, values_have_origins,
    warnings_are_told, what_is_missing_is_named, what_is_tried_gives_the_others,
    widths_have_origins, widths_that_differ_are_faults, words_that_contradict_are_faults,
};
pub use printers::{
    auto_takes_what_is_printed, what_chipsec_prints_reads_back, what_coreboot_displays_reads_back,
    what_edk2_prints_reads_back, what_inteltool_prints_of_a_core_turns_to_it,
    what_inteltool_prints_reads_back, what_linux_prints_reads_back,
    what_rdmsr_prints_of_all_reads_back, what_rdmsr_prints_reads_back,
    what_windbg_prints_reads_back, what_x86info_prints_of_all_reads_back,
    what_x86info_prints_reads_back, what_xen_prints_reads_back, worked_cpus, worked_formats,
    worked_others, worked_prints,
};
pub use worked::{
    worked_assumption, worked_contradiction, worked_fixed_ranges, worked_late_warning,
    worked_missing, worked_returns, worked_spare_line, worked_switch, worked_table, worked_warning,
    worked_word,
};
