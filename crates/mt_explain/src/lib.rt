//! Facts about register files. Of one file: every fault, where pairs meet with no defined type, and what else is worth knowing.
//! Of its pages: the rule and the registers that give a page its type, how many have a type, and which memory has a type that doesn't
//! fit. Of files: which are equal, and what differs. Of a file's types: how many pairs they need.
#![tactic(auto)]

mod cause;
mod caused;
mod changes;
mod clash;
mod decided;
mod decider;
mod decision;
mod difference;
mod effects;
mod faults;
mod field_fault;
mod fit;
mod groups;
mod laws;
mod mapped;
mod marked;
mod memory;
mod note;
mod pairs;
mod registers;
mod remarks;
mod rounding;
mod rule;
mod rules;
mod sizes;
mod span;
mod type_change;
mod unfit;
mod walk;

pub use cause::Cause;
pub use caused::causes;
pub use changes::{changed_pages, type_changes};
pub use clash::{Clash, clashes};
pub use decided::deciders;
pub use decider::Decider;
pub use decision::{Decision, decide};
pub use difference::Difference;
pub use effects::effective_types;
pub use faults::field_faults;
pub use field_fault::{Defect, FieldFault};
pub use fit::{least_by_chunk, rounding_of, steps};
pub use groups::{Cpus, are_equal, first_equal, groups_of, have_equal_switches};
pub use laws::{
    deciders_are_those_of_the_rule, equal_types_are_not_counted,
    field_faults_are_those_of_the_definitions, files_of_equal_registers_are_equal,
    groups_are_of_equal_files, notes_are_those_that_hold, nothing_is_found_in_accepted_files,
};
pub use mapped::{are_in_order, misfits};
pub use memory::Misfit;
pub use note::Note;
pub use pairs::pairs_at;
pub use registers::differences;
pub use remarks::{IO_APIC, LOCAL_APIC, is_note, notes};
pub use rounding::Rounding;
pub use rule::Rule;
pub use sizes::type_pages;
pub use span::Span;
pub use type_change::TypeChange;
pub use unfit::Unfit;
