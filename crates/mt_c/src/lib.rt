//! The calls of `include/mtrr.h`, as C finds them.
#![tactic(auto)]

ghost use Rattle.std.specs.Prelude.{◌≡◌, true, false, length, ℕ, List, Option};
ghost use Rattle.std.specs.Option.{option_map};
ghost use Rattle.mt_gran.specs.Sizes.{IsGranuleSize};
ghost use Rattle.mt_machine.specs.Machine.{Order, due as machine_due};
ghost use Rattle.mt_machine.specs.System.{Processor};
ghost use Rattle.mt_plain.specs.Did.{kept};
ghost use Rattle.mt_plain.specs.Due.{IsTold, due_status, due_step, event_words, whole_flush};
ghost use Rattle.mt_plain.specs.Maps.{IsMapIn, has_map, map_status, no_map_status};
ghost use Rattle.mt_plain.specs.Plain.{effective_number, effective_status, fault_status, fault_words, file_in, has_no_other_pair, is_file, page_number, page_status};
ghost use Rattle.mt_plain.specs.Rounding.{IsGranAnswer, places};
ghost use Rattle.mt_plain.specs.Tidying.{IsTidyAnswer, tidy_places};
ghost use Rattle.mt_regs.specs.Faults.{IsFirstFault};
ghost use Rattle.mt_regs.specs.RegisterFile.{IsRegisterFile};
ghost use Rattle.mt_regs.specs.declared.fault.Fault.{Fault};
ghost use Rattle.mt_tidy.specs.Tidied.{tidying};

mod layout;

use mt_plain::{
    PlainFault, PlainLoss, PlainNeed, PlainProcessor, PlainRegisters, PlainRun, PlainStep,
    PlainUpdate, a_due_step_is_the_machines, did, due, effective_type, first_fault, gran, is_file,
    page_type, tidy, type_map,
};
use mt_tidy::WorkArea;

/// Whether the words are a register file's: a width of 32 to 52 bits, at most 32 pairs by VCNT, zeros in the pairs
/// beyond, and zeros in the fixed-range registers where FIX is clear.
#[unsafe(no_mangle)]
pub extern "C" fn mtrr_is_file(registers: &PlainRegisters) -> bool
    ensures file { result ≡ is_file registers.now }
    ensures meets { result ≡ true → IsRegisterFile (file_in registers.now) }
    ensures taken { has_no_other_pair registers.now ≡ true → IsRegisterFile (file_in registers.now) → result ≡ true }
{
    is_file(registers)
}

/// Returns 0 if the file has no fault, 1 if its first fault was written, and 2 if the words are no register file's.
/// `fault` is written at 1 alone.
#[unsafe(no_mangle)]
pub extern "C" fn mtrr_first_fault(registers: &PlainRegisters, fault: &mut PlainFault) -> u32
    ensures refused { is_file registers.now ≡ false → (result ≡ 2) × (fault.new ≡ fault.old) }
    ensures answered { is_file registers.now ≡ true → (answer : Option Fault) × IsFirstFault (file_in registers.now) answer
        × (result ≡ fault_status answer) × (fault.new ≡ fault_words answer fault.old) }
{
    first_fault(registers, fault)
}

/// Returns 0 if the byte of the page's type by the MTRRs was written, and 2 if the words are no register file's.
/// Returns 3 if there is no such page, and 4 if it has no defined type. `kind` is written at 0 alone.
#[unsafe(no_mangle)]
pub extern "C" fn mtrr_page_type(registers: &PlainRegisters, page: u64, kind: &mut u32) -> u32
    ensures status { result ≡ page_status registers.now page }
    ensures number { kind.new ≡ page_number registers.now page kind.old }
{
    page_type(registers, page, kind)
}

/// Does what `mtrr_page_type` does, for the type in effect if the page's mapping chooses this entry of the PAT. Also
/// returns 5 if there is no such entry: they are 0 to 7.
#[unsafe(no_mangle)]
pub extern "C" fn mtrr_effective_type(
    registers: &PlainRegisters,
    page: u64,
    index: u32,
    kind: &mut u32,
) -> u32
    ensures status { result ≡ effective_status registers.now page index }
    ensures number { kind.new ≡ effective_number registers.now page index kind.old }
{
    effective_type(registers, page, index, kind)
}

/// Writes the type map: its runs in ascending order, and how many there are. Returns 0 if all were written, and 6 if the
/// array has room only for the first of them. Returns 2 if the words are no register file's, and 1 if a register is at
/// fault by itself. The array behind the runs is as before; at 1 and 2 so are the whole array and the count.
#[unsafe(no_mangle)]
pub extern "C" fn mtrr_type_map(
    registers: &PlainRegisters,
    runs: &mut [PlainRun],
    count: &mut usize,
) -> u32
    ensures refused { has_map registers.now ≡ false → (result ≡ no_map_status registers.now) × (runs.new ≡ runs.old) × (count.new ≡ count.old) }
    ensures map { has_map registers.now ≡ true → IsMapIn (file_in registers.now) runs.old runs.new count.new × (result ≡ map_status (length runs.old) count.new) }
{
    type_map(registers, runs, count)
}

/// Writes what a processor does next in an update. Returns 0 if the step was written, and 7 if nothing is due, since the
/// processor waits at a barrier or takes no part. Returns 8 if there is no such phase or word of the coordinator's, or a
/// flag is above 1. `step` is written at 0 alone.
#[unsafe(no_mangle)]
pub extern "C" fn mtrr_due(
    update: &PlainUpdate,
    processor: &PlainProcessor,
    step: &mut PlainStep,
) -> u32
    ensures status { result ≡ due_status update.now processor.now }
    ensures step { step.new ≡ due_step update.now processor.now step.old }
    ensures machine { (o : Order) (ps : List Processor) (p : Processor) → IsTold update.now processor.now o ps p
        → step.new ≡ event_words (option_map whole_flush (machine_due o ps p p.phase)) p.phase step.old }
{
    a_due_step_is_the_machines(); // a fact for the proof
    due(update, processor, step)
}

/// Books a step that was carried out: what the barriers count, where the processor stands, and whether it is through.
/// Returns 0 if the step is the one that is due and the counts have room: update and processor are then changed. Else
/// both are as before: returns 12, or 8 if there is no such phase or word of the coordinator's, or a flag is above 1.
#[unsafe(no_mangle)]
pub extern "C" fn mtrr_did(
    update: &mut PlainUpdate,
    processor: &mut PlainProcessor,
    step: &PlainStep,
) -> u32
    ensures update { update.new ≡ (kept update.old processor.old step.now).update }
    ensures processor { processor.new ≡ (kept update.old processor.old step.now).processor }
    ensures status { result ≡ (kept update.old processor.old step.now).status }
{
    did(update, processor, step)
}

/// Writes the file that gives each page the same type with the fewest valid pairs. Of two pairs that share a page the
/// larger has at most `chunk` bytes. `spare` pairs stay unused. Returns 0 if the file was written to `tidied`, and to
/// `need` the number of its pairs and how many may be used. Returns 10 if more pairs are needed than may be used: then
/// `need` alone is written. Returns 2 if the words are no register file's, 1 if the file has a fault, and 9 if its ranges
/// are off: then nothing is written. The contents of `work` may be any, and any afterwards.
#[unsafe(no_mangle)]
pub extern "C" fn mtrr_tidy(
    registers: &PlainRegisters,
    spare: u8,
    chunk: u64,
    work: &mut WorkArea,
    tidied: &mut PlainRegisters,
    need: &mut PlainNeed,
) -> u32
    ensures no_file { is_file registers.now ≡ false → (result ≡ 2) × (tidied.new ≡ tidied.old) × (need.new ≡ need.old) }
    ensures file { is_file registers.now ≡ true
        → IsTidyAnswer (tidying (file_in registers.now) chunk spare) result (tidy_places tidied.old need.old) (tidy_places tidied.new need.new) }
{
    tidy(registers, spare, chunk, work, tidied, need)
}

/// Does what `mtrr_tidy` does, for the types rounded to granules of `size` bytes, and writes what is lost. `loss` gets how many
/// pages had WB and get UC, and how many parts there are. `parts` gets the longest runs of pages of one type other than
/// UC that get UC. Returns 0 if all was written, and 6 if `parts` has room only for the first of them. Else returns 2 if
/// the words are no register file's, 11 if the size isn't a power of two from 4 KB to 1 TB, and 1, 9 or 10 as `mtrr_tidy`
/// does. What isn't written is as before. The contents of `work` may be any, and any afterwards.
#[unsafe(no_mangle)]
pub extern "C" fn mtrr_gran(
    registers: &PlainRegisters,
    size: u64,
    spare: u8,
    chunk: u64,
    work: &mut WorkArea,
    rounded: &mut PlainRegisters,
    need: &mut PlainNeed,
    loss: &mut PlainLoss,
    parts: &mut [PlainRun],
) -> u32
    ensures no_file { is_file registers.now ≡ false → (result ≡ 2) × (places rounded.new need.new loss.new parts.new ≡ places rounded.old need.old loss.old parts.old) }
    ensures no_granule { is_file registers.now ≡ true → ((log : ℕ) → ¬ IsGranuleSize size log)
        → (result ≡ 11) × (places rounded.new need.new loss.new parts.new ≡ places rounded.old need.old loss.old parts.old) }
    ensures file { is_file registers.now ≡ true → IsGranAnswer (tidying (file_in registers.now) chunk spare) size result
        (places rounded.old need.old loss.old parts.old) (places rounded.new need.new loss.new parts.new) }
{
    gran(
        registers, size, spare, chunk, work, rounded, need, loss, parts,
    )
}
