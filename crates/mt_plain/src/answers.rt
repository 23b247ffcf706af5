ghost use Rattle.std.specs.Prelude.{◌≡◌, ◌<◌, true, false, Option};
ghost use Rattle.mt_plain.specs.Plain.{effective_kind, effective_number, effective_status, fault_status, fault_words, file_in, is_file, page_number, page_status, reason_number, type_number, type_status};
ghost use Rattle.mt_regs.specs.Faults.{IsFirstFault};
ghost use Rattle.mt_regs.specs.declared.fault.Fault.{Fault};

use crate::status::{DONE, FAULT, NO_ENTRY, NO_FILE, NO_PAGE, UNDEFINED};
use crate::{PlainFault, PlainRegisters, file_of};
use mt_kinds::{Pat, effective};
use mt_regs::{Fault, PageType, Reason};

fn reason_number(reason: Reason) -> u32
    ensures { result ≡ reason_number reason }
{
    match reason {
        Reason::ReservedBit => 1,
        Reason::UnsupportedType => 2,
        Reason::BrokenMask => 3,
        Reason::UndefinedOverlap => 4,
    }
}

fn put_fault(answer: Option<Fault>, out: &mut PlainFault) -> u32
    ensures status { result ≡ fault_status answer }
    ensures words { out.new ≡ fault_words answer out.old }
{
    match answer {
        None => DONE,
        Some(fault) => {
            *out = PlainFault {
                number: fault.msr,
                reason: reason_number(fault.reason),
            };
            FAULT
        }
    }
}

fn put_type(kind: PageType, out: &mut u32) -> u32
    ensures status { result ≡ type_status kind }
    ensures number { out.new ≡ type_number kind out.old }
{
    match kind {
        PageType::Kind(kind) => {
            *out = kind.byte() as u32;
            DONE
        }
        PageType::Undefined => UNDEFINED,
    }
}

/// Returns 0 if the file has no fault, 1 if its first fault was written, and 2 if the words are no register file's.
/// `fault` is written at 1 alone.
pub fn first_fault(r: &PlainRegisters, fault: &mut PlainFault) -> u32
    ensures refused { is_file r.now ≡ false → (result ≡ 2) × (fault.new ≡ fault.old) }
    ensures answered { is_file r.now ≡ true → (answer : Option Fault) × IsFirstFault (file_in r.now) answer × (result ≡ fault_status answer) × (fault.new ≡ fault_words answer fault.old) }
{
    match file_of(r) {
        None => NO_FILE,
        Some(file) => put_fault(file.first_fault(), fault),
    }
}

/// Returns 0 if the byte of the page's type by the MTRRs was written, and 2 if the words are no register file's.
/// Returns 3 if there is no such page, and 4 if it has no defined type. `kind` is written at 0 alone.
pub fn page_type(r: &PlainRegisters, page: u64, kind: &mut u32) -> u32
    ensures status { result ≡ page_status r.now page }
    ensures number { kind.new ≡ page_number r.now page kind.old }
{
    let Some(file) = file_of(r) else {
        return NO_FILE;
    };
    if page >= file.pages() {
        return NO_PAGE;
    }
    put_type(file.page_type(page), kind)
}

fn effective_kind(kind: PageType, pat: u64, index: u8) -> PageType
    requires { index < 8 }
    ensures { result ≡ effective_kind pat index kind }
{
    match kind {
        PageType::Kind(kind) => PageType::Kind(effective(kind, Pat(pat).entry(index))),
        PageType::Undefined => PageType::Undefined,
    }
}

/// Does what `page_type` does, for the type in effect if the page's mapping chooses this entry of the PAT. Also
/// returns 5 if there is no such entry: they are 0 to 7.
pub fn effective_type(r: &PlainRegisters, page: u64, index: u32, kind: &mut u32) -> u32
    ensures status { result ≡ effective_status r.now page index }
    ensures number { kind.new ≡ effective_number r.now page index kind.old }
{
    let Some(file) = file_of(r) else {
        return NO_FILE;
    };
    if page >= file.pages() {
        return NO_PAGE;
    }
    if index >= 8 {
        return NO_ENTRY;
    }
    put_type(
        effective_kind(file.page_type(page), r.pat, index as u8),
        kind,
    )
}
