ghost use Rattle.std.specs.Prelude.{◌≡◌, ◌<◌, IfNone, IfSome};
ghost use Rattle.mt_mend.specs.Wishes.{AreMetBelow, IsUnmet};

use crate::Wish;
use crate::wished::wished_type;
use mt_kinds::{MemType, byte_at};
use mt_ranges::fixed_place;
use mt_regs::{PageType, RegFile, Register};

// The pages of fixed ranges are below this one.
const PAST_FIXED: u64 = 0x100;

/// The first page of a fixed range to which a file doesn't give the type that is wished of another one.
pub fn first_unmet(f: &RegFile, wishes: &[Wish], file: &RegFile) -> Option<u64>
    ensures none { IfNone result (AreMetBelow f.now wishes.now file.now) }
    ensures some { IfSome result (IsUnmet f.now wishes.now file.now) }
{
    if !f.is_fixed_enabled() {
        return None;
    }
    for page in 0..PAST_FIXED {
        if !file.page_type(page).is(wished_type(f, wishes, page)) {
            return Some(page);
        }
    }
    None
}

// A value with another byte.
fn with_byte(value: u64, index: u8, byte: u8) -> u64
    requires { index < 8 }
{
    value ^ (((byte_at(value, index) ^ byte) as u64) << (8 * index))
}

// Gives the fixed range of a page a type.
fn put_fixed(file: &mut RegFile, page: u64, kind: MemType)
    ensures { file.new ≡ record file.old { fixed = file.new.fixed } }
{
    if !file.has_fixed() {
        return;
    }
    if let Some((place, byte)) = fixed_place(page) {
        let register = Register::FixedRange(place);
        let value = file.value_of(register);
        file.put(register, with_byte(value, byte, kind.byte()));
    }
}

/// The file in which fixed-range registers give the pages below 1 MB the types that are wished, if they are on.
pub fn with_fixed(f: &RegFile, wishes: &[Wish]) -> RegFile
    ensures { result ≡ record f.now { fixed = result.fixed } }
{
    let mut file = f.same();
    if !f.is_fixed_enabled() {
        return file;
    }
    for page in 0..PAST_FIXED {
        if let PageType::Kind(kind) = wished_type(f, wishes, page) {
            put_fixed(&mut file, page, kind);
        }
    }
    file
}
