ghost use Rattle.std.specs.Prelude.{◌<◌};

use crate::object::Json;
use crate::text::Text;
use mt_kinds::{
    DEF_TYPE_E, DEF_TYPE_FE, MTRRCAP_FIX, MTRRCAP_WC, MemType, PAGE_BYTES, PHYSMASK_V, PatType,
    byte_at, is_bit_set,
};
use mt_ranges::block_of;
use mt_regs::{CAPABILITIES, DEFAULT_TYPE, FIRST_PAIR, MAX_PAIRS, PAT, RegFile};

// The numbers of the pairs' registers are below.
const PAST_PAIRS: u32 = FIRST_PAIR + 2 * MAX_PAIRS as u32;

// SMRR of IA32_MTRRCAP: there are registers for a range of SMM.
const MTRRCAP_SMRR: u8 = 11;

// What a field of a register holds.
#[derive(Clone, Copy)]
enum Held {
    Flag(bool),
    Number(u64),
    // The number of a page.
    Page(u64),
    // The pages of a range. A pair whose mask has a gap has no range.
    Size(Option<u64>),
    Type(u8),
    // Eight types, that of the lowest byte first.
    Types(u64),
    // The same by the types of the PAT.
    Entries(u64),
}

// A field of a register.
#[derive(Clone, Copy)]
struct Field {
    name: &'static str,
    held: Held,
}

fn named(name: &'static str, held: Held) -> Option<Field> {
    Some(Field { name, held })
}

fn flag(name: &'static str, value: u64, bit: u8) -> Option<Field>
    requires { bit < 64 }
{
    named(name, Held::Flag(is_bit_set(value, bit)))
}

fn low_type(value: u64) -> Option<Field> {
    named("type", Held::Type(byte_at(value, 0)))
}

// The size of a valid pair's range.
fn size_in(f: &RegFile, mask: u64) -> Held {
    f.is_register_file(); // a fact for the proof
    match block_of(0, mask, f.maxphy) {
        Some(block) => Held::Size(Some(block.end())),
        None => Held::Size(None),
    }
}

fn mask_fields(f: &RegFile, value: u64) -> [Option<Field>; 4] {
    let valid = flag("valid", value, PHYSMASK_V);
    if is_bit_set(value, PHYSMASK_V) {
        [valid, named("size", size_in(f, value)), None, None]
    } else {
        [valid, None, None, None]
    }
}

// The fields of a register's value, of which there are at most four.
fn fields_of(f: &RegFile, msr: u32, value: u64) -> [Option<Field>; 4] {
    match msr {
        CAPABILITIES => [
            named("VCNT", Held::Number(byte_at(value, 0) as u64)),
            flag("FIX", value, MTRRCAP_FIX),
            flag("WC", value, MTRRCAP_WC),
            flag("SMRR", value, MTRRCAP_SMRR),
        ],
        PAT => [named("entries", Held::Entries(value)), None, None, None],
        DEFAULT_TYPE => [
            low_type(value),
            flag("E", value, DEF_TYPE_E),
            flag("FE", value, DEF_TYPE_FE),
            None,
        ],
        _ if msr >= PAST_PAIRS => [named("types", Held::Types(value)), None, None, None],
        _ if msr % 2 == 0 => [
            named("base", Held::Page(value / PAGE_BYTES)),
            low_type(value),
            None,
            None,
        ],
        _ => mask_fields(f, value),
    }
}

fn type_name(byte: u8) -> &'static str {
    match MemType::of_byte(byte) {
        Some(kind) => kind.name(),
        None => "reserved",
    }
}

fn entry_name(byte: u8) -> &'static str {
    match PatType::of_byte(byte) {
        Some(kind) => kind.name(),
        None => "reserved",
    }
}

// Adds the eight names of a value's bytes, the lowest first.
fn add_names(text: &mut Text, value: u64, is_pat: bool) {
    for i in 0..8 {
        let byte = byte_at(value, i);
        if i > 0 {
            text.add(" ");
        }
        text.add(if is_pat {
            entry_name(byte)
        } else {
            type_name(byte)
        });
    }
}

fn add_held(text: &mut Text, held: Held) {
    match held {
        Held::Flag(is_set) => text.add(if is_set { "1" } else { "0" }),
        Held::Number(n) => text.add_decimal("", n),
        Held::Page(page) => text.add_first(page),
        Held::Size(Some(pages)) => text.add_size(pages),
        Held::Size(None) => text.add("none, since the mask has a gap"),
        Held::Type(byte) => text.add(type_name(byte)),
        Held::Types(value) => add_names(text, value, false),
        Held::Entries(value) => add_names(text, value, true),
    }
}

/// Adds a value and its fields, as the rest of a line.
pub fn add_fields(text: &mut Text, f: &RegFile, msr: u32, value: u64) {
    text.add_hex(value, 16);
    for found in fields_of(f, msr, value).as_slice() {
        if let Some(field) = found {
            text.add_all(&[", ", field.name, " "]);
            add_held(text, field.held);
        }
    }
    text.add("\n");
}

fn write_field(json: &mut Json, field: &Field) {
    json.begin_object();
    json.string("name", field.name);
    add_held(&mut json.part, field.held);
    json.text("value");
    if let Held::Size(pages) = field.held {
        json.bytes("bytes", pages);
    }
    json.end_object();
}

/// Writes an object of a value and its fields.
pub fn write_fields(json: &mut Json, f: &RegFile, msr: u32, value: u64) {
    json.begin_object();
    json.hex("value", value, 16);
    json.begin_list("fields");
    for found in fields_of(f, msr, value).as_slice() {
        if let Some(field) = found {
            write_field(json, field);
        }
    }
    json.end_list();
    json.end_object();
}
