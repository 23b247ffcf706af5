use crate::object::Json;
use crate::text::Text;
use mt_ranges::block_of;
use mt_regs::{CAPABILITIES, DEFAULT_TYPE, FIRST_PAIR, PAT, RegFile, pair_type};

fn fixed_name(msr: u32) -> Option<&'static str> {
    match msr {
        CAPABILITIES => Some("IA32_MTRRCAP"),
        0x250 => Some("IA32_MTRR_FIX64K_00000"),
        0x258 => Some("IA32_MTRR_FIX16K_80000"),
        0x259 => Some("IA32_MTRR_FIX16K_A0000"),
        0x268 => Some("IA32_MTRR_FIX4K_C0000"),
        0x269 => Some("IA32_MTRR_FIX4K_C8000"),
        0x26a => Some("IA32_MTRR_FIX4K_D0000"),
        0x26b => Some("IA32_MTRR_FIX4K_D8000"),
        0x26c => Some("IA32_MTRR_FIX4K_E0000"),
        0x26d => Some("IA32_MTRR_FIX4K_E8000"),
        0x26e => Some("IA32_MTRR_FIX4K_F0000"),
        0x26f => Some("IA32_MTRR_FIX4K_F8000"),
        PAT => Some("IA32_PAT"),
        DEFAULT_TYPE => Some("IA32_MTRR_DEF_TYPE"),
        _ => None,
    }
}

// Adds the manual's name of a register.
fn add_name(text: &mut Text, msr: u32) {
    match fixed_name(msr) {
        Some(name) => text.add(name),
        None => {
            let name = if msr % 2 == 0 {
                "IA32_MTRR_PHYSBASE"
            } else {
                "IA32_MTRR_PHYSMASK"
            };
            text.add_decimal(name, (msr % 0x100 / 2) as u64);
        }
    }
}

/// Adds a register's number and the manual's name.
pub fn add_register(text: &mut Text, msr: u32) {
    text.add_hex(msr as u64, 3);
    text.add(" ");
    add_name(text, msr);
}

/// Adds a register's number, name and value.
pub fn add_value(text: &mut Text, msr: u32, value: u64) {
    add_register(text, msr);
    text.add(" ");
    text.add_hex(value, 16);
}

/// Writes the members that name a register.
pub fn write_register(json: &mut Json, msr: u32) {
    json.hex("number", msr as u64, 3);
    add_name(&mut json.part, msr);
    json.text("name");
}

/// Writes an object of a register and its value.
pub fn write_value(json: &mut Json, msr: u32, value: u64) {
    json.begin_object();
    write_register(json, msr);
    json.hex("value", value, 16);
    json.end_object();
}

// The first page of a pair's range and the one behind its last. A pair whose mask has a gap has no range.
fn range_of(f: &RegFile, pair: (u64, u64)) -> Option<(u64, u64)> {
    f.is_register_file(); // a fact for the proof
    let block = block_of(pair.0, pair.1, f.maxphy)?;
    Some((block.first, block.end()))
}

fn add_pair(text: &mut Text, f: &RegFile, number: u8, pair: (u64, u64)) {
    let msr = FIRST_PAIR + 2 * number as u32;
    text.add_decimal("    pair ", number as u64);
    text.add_all(&[", ", pair_type(pair).name()]);
    match range_of(f, pair) {
        Some((first, end)) => {
            text.add(" ");
            text.add_range(first, end);
            text.add(": ");
        }
        None => text.add(", no range, since the mask has a gap: "),
    }
    add_value(text, msr, pair.0);
    text.add(", ");
    add_value(text, msr + 1, pair.1);
    text.add("\n");
}

/// Adds the lines about pairs, by their numbers.
pub fn add_pairs(text: &mut Text, f: &RegFile, numbers: &[u8]) {
    for number in numbers {
        if let Some(pair) = f.pairs.as_slice().get(*number as usize) {
            add_pair(text, f, *number, *pair);
        }
    }
}

fn write_pair(json: &mut Json, f: &RegFile, number: u8, pair: (u64, u64)) {
    let msr = FIRST_PAIR + 2 * number as u32;
    json.begin_object();
    json.number("pair", number as u64);
    json.string("type", pair_type(pair).name());
    match range_of(f, pair) {
        Some((first, end)) => {
            json.range(first, end);
            json.bytes("bytes", Some(end.saturating_sub(first)));
        }
        None => {
            json.null("first");
            json.null("last");
            json.null("bytes");
        }
    }
    json.key("base");
    write_value(json, msr, pair.0);
    json.key("mask");
    write_value(json, msr + 1, pair.1);
    json.end_object();
}

/// Writes the list of pairs, by their numbers.
pub fn write_pairs(json: &mut Json, f: &RegFile, numbers: &[u8]) {
    json.begin_list("pairs");
    for number in numbers {
        if let Some(pair) = f.pairs.as_slice().get(*number as usize) {
            write_pair(json, f, *number, *pair);
        }
    }
    json.end_list();
}
