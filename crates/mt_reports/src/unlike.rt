use crate::object::Json;
use crate::text::{Digits, Text};
use mt_explain::{are_equal, changed_pages, differences, have_equal_switches};
use mt_regs::RegFile;
use std::alloc::{AllocError, Global};

/// What differs between a processor and processor 0.
#[derive(Drop)]
pub struct Unlike {
    // which of E and FE differs
    switched: Option<&'static str>,
    registers: Vec<u32>,
    // How many pages have another type. `None` if a register is at fault by itself.
    pages: Option<u64>,
}

fn switched(first: &RegFile, f: &RegFile) -> Option<&'static str> {
    if have_equal_switches(first, f) {
        None
    } else if first.is_enabled() != f.is_enabled() {
        Some(if f.is_enabled() {
            "MTRRs on; cpu 0 has them off"
        } else {
            "MTRRs off; cpu 0 has them on"
        })
    } else if f.is_fixed_enabled() {
        Some("fixed ranges on; cpu 0 has them off")
    } else {
        Some("fixed ranges off; cpu 0 has them on")
    }
}

fn pages_of(first: &RegFile, f: &RegFile) -> Option<u64> {
    let (None, None) = (first.register_fault(), f.register_fault()) else {
        return None;
    };
    Some(changed_pages(first, f))
}

/// What differs between processor 0's file and another one, if they aren't equal.
pub fn unlike_of(
    alloc: Global,
    first: &RegFile,
    f: &RegFile,
) -> Result<Option<Unlike>, AllocError> {
    if are_equal(first, f) {
        return Ok(None);
    }
    let mut registers = Vec::new(alloc);
    for difference in differences(alloc, first, f)?.as_slice() {
        registers.push(difference.msr)?;
    }
    Ok(Some(Unlike {
        switched: switched(first, f),
        registers,
        pages: pages_of(first, f),
    }))
}

impl Unlike {
    /// Adds the rest of a line.
    pub fn add(&self, text: &mut Text) {
        if let Some(switched) = self.switched {
            text.add_all(&[switched, "; "]);
        }
        text.add_numbers(self.registers.as_slice(), Digits::Hex);
        text.add(if self.registers.len() == 1 {
            " differs, "
        } else {
            " differ, "
        });
        match self.pages {
            Some(0) => text.add("no page has another type"),
            Some(pages) => {
                text.add_pages(pages);
                text.add(" have another type");
            }
            None => text.add("types aren't compared, since registers are at fault by themselves"),
        }
    }

    /// Writes the member of what differs.
    pub fn write(&self, json: &mut Json) {
        json.key("differs");
        json.begin_object();
        json.numbers(self.registers.as_slice());
        json.optional_string("switched", self.switched);
        json.pages(self.pages);
        json.end_object();
    }
}
