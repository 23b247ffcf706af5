use crate::object::Json;
use crate::page::kind_name;
use crate::report::Named;
use crate::text::{Digits, Text};
use mt_dump::GivenDump;
use mt_explain::{IO_APIC, LOCAL_APIC, Note, notes};
use mt_kinds::PAGE_BYTES;
use mt_regs::{DEFAULT_TYPE, FIRST_PAIR, PAT, RegFile};
use std::alloc::{AllocError, Global};

/// Something worth knowing of equal processors, which is no fault.
#[derive(Drop)]
enum What {
    Of(Note),
    /// No line gives the PAT, so it is as at power-up.
    PatNotGiven,
    /// No line gives these registers, so they are 0.
    NotGiven,
}

/// A note, and the registers that it is about.
#[derive(Drop)]
pub struct Remark {
    what: What,
    registers: Vec<u32>,
}

// Whether the section of one of the processors doesn't give a register.
fn is_missing(given: &GivenDump, cpus: &[u32], msr: u32) -> bool {
    for cpu in cpus {
        if let Some(section) = given.sections.as_slice().get(*cpu as usize) {
            if !section.has(msr) {
                return true;
            }
        }
    }
    false
}

// Adds the registers but the PAT that aren't given.
fn add_missing(
    registers: &mut Vec<u32>,
    given: &GivenDump,
    cpus: &[u32],
    f: &RegFile,
) -> Result<(), AllocError> {
    for i in 0..f.count() {
        if let Some(msr) = f.register(i) {
            if msr != PAT && is_missing(given, cpus, msr) {
                registers.push(msr)?;
            }
        }
    }
    Ok(())
}

fn registers_of(alloc: Global, note: Note) -> Result<Vec<u32>, AllocError> {
    match note {
        Note::Off | Note::FixedOff => Vec::from_slice(alloc, &[DEFAULT_TYPE]),
        Note::IdlePair(n) => {
            let base = FIRST_PAIR + 2 * n as u32;
            Vec::from_slice(alloc, &[base, base + 1])
        }
        Note::LocalApic | Note::IoApic | Note::OtherWidth(_) => Ok(Vec::new(alloc)),
    }
}

fn add_remark(list: &mut Vec<Remark>, what: What, registers: Vec<u32>) -> Result<(), AllocError> {
    list.push(Remark { what, registers })?;
    Ok(())
}

fn add_remarks(
    alloc: Global,
    list: &mut Vec<Remark>,
    dump: &Named<'_>,
    cpus: &[u32],
    f: &RegFile,
) -> Result<(), AllocError> {
    for note in notes(alloc, f)?.as_slice() {
        add_remark(list, What::Of(*note), registers_of(alloc, *note)?)?;
    }
    let mut registers = Vec::new(alloc);
    add_missing(&mut registers, dump.given, cpus, f)?;
    if !registers.is_empty() {
        add_remark(list, What::NotGiven, registers)?;
    }
    if is_missing(dump.given, cpus, PAT) {
        add_remark(list, What::PatNotGiven, Vec::from_slice(alloc, &[PAT])?)?;
    }
    Ok(())
}

/// The notes of equal processors.
pub fn remarks(
    alloc: Global,
    dump: &Named<'_>,
    cpus: &[u32],
    f: &RegFile,
) -> Result<Vec<Remark>, AllocError> {
    let mut list = Vec::new(alloc);
    add_remarks(alloc, &mut list, dump, cpus, f)?;
    Ok(list)
}

fn add_apic(text: &mut Text, f: &RegFile, page: u64, name: &'static str) {
    text.add_hex(page.saturating_mul(PAGE_BYTES), 1);
    text.add_all(&[
        " is ",
        kind_name(f.page_type(page)),
        ", and ",
        name,
        " there needs UC",
    ]);
}

fn add_width(text: &mut Text, dump: &Named<'_>, width: u8) {
    text.add_decimal("", dump.width() as u64);
    text.add(if dump.given.has_width {
        " address bits given"
    } else {
        " address bits assumed"
    });
    text.add_decimal("; the masks look like ", width as u64);
}

impl Remark {
    /// The word for scripts.
    pub fn word(&self) -> &'static str {
        match self.what {
            What::Of(Note::Off) => "off",
            What::Of(Note::FixedOff) => "fixed-off",
            What::Of(Note::LocalApic) => "local-apic",
            What::Of(Note::IoApic) => "io-apic",
            What::Of(Note::IdlePair(_)) => "idle-pair",
            What::Of(Note::OtherWidth(_)) => "other-width",
            What::NotGiven => "not-given",
            What::PatNotGiven => "pat-not-given",
        }
    }

    fn add_text(&self, text: &mut Text, dump: &Named<'_>, f: &RegFile) {
        match self.what {
            What::Of(Note::Off) => text.add("E is clear, so the MTRRs are off and each page is UC"),
            What::Of(Note::FixedOff) => text.add(
                "FE is clear, so the types in the fixed-range registers don't count",
            ),
            What::Of(Note::LocalApic) => add_apic(text, f, LOCAL_APIC, "a local APIC"),
            What::Of(Note::IoApic) => add_apic(text, f, IO_APIC, "an I/O APIC"),
            What::Of(Note::IdlePair(n)) => {
                text.add_decimal("pair ", n as u64);
                text.add(" is valid and changes no page's type");
            }
            What::Of(Note::OtherWidth(width)) => add_width(text, dump, width),
            What::NotGiven => text.add("not given, so read as 0"),
            What::PatNotGiven => text.add("not given, so read as at power-up"),
        }
    }

    /// Adds the note's line.
    pub fn add(&self, text: &mut Text, dump: &Named<'_>, f: &RegFile) {
        text.add("  note: ");
        if !self.registers.is_empty() {
            text.add_numbers(self.registers.as_slice(), Digits::Hex);
            text.add(": ");
        }
        self.add_text(text, dump, f);
        text.add("\n");
    }

    /// Writes the note's object.
    pub fn write(&self, json: &mut Json, dump: &Named<'_>, f: &RegFile) {
        json.begin_object();
        json.string("note", self.word());
        json.numbers(self.registers.as_slice());
        self.add_text(&mut json.part, dump, f);
        json.text("text");
        json.end_object();
    }
}
