use crate::NoReport;
use crate::object::Json;
use crate::registers::{add_pairs, add_value, write_pairs, write_value};
use crate::report::{Answer, Form, Named, Report, answered};
use crate::text::Text;
use mt_explain::{Cpus, Decision, Rule, decide, effective_types};
use mt_kinds::{PAGE_BYTES, Pat};
use mt_regs::{DEFAULT_TYPE, PageType, RegFile, Register};
use std::alloc::{AllocError, Global};

/// How many fixed-range registers there are.
pub const FIXED: u8 = 11;

/// The name of a page's type.
pub fn kind_name(kind: PageType) -> &'static str {
    match kind {
        PageType::Kind(kind) => kind.name(),
        PageType::Undefined => "undefined",
    }
}

fn rule_name(rule: Rule) -> &'static str {
    match rule {
        Rule::Off => "off",
        Rule::FixedByte { .. } => "fixed",
        Rule::NoPair => "default",
        Rule::OneType => "one-type",
        Rule::UncachedWins => "uc-wins",
        Rule::ThroughOverBack => "wt-over-wb",
        Rule::NotDefined => "undefined",
    }
}

fn because(rule: Rule) -> &'static str {
    match rule {
        Rule::Off => "E of IA32_MTRR_DEF_TYPE is clear: the MTRRs are off, and each page is UC",
        Rule::FixedByte { .. } => "a fixed-range register has the page",
        Rule::NoPair => "no valid pair has the page: it has the default type",
        Rule::OneType => "the pairs that have the page are of one type",
        Rule::UncachedWins => "pairs of several types have the page, and UC wins",
        Rule::ThroughOverBack => "pairs of WT and of WB have the page, and WT wins",
        Rule::NotDefined => "pairs have the page for whose types the manual defines no result",
    }
}

// The register other than pairs that decides, if there is one, and its value.
fn decider(f: &RegFile, rule: Rule) -> Option<(u32, u64)> {
    let msr = match rule {
        Rule::Off => DEFAULT_TYPE,
        Rule::FixedByte { place, .. } if place < FIXED => Register::FixedRange(place).number(),
        Rule::NoPair => DEFAULT_TYPE,
        _ => return None,
    };
    Some((msr, f.get(msr)?))
}

// The lowest of the eight bits of a fixed-range register that decide.
fn low_bit(rule: Rule) -> Option<u8> {
    match rule {
        Rule::FixedByte { byte, .. } => Some(8 * (byte % 8)),
        _ => None,
    }
}

// The numbers of the pairs that decide: those that have the page, unless another rule comes first.
fn deciding_pairs(decision: &Decision) -> &[u8] {
    match decision.rule {
        Rule::Off | Rule::FixedByte { .. } => &[],
        _ => decision.pairs.as_slice(),
    }
}

fn add_effective(text: &mut Text, f: &RegFile, kind: PageType) {
    let PageType::Kind(kind) = kind else {
        return;
    };
    let types = effective_types(kind, f.pat);
    for index in 0..8 {
        let entry = Pat(f.pat).entry(index).name();
        text.add_decimal("    PAT entry ", index as u64);
        text.add_all(&[", ", entry, ": ", types[index as usize].name(), "\n"]);
    }
}

// Adds the line about the register that decides, with its bits if not all of them do.
fn add_decider(text: &mut Text, f: &RegFile, rule: Rule) {
    if let Some((msr, value)) = decider(f, rule) {
        text.add("    ");
        add_value(text, msr, value);
        if let Some(low) = low_bit(rule) {
            text.add(", bits ");
            text.add_bits(low, 8);
        }
        text.add("\n");
    }
}

fn add_cpus(text: &mut Text, cpus: &[u32], f: &RegFile, page: u64) {
    let decision = decide(f, page);
    text.add("  ");
    text.add_cpus(cpus);
    text.add_all(&[": ", kind_name(decision.kind), ", since "]);
    text.add_all(&[because(decision.rule), "\n"]);
    if f.register_fault().is_some() {
        text.add(
            "    a register has a fault by itself, and what it does to pages isn't defined: see mtrr-explain faults\n",
        );
    }
    add_decider(text, f, decision.rule);
    add_pairs(text, f, deciding_pairs(&decision));
    add_effective(text, f, decision.kind);
}

fn write_effective(json: &mut Json, f: &RegFile, kind: PageType) {
    json.begin_list("effective");
    if let PageType::Kind(kind) = kind {
        let types = effective_types(kind, f.pat);
        for index in 0..8 {
            json.begin_object();
            json.string("pat", Pat(f.pat).entry(index).name());
            json.string("effective", types[index as usize].name());
            json.end_object();
        }
    }
    json.end_list();
}

fn write_decider(json: &mut Json, f: &RegFile, rule: Rule) {
    json.begin_list("registers");
    if let Some((msr, value)) = decider(f, rule) {
        write_value(json, msr, value);
    }
    json.end_list();
    match low_bit(rule) {
        Some(low) => json.bits(low, 8),
        None => json.null("bits"),
    }
}

fn write_cpu(json: &mut Json, cpu: u64, f: &RegFile, page: u64) {
    let decision = decide(f, page);
    json.begin_object();
    json.number("cpu", cpu);
    json.string("type", kind_name(decision.kind));
    json.string("rule", rule_name(decision.rule));
    json.string("because", because(decision.rule));
    json.flag("at_fault", f.register_fault().is_some());
    write_decider(json, f, decision.rule);
    write_pairs(json, f, deciding_pairs(&decision));
    write_effective(json, f, decision.kind);
    json.end_object();
}

// What gives the page of an address its type.
#[derive(Drop)]
struct Page<'a> {
    dump: Named<'a>,
    groups: Vec<Cpus>,
    address: u64,
    // whether a processor gives the page no defined type
    undefined: bool,
    // whether a register of a processor has a fault by itself: what it does to pages isn't defined
    at_fault: bool,
}

impl Page<'_> {
    fn new<'a>(alloc: Global, dump: Named<'a>, address: u64) -> Result<Page<'a>, AllocError> {
        let mut undefined = false;
        let mut at_fault = false;
        for f in dump.files() {
            undefined = undefined || f.page_type(address / PAGE_BYTES).is_undefined();
            at_fault = at_fault || f.register_fault().is_some();
        }
        Ok(Page {
            groups: dump.groups(alloc)?,
            dump,
            address,
            undefined,
            at_fault,
        })
    }
}

impl Report for Page<'_> {
    fn is_found(&self) -> bool {
        self.undefined || self.at_fault
    }

    fn add(&self, text: &mut Text) {
        text.add_all(&[self.dump.file, ": page of "]);
        text.add_hex(self.address, 1);
        text.add("\n");
        for cpus in &self.groups {
            let f = self.dump.file_of(cpus.as_slice());
            add_cpus(text, cpus.as_slice(), f, self.address / PAGE_BYTES);
        }
    }

    fn write(&self, json: &mut Json) {
        json.string("file", self.dump.file);
        json.hex("address", self.address, 1);
        self.dump.write_width(json);
        json.flag("found", self.is_found());
        json.flag("undefined", self.undefined);
        json.begin_list("cpus");
        for (k, f) in self.dump.files().iter().enumerate() {
            write_cpu(json, k as u64, f, self.address / PAGE_BYTES);
        }
        json.end_list();
    }
}

/// What gives the page of an address its type. Something is found if it has no defined type, or if a register has a fault by itself.
/// Fails with `NoPage` beyond the width.
pub fn page_answer(
    alloc: Global,
    dump: Named<'_>,
    address: u64,
    form: Form,
) -> Result<Answer, NoReport> {
    let f = dump.given.dump.first_file();
    if address / PAGE_BYTES >= f.pages() {
        return Err(NoReport::NoPage(f.maxphy));
    }
    answered(alloc, &Page::new(alloc, dump, address)?, form)
}
