ghost use Rattle.std.specs.Prelude.{◌≡◌, None};
ghost use Rattle.mt_regs.specs.Faults.{register_fault};

use crate::NoReport;
use crate::fit::valid_pairs;
use crate::notes::{Remark, remarks};
use crate::object::Json;
use crate::page::kind_name;
use crate::registers::{add_pairs, add_value, write_pairs, write_value};
use crate::report::{Answer, Form, MOST_CPUS, Named, Report, answered};
use crate::text::Text;
use crate::unlike::{Unlike, unlike_of};
use mt_explain::{Clash, Cpus, Defect, FieldFault, clashes, field_faults, type_pages};
use mt_kinds::{DEF_TYPE_FE, MemType};
use mt_regs::{PAT, PageType, RegFile};
use std::alloc::{AllocError, Global};

// The types that pages may have.
const KINDS: [PageType; 6] = [
    PageType::Kind(MemType::UC),
    PageType::Kind(MemType::WC),
    PageType::Kind(MemType::WT),
    PageType::Kind(MemType::WP),
    PageType::Kind(MemType::WB),
    PageType::Undefined,
];

/// How many pages have a type.
#[derive(Clone, Copy)]
pub struct Share {
    kind: PageType,
    pages: u64,
}

// What the pages of a file show, none of whose registers is at fault by itself.
#[derive(Drop)]
struct Pages {
    undefined: Vec<Clash>,
    shares: Vec<Share>,
}

// What there is to say of equal processors.
#[derive(Drop)]
struct GroupFaults<'a> {
    cpus: Cpus,
    file: &'a RegFile,
    faults: Vec<FieldFault>,
    // `None` if there are faults: what a register at fault does to pages isn't defined.
    pages: Option<Pages>,
    // what differs from processor 0, if something does
    unlike: Option<Unlike>,
    notes: Vec<Remark>,
}

impl GroupFaults<'_> {
    fn undefined(&self) -> &[Clash] {
        match &self.pages {
            Some(pages) => pages.undefined.as_slice(),
            None => &[],
        }
    }

    fn is_at_fault(&self) -> bool {
        !self.faults.is_empty() || !self.undefined().is_empty()
    }
}

// What is wrong with a dump.
#[derive(Drop)]
struct Faults<'a> {
    dump: Named<'a>,
    groups: Vec<GroupFaults<'a>>,
    at_fault: bool,
}

/// How many pages have each type that some page has.
pub fn shares_of(alloc: Global, f: &RegFile) -> Result<Vec<Share>, AllocError>
    requires { register_fault f.now ≡ None }
{
    let mut shares = Vec::new(alloc);
    for kind in KINDS {
        let pages = type_pages(f, kind);
        if pages > 0 {
            shares.push(Share { kind, pages })?;
        }
    }
    Ok(shares)
}

fn pages_of(alloc: Global, f: &RegFile) -> Result<Pages, AllocError>
    requires { register_fault f.now ≡ None }
{
    Ok(Pages {
        undefined: clashes(alloc, f)?,
        shares: shares_of(alloc, f)?,
    })
}

fn group_faults<'a>(
    alloc: Global,
    dump: &Named<'a>,
    cpus: Cpus,
) -> Result<GroupFaults<'a>, AllocError> {
    let file = dump.file_of(cpus.as_slice());
    let faults = field_faults(alloc, file)?;
    let pages = if faults.is_empty() {
        Some(pages_of(alloc, file)?)
    } else {
        None
    };
    Ok(GroupFaults {
        unlike: unlike_of(alloc, dump.given.dump.first_file(), file)?,
        notes: remarks(alloc, dump, cpus.as_slice(), file)?,
        cpus,
        file,
        faults,
        pages,
    })
}

fn faults_of<'a>(alloc: Global, dump: Named<'a>) -> Result<Faults<'a>, AllocError> {
    let mut groups = Vec::new(alloc);
    let mut at_fault = false;
    for cpus in dump.groups(alloc)? {
        let group = group_faults(alloc, &dump, cpus)?;
        at_fault = at_fault || group.is_at_fault();
        groups.push(group)?;
    }
    Ok(Faults {
        dump,
        groups,
        at_fault,
    })
}

/// Every fault of a dump, its unlike processors and notes. Something is found if there is a fault, a page with no defined type, or
/// a processor unlike another.
pub fn faults_answer(alloc: Global, dump: Named<'_>, form: Form) -> Result<Answer, NoReport> {
    answered(alloc, &faults_of(alloc, dump)?, form)
}

fn problem(defect: Defect) -> &'static str {
    match defect {
        Defect::ReservedBits => "reserved bits are set",
        Defect::NoType => "no type",
        Defect::Gap => "the mask has a gap",
    }
}

fn lawful_type(f: &RegFile, msr: u32) -> &'static str {
    if msr == PAT {
        "00 UC, 01 WC, 04 WT, 05 WP, 06 WB or 07 UC-"
    } else if f.has_write_combining() {
        "00 UC, 01 WC, 04 WT, 05 WP or 06 WB"
    } else {
        "00 UC, 04 WT, 05 WP or 06 WB; 0fe says that the processor has no WC"
    }
}

fn add_lawful(text: &mut Text, f: &RegFile, fault: &FieldFault) {
    match fault.defect {
        Defect::ReservedBits if fault.low == f.maxphy && fault.msr != PAT => {
            text.add_decimal("0 where addresses have ", f.maxphy as u64);
            text.add(" bits");
        }
        Defect::ReservedBits if fault.low == DEF_TYPE_FE => {
            text.add("0, since 0fe says that there are no fixed ranges")
        }
        Defect::ReservedBits => text.add("0"),
        Defect::NoType => text.add(lawful_type(f, fault.msr)),
        Defect::Gap => {
            text.add("ones from the highest of these bits down to some bit, and zeros below")
        }
    }
}

/// Adds the lines about a field at fault.
pub fn add_fault(text: &mut Text, f: &RegFile, fault: &FieldFault) {
    text.add("  ");
    add_value(text, fault.msr, fault.value);
    text.add(": bits ");
    text.add_bits(fault.low, fault.count);
    text.add(" are ");
    text.add_hex(fault.found, 1);
    text.add_all(&[": ", problem(fault.defect), "\n    lawful: "]);
    add_lawful(text, f, fault);
    text.add("\n");
}

/// Adds the lines about pages with no defined type.
pub fn add_undefined(text: &mut Text, f: &RegFile, run: &Clash) {
    text.add("  ");
    text.add_run(run.first, run.count);
    text.add(": no type is defined where these pairs meet\n");
    add_pairs(text, f, run.mark.as_slice());
}

fn add_faults(text: &mut Text, group: &GroupFaults<'_>) {
    for fault in &group.faults {
        add_fault(text, group.file, fault);
    }
    for run in group.undefined() {
        add_undefined(text, group.file, run);
    }
    if !group.faults.is_empty() {
        text.add(
            "  pages with no defined type aren't looked for: what a register at fault does to pages isn't defined\n",
        );
    }
}

/// Adds types and sizes, with a text before the first one.
pub fn add_shares(text: &mut Text, before: &'static str, shares: &[Share]) {
    for (i, share) in shares.iter().enumerate() {
        let separator = if i == 0 { before } else { ", " };
        text.add_all(&[separator, kind_name(share.kind), " "]);
        text.add_size(share.pages);
    }
}

// Adds the line about the pairs in use and the sizes by type.
fn add_summary(text: &mut Text, group: &GroupFaults<'_>) {
    let f = group.file;
    text.add_decimal("  pairs: ", valid_pairs(f));
    text.add_decimal(" of ", f.pairs.len() as u64);
    if let Some(pages) = &group.pages {
        add_shares(text, ", ", pages.shares.as_slice());
    }
    for (i, note) in group.notes.iter().enumerate() {
        text.add(if i == 0 { ", notes: " } else { ", " });
        text.add(note.word());
    }
    text.add("\n");
}

/// Writes an object of a field at fault.
pub fn write_fault(json: &mut Json, f: &RegFile, fault: &FieldFault) {
    json.begin_object();
    json.key("register");
    write_value(json, fault.msr, fault.value);
    json.bits(fault.low, fault.count);
    json.hex("found", fault.found, 1);
    json.string("problem", problem(fault.defect));
    add_lawful(&mut json.part, f, fault);
    json.text("lawful");
    json.end_object();
}

/// Writes an object of pages with no defined type.
pub fn write_undefined(json: &mut Json, f: &RegFile, run: &Clash) {
    json.begin_object();
    json.run(run.first, run.count);
    write_pairs(json, f, run.mark.as_slice());
    json.end_object();
}

fn write_cpu(json: &mut Json, cpu: u32, group: &GroupFaults<'_>) {
    json.begin_object();
    json.number("cpu", cpu as u64);
    json.begin_list("faults");
    for fault in &group.faults {
        write_fault(json, group.file, fault);
    }
    json.end_list();
    json.flag("looked", group.faults.is_empty());
    json.begin_list("undefined");
    for run in group.undefined() {
        write_undefined(json, group.file, run);
    }
    json.end_list();
    json.end_object();
}

/// Writes the list of types and sizes.
pub fn write_shares(json: &mut Json, name: &str, shares: &[Share]) {
    json.begin_list(name);
    for share in shares {
        json.begin_object();
        json.string("type", kind_name(share.kind));
        json.pages(Some(share.pages));
        json.end_object();
    }
    json.end_list();
}

fn write_group(json: &mut Json, dump: &Named<'_>, group: &GroupFaults<'_>) {
    let f = group.file;
    json.begin_object();
    json.cpus(group.cpus.as_slice());
    json.number("pairs", f.pairs.len() as u64);
    json.number("valid", valid_pairs(f));
    match &group.pages {
        Some(pages) => write_shares(json, "types", pages.shares.as_slice()),
        None => json.null("types"),
    }
    match &group.unlike {
        Some(unlike) => unlike.write(json),
        None => json.null("differs"),
    }
    json.begin_list("notes");
    for note in &group.notes {
        note.write(json, dump, group.file);
    }
    json.end_list();
    json.end_object();
}

impl Faults<'_> {
    fn agree(&self) -> bool {
        self.groups.len() <= 1
    }

    // Adds the heading of equal processors, if the dump has several, and what differs from processor 0.
    fn add_heading(&self, text: &mut Text, group: &GroupFaults<'_>) {
        if self.dump.files().len() <= 1 {
            return;
        }
        text.add("  ");
        text.add_cpus(group.cpus.as_slice());
        if let Some(unlike) = &group.unlike {
            text.add(": ");
            unlike.add(text);
        }
        text.add("\n");
    }
}

impl Report for Faults<'_> {
    fn is_found(&self) -> bool {
        self.at_fault || !self.agree()
    }

    fn add(&self, text: &mut Text) {
        text.add(self.dump.file);
        text.add(if self.at_fault {
            ": faults\n"
        } else if self.agree() {
            ": no fault\n"
        } else {
            ": unlike processors\n"
        });
        if self.is_found() {
            self.dump.add_width(text);
        }
        for group in &self.groups {
            self.add_heading(text, group);
            add_faults(text, group);
            if !self.is_found() {
                add_summary(text, group);
            }
            for note in &group.notes {
                note.add(text, &self.dump, group.file);
            }
        }
    }

    fn write(&self, json: &mut Json) {
        json.string("file", self.dump.file);
        self.dump.write_width(json);
        json.flag("found", self.is_found());
        json.begin_list("cpus");
        for cpu in 0..MOST_CPUS {
            for group in &self.groups {
                if group.cpus.as_slice().contains(&cpu) {
                    write_cpu(json, cpu, group);
                }
            }
        }
        json.end_list();
        json.flag("agree", self.agree());
        json.begin_list("groups");
        for group in &self.groups {
            write_group(json, &self.dump, group);
        }
        json.end_list();
    }
}
