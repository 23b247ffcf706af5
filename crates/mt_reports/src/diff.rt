use crate::NoReport;
use crate::fields::{add_fields, write_fields};
use crate::object::Json;
use crate::page::kind_name;
use crate::registers::{add_register, add_value, write_register, write_value};
use crate::report::{Answer, Form, MOST_CPUS, Named, Report, answered};
use crate::text::Text;
use mt_explain::{Difference, Span, TypeChange, are_equal, differences, type_changes};
use mt_regs::{Fault, PageType, Reason, RegFile};
use std::alloc::{AllocError, Global};

/// Which processors are compared.
#[derive(Clone, Copy)]
pub enum Sides {
    /// Those of two dumps that have the same number.
    Dumps,
    /// Two of one dump.
    Cpus(u32, u32),
    /// Processor 0 of one dump and each of the others.
    Others,
}

/// What is printed of what differs.
#[derive(Clone, Copy, PartialEq, Eq)]
pub enum View {
    All,
    /// The types of pages. Registers count for nothing.
    Types,
}

// What differs between the files of two processors, and of others that have the same two files.
#[derive(Drop)]
struct CpuDiff<'a> {
    olds: Vec<u32>,
    news: Vec<u32>,
    old: &'a RegFile,
    new: &'a RegFile,
    registers: Vec<Difference>,
    // `None` if a register is at fault by itself, so that the types of pages weren't compared.
    types: Option<Vec<Span<TypeChange>>>,
}

// What differs between two dumps, or between processors of one.
#[derive(Drop)]
struct Diff<'a> {
    old: Named<'a>,
    new: Named<'a>,
    sides: Sides,
    view: View,
    cpus: Vec<CpuDiff<'a>>,
}

/// The runs of pages whose types differ. `None` if a register of a file is at fault by itself.
pub fn types_of(
    alloc: Global,
    old: &RegFile,
    new: &RegFile,
) -> Result<Option<Vec<Span<TypeChange>>>, AllocError> {
    let (None, None) = (old.register_fault(), new.register_fault()) else {
        return Ok(None);
    };
    Ok(Some(type_changes(alloc, old, new)?))
}

// Files of one width whose registers are equal give equal types, whatever faults they have.
fn cpu_diff<'a>(
    alloc: Global,
    old: &'a RegFile,
    new: &'a RegFile,
) -> Result<CpuDiff<'a>, AllocError> {
    let registers = differences(alloc, old, new)?;
    let types = if registers.is_empty() && old.maxphy == new.maxphy {
        Some(Vec::new(alloc))
    } else {
        types_of(alloc, old, new)?
    };
    Ok(CpuDiff {
        olds: Vec::new(alloc),
        news: Vec::new(alloc),
        old,
        new,
        registers,
        types,
    })
}

impl<'a> CpuDiff<'a> {
    fn is_same(&self) -> bool {
        self.registers.is_empty() && self.types_differ() == Some(false)
    }

    // `None` if the types weren't compared.
    fn types_differ(&self) -> Option<bool> {
        match &self.types {
            Some(runs) => Some(!runs.is_empty()),
            None => None,
        }
    }

    fn is_of(&self, old: &RegFile, new: &RegFile) -> bool {
        are_equal(self.old, old) && are_equal(self.new, new)
    }

    fn add_numbers(&mut self, old: u32, new: u32) -> Result<(), AllocError> {
        self.olds.push(old)?;
        self.news.push(new)?;
        Ok(())
    }
}

fn place_of(list: &[CpuDiff<'_>], old: &RegFile, new: &RegFile) -> usize {
    for (place, cpu) in list.iter().enumerate() {
        if cpu.is_of(old, new) {
            return place;
        }
    }
    list.len()
}

// Adds what differs between two processors, if both are there.
fn compare<'a>(
    alloc: Global,
    list: &mut Vec<CpuDiff<'a>>,
    old: (&Named<'a>, u32),
    new: (&Named<'a>, u32),
) -> Result<(), AllocError> {
    let (Some(f), Some(g)) = (old.0.file_at(old.1), new.0.file_at(new.1)) else {
        return Ok(());
    };
    let place = place_of(list.as_slice(), f, g);
    if place == list.len() {
        list.push(cpu_diff(alloc, f, g)?)?;
    }
    match list.get_mut(place) {
        Some(cpu) => cpu.add_numbers(old.1, new.1),
        None => Ok(()),
    }
}

impl Diff<'_> {
    fn has_equal_counts(&self) -> bool {
        self.old.files().len() == self.new.files().len()
    }

    // Whether the text names the processors: two that are compared stand above it.
    fn has_headings(&self) -> bool {
        match self.sides {
            Sides::Dumps => self.old.files().len().min(self.new.files().len()) > 1,
            Sides::Cpus(_, _) => false,
            Sides::Others => true,
        }
    }

    fn differ(&self) -> bool {
        let mut differ = self.old.width() != self.new.width() || !self.has_equal_counts();
        for cpu in &self.cpus {
            differ = differ || !cpu.registers.is_empty();
        }
        differ
    }

    // `None` if no types differ among those that were compared, and some weren't.
    fn types_differ(&self) -> Option<bool> {
        let mut differ = Some(!self.has_equal_counts());
        for cpu in &self.cpus {
            differ = match (differ, cpu.types_differ()) {
                (Some(true), _) | (_, Some(true)) => Some(true),
                (None, _) | (_, None) => None,
                (Some(false), Some(false)) => Some(false),
            };
        }
        differ
    }
}

/// What differs between two dumps, processor by processor. Something is found if they differ, or if types do in that view.
pub fn diff_answer<'a>(
    alloc: Global,
    old: Named<'a>,
    new: Named<'a>,
    view: View,
    form: Form,
) -> Result<Answer, NoReport> {
    let mut cpus = Vec::new(alloc);
    for k in 0..MOST_CPUS {
        compare(alloc, &mut cpus, (&old, k), (&new, k))?;
    }
    let sides = Sides::Dumps;
    let diff = Diff {
        old,
        new,
        sides,
        view,
        cpus,
    };
    answered(alloc, &diff, form)
}

/// What differs between processors of a dump. Something is found if they differ, or if types do in that view. Fails with
/// `NoProcessor` if the dump hasn't both.
pub fn diff_of_cpus_answer(
    alloc: Global,
    dump: Named<'_>,
    sides: Sides,
    view: View,
    form: Form,
) -> Result<Answer, NoReport> {
    let mut cpus = Vec::new(alloc);
    if let Sides::Cpus(old, new) = sides {
        if dump.file_at(old).is_none() || dump.file_at(new).is_none() {
            return Err(NoReport::NoProcessor(dump.files().len().saturating_sub(1)));
        }
        compare(alloc, &mut cpus, (&dump, old), (&dump, new))?;
    } else {
        for k in 1..MOST_CPUS {
            compare(alloc, &mut cpus, (&dump, 0), (&dump, k))?;
        }
    }
    let diff = Diff {
        old: dump,
        new: dump,
        sides,
        view,
        cpus,
    };
    answered(alloc, &diff, form)
}

fn problem(reason: Reason) -> &'static str {
    match reason {
        Reason::ReservedBit => "reserved bits are set",
        Reason::UnsupportedType => "no type",
        Reason::BrokenMask => "the mask has a gap",
        Reason::UndefinedOverlap => "its pair has pages with no defined type",
    }
}

// A register at fault exists, so it has a value.
fn value_at(f: &RegFile, fault: &Fault) -> u64 {
    f.get(fault.msr).unwrap_or(0)
}

/// Adds the line about a register's value in a file.
pub fn add_side(text: &mut Text, sign: &str, f: &RegFile, msr: u32, value: Option<u64>) {
    text.add(sign);
    match value {
        Some(value) => add_fields(text, f, msr, value),
        None => text.add("the file hasn't it\n"),
    }
}

fn add_difference(text: &mut Text, cpu: &CpuDiff<'_>, d: &Difference) {
    text.add("  ");
    add_register(text, d.msr);
    text.add("\n");
    add_side(text, "  - ", cpu.old, d.msr, d.old);
    add_side(text, "  + ", cpu.new, d.msr, d.new);
}

fn shown(kind: Option<PageType>) -> &'static str {
    match kind {
        Some(kind) => kind_name(kind),
        None => "no such page",
    }
}

fn add_change(text: &mut Text, run: &Span<TypeChange>) {
    text.add("  ");
    text.add_run(run.first, run.count);
    text.add_all(&[": ", shown(run.mark.old), " -> ", shown(run.mark.new), "\n"]);
}

fn add_fault(text: &mut Text, sign: &str, f: &RegFile) {
    if let Some(fault) = f.first_fault() {
        text.add_all(&[sign, "isn't accepted: "]);
        add_value(text, fault.msr, value_at(f, &fault));
        text.add_all(&[": ", problem(fault.reason), "\n"]);
    }
}

/// Adds the lines about runs of pages whose types differ.
pub fn add_types(text: &mut Text, types: &Option<Vec<Span<TypeChange>>>) {
    match types {
        Some(runs) => {
            for run in runs {
                add_change(text, run);
            }
        }
        None => text.add(
            "  the types of pages aren't compared, since registers are at fault by themselves\n",
        ),
    }
}

fn add_cpu(text: &mut Text, cpu: &CpuDiff<'_>, many: bool, view: View) {
    if cpu.is_same() {
        return;
    }
    if many {
        text.add("  ");
        text.add_cpus(cpu.news.as_slice());
        text.add("\n");
    }
    add_fault(text, "  - ", cpu.old);
    add_fault(text, "  + ", cpu.new);
    add_types(text, &cpu.types);
    if view == View::All {
        for d in &cpu.registers {
            add_difference(text, cpu, d);
        }
    }
}

fn add_width(text: &mut Text, sign: &str, dump: &Named<'_>) {
    let assumed = if dump.given.has_width {
        ""
    } else {
        ", assumed"
    };
    text.add_decimal(sign, dump.width() as u64);
    text.add_all(&[" address bits", assumed, "\n"]);
}

fn add_processors(text: &mut Text, sign: &str, dump: &Named<'_>) {
    text.add(sign);
    text.add_decimal("processors: ", dump.files().len() as u64);
    text.add("\n");
}

/// Writes the member about a register's value in a file.
pub fn write_side(json: &mut Json, name: &str, f: &RegFile, msr: u32, value: Option<u64>) {
    match value {
        Some(value) => {
            json.key(name);
            write_fields(json, f, msr, value);
        }
        None => json.null(name),
    }
}

fn write_difference(json: &mut Json, cpu: &CpuDiff<'_>, d: &Difference) {
    json.begin_object();
    write_register(json, d.msr);
    write_side(json, "old", cpu.old, d.msr, d.old);
    write_side(json, "new", cpu.new, d.msr, d.new);
    json.end_object();
}

fn write_kind(json: &mut Json, name: &str, kind: Option<PageType>) {
    match kind {
        Some(kind) => json.string(name, kind_name(kind)),
        None => json.null(name),
    }
}

fn write_change(json: &mut Json, run: &Span<TypeChange>) {
    json.begin_object();
    json.run(run.first, run.count);
    write_kind(json, "old", run.mark.old);
    write_kind(json, "new", run.mark.new);
    json.end_object();
}

/// Writes the list of runs of pages whose types differ.
pub fn write_types(json: &mut Json, types: &Option<Vec<Span<TypeChange>>>) {
    match types {
        Some(runs) => {
            json.begin_list("types");
            for run in runs {
                write_change(json, run);
            }
            json.end_list();
        }
        None => json.null("types"),
    }
}

fn write_fault(json: &mut Json, name: &str, f: &RegFile) {
    match f.first_fault() {
        Some(fault) => {
            json.key(name);
            json.begin_object();
            json.key("register");
            write_value(json, fault.msr, value_at(f, &fault));
            json.string("problem", problem(fault.reason));
            json.end_object();
        }
        None => json.null(name),
    }
}

fn write_cpu(json: &mut Json, cpu: &CpuDiff<'_>, numbers: (u32, u32)) {
    json.begin_object();
    json.number("old_cpu", numbers.0 as u64);
    json.number("new_cpu", numbers.1 as u64);
    write_fault(json, "old_fault", cpu.old);
    write_fault(json, "new_fault", cpu.new);
    json.begin_list("registers");
    for d in &cpu.registers {
        write_difference(json, cpu, d);
    }
    json.end_list();
    write_types(json, &cpu.types);
    json.end_object();
}

// Writes what differs from the old processors to the new one of this number.
fn write_cpu_of(json: &mut Json, cpu: &CpuDiff<'_>, number: u32) {
    for (old, new) in cpu.olds.iter().zip(cpu.news.iter()) {
        if *new == number {
            write_cpu(json, cpu, (*old, *new));
        }
    }
}

fn write_dump(json: &mut Json, name: &str, dump: &Named<'_>) {
    json.key(name);
    json.begin_object();
    json.string("file", dump.file);
    dump.write_width(json);
    json.number("processors", dump.files().len() as u64);
    json.end_object();
}

fn add_names(text: &mut Text, diff: &Diff<'_>) {
    text.add(diff.old.file);
    match diff.sides {
        Sides::Cpus(old, new) => {
            text.add_decimal(": cpu ", old as u64);
            text.add_decimal(" and cpu ", new as u64);
        }
        Sides::Others => text.add(": cpu 0 and the others"),
        Sides::Dumps => text.add_all(&[" and ", diff.new.file]),
    }
}

fn add_dumps(text: &mut Text, old: &Named<'_>, new: &Named<'_>) {
    if old.width() != new.width() {
        add_width(text, "  - ", old);
        add_width(text, "  + ", new);
    }
    if old.files().len() != new.files().len() {
        add_processors(text, "  - ", old);
        add_processors(text, "  + ", new);
    }
}

impl Report for Diff<'_> {
    fn is_found(&self) -> bool {
        match self.view {
            View::All => self.differ(),
            View::Types => self.types_differ() != Some(false),
        }
    }

    fn add(&self, text: &mut Text) {
        add_names(text, self);
        if !self.is_found() {
            text.add(match self.view {
                View::All => ": no difference\n",
                View::Types => ": no page's type differs\n",
            });
            return;
        }
        text.add(" differ\n");
        add_dumps(text, &self.old, &self.new);
        for cpu in &self.cpus {
            add_cpu(text, cpu, self.has_headings(), self.view);
        }
    }

    fn write(&self, json: &mut Json) {
        write_dump(json, "old", &self.old);
        write_dump(json, "new", &self.new);
        json.flag("differ", self.differ());
        json.optional_flag("types_differ", self.types_differ());
        json.begin_list("cpus");
        for number in 0..MOST_CPUS {
            for cpu in &self.cpus {
                write_cpu_of(json, cpu, number);
            }
        }
        json.end_list();
    }
}
