ghost use Rattle.std.specs.Prelude.{◌≡◌, None};
ghost use Rattle.mt_explain.specs.Memory.{AreInOrder};

use crate::NoReport;
use crate::object::Json;
use crate::page::{FIXED, kind_name};
use crate::registers::{add_pairs, add_value, write_pairs, write_value};
use crate::report::{Answer, Form, Named, Report, answered};
use crate::text::Text;
use mt_explain::{Cause, Cpus, Decider, Span, are_in_order, causes};
use mt_memory_kinds::{MemoryKind, MemoryRange};
use mt_regs::{DEFAULT_TYPE, RegFile, Register};
use std::alloc::{AllocError, Global};

/// The ranges of a memory map in pages, and the name of its file.
#[derive(Clone, Copy)]
pub struct NamedMap<'a> {
    pub file: &'a str,
    pub ranges: &'a [MemoryRange],
}

// Which memory of equal processors has a type that doesn't fit.
#[derive(Drop)]
struct GroupCauses<'a> {
    cpus: Cpus,
    file: &'a RegFile,
    // `None` if a register is at fault by itself: what it does to pages isn't defined.
    causes: Option<Vec<Span<Cause>>>,
}

// Which memory has a type that doesn't fit.
#[derive(Drop)]
struct Ram<'a> {
    map: NamedMap<'a>,
    dump: Named<'a>,
    groups: Vec<GroupCauses<'a>>,
}

fn causes_of(
    alloc: Global,
    ranges: &[MemoryRange],
    f: &RegFile,
) -> Result<Option<Vec<Span<Cause>>>, AllocError>
    requires { AreInOrder ranges.now }
{
    if f.register_fault().is_some() {
        return Ok(None);
    }
    Ok(Some(causes(alloc, f, ranges)?))
}

fn ram_of<'a>(alloc: Global, map: NamedMap<'a>, dump: Named<'a>) -> Result<Ram<'a>, AllocError>
    requires { AreInOrder map.ranges.now }
{
    let mut groups = Vec::new(alloc);
    for cpus in dump.groups(alloc)? {
        let file = dump.file_of(cpus.as_slice());
        groups.push(GroupCauses {
            cpus,
            file,
            causes: causes_of(alloc, map.ranges, file)?,
        })?;
    }
    Ok(Ram { map, dump, groups })
}

/// Which memory of a map has a type that doesn't fit, by processors, and which registers give it. Something is found if there is some,
/// or if a register is at fault by itself. Fails with `NotInOrder`.
pub fn ram_answer(
    alloc: Global,
    map: NamedMap<'_>,
    dump: Named<'_>,
    form: Form,
) -> Result<Answer, NoReport> {
    if !are_in_order(map.ranges) {
        return Err(NoReport::NotInOrder);
    }
    answered(alloc, &ram_of(alloc, map, dump)?, form)
}

fn memory_name(kind: MemoryKind) -> &'static str {
    str::from_utf8(mt_memory::kind_name(kind)).unwrap_or("")
}

// The register other than pairs that decides, if there is one.
fn register_of(decider: &Decider) -> Option<u32> {
    match decider {
        Decider::Switch => Some(DEFAULT_TYPE),
        Decider::Fixed(place) if *place < FIXED => Some(Register::FixedRange(*place).number()),
        Decider::Pairs(pairs) if pairs.is_empty() => Some(DEFAULT_TYPE),
        _ => None,
    }
}

fn pairs_of(decider: &Decider) -> &[u8] {
    match decider {
        Decider::Pairs(pairs) => pairs.as_slice(),
        _ => &[],
    }
}

fn add_cause(text: &mut Text, f: &RegFile, run: &Span<Cause>) {
    let Cause { misfit, decider } = &run.mark;
    text.add("  ");
    text.add_run(run.first, run.count);
    text.add_all(&[
        ": ",
        memory_name(misfit.memory),
        " is ",
        kind_name(misfit.kind),
        "\n",
    ]);
    if let Some(msr) = register_of(decider) {
        text.add("    ");
        add_value(text, msr, f.get(msr).unwrap_or(0));
        text.add("\n");
    }
    add_pairs(text, f, pairs_of(decider));
}

fn write_cause(json: &mut Json, f: &RegFile, run: &Span<Cause>) {
    let Cause { misfit, decider } = &run.mark;
    json.begin_object();
    json.run(run.first, run.count);
    json.string("memory", memory_name(misfit.memory));
    json.string("type", kind_name(misfit.kind));
    json.begin_list("registers");
    if let Some(msr) = register_of(decider) {
        write_value(json, msr, f.get(msr).unwrap_or(0));
    }
    json.end_list();
    write_pairs(json, f, pairs_of(decider));
    json.end_object();
}

impl GroupCauses<'_> {
    fn is_found(&self) -> bool {
        match &self.causes {
            Some(causes) => !causes.is_empty(),
            None => true,
        }
    }

    fn add(&self, text: &mut Text) {
        match &self.causes {
            Some(causes) => {
                for run in causes {
                    add_cause(text, self.file, run);
                }
            }
            None => text.add(
                "  a register has a fault by itself, and what it does to pages isn't defined: see mtrr-explain faults\n",
            ),
        }
    }

    fn write(&self, json: &mut Json) {
        json.begin_object();
        json.cpus(self.cpus.as_slice());
        json.flag("looked", self.causes.is_some());
        json.begin_list("misfits");
        if let Some(causes) = &self.causes {
            for run in causes {
                write_cause(json, self.file, run);
            }
        }
        json.end_list();
        json.end_object();
    }
}

impl Report for Ram<'_> {
    fn is_found(&self) -> bool {
        let mut found = false;
        for group in &self.groups {
            found = found || group.is_found();
        }
        found
    }

    fn add(&self, text: &mut Text) {
        text.add_all(&[self.dump.file, " and ", self.map.file]);
        text.add(if self.is_found() {
            ": types that don't fit the memory\n"
        } else {
            ": each type fits the memory\n"
        });
        for group in &self.groups {
            if group.is_found() && self.dump.files().len() > 1 {
                text.add("  ");
                text.add_cpus(group.cpus.as_slice());
                text.add("\n");
            }
            group.add(text);
        }
    }

    fn write(&self, json: &mut Json) {
        json.string("file", self.dump.file);
        json.string("map", self.map.file);
        self.dump.write_width(json);
        json.flag("found", self.is_found());
        json.begin_list("groups");
        for group in &self.groups {
            group.write(json);
        }
        json.end_list();
    }
}
