use crate::NoReport;
use crate::diff::{add_side, add_types, types_of, write_side, write_types};
use crate::faults::{
    Share, add_fault, add_shares, add_undefined, shares_of, write_fault, write_shares,
    write_undefined,
};
use crate::fit::{Budget, Row, Way, chunks_of, granules_of, no_fit, valid_pairs, write_rows};
use crate::forms::{Doubts, form_text};
use crate::mending::{Mending, Style, many_wishes, no_fixed, no_wish, wishes_of};
use crate::object::Json;
use crate::ram::NamedMap;
use crate::registers::{add_register, write_register};
use crate::report::{Answer, Form, Named, Report, answered};
use crate::text::Text;
use mt_explain::{
    Clash, Cpus, Difference, FieldFault, Span, TypeChange, Unfit, clashes, differences,
    field_faults,
};
use mt_kinds::MemType;
use mt_mend::{
    MendFault, Wish, Write, changes_between, fixed_file, lawful_file, mend, mend_in_place,
};
use mt_regs::{DEFAULT_TYPE, FIRST_PAIR, MAX_PAIRS, RegFile, pair_type};
use mt_tidy::WorkArea;
use std::alloc::{AllocError, Global};

// The log of the bytes of the least chunk, and how many sizes there are.
const LEAST_CHUNK: usize = 12;

const CHUNKS: usize = 41;

// The most bytes of a chunk, which bounds nothing.
const LARGEST: u64 = 1 << 52;

/// What is to be written to equal processors.
#[derive(Drop)]
pub struct GroupWrites<'a> {
    pub cpus: Cpus,
    file: &'a RegFile,
    // `None` if a register is at fault by itself, so that the types of pages weren't compared.
    types: Option<Vec<Span<TypeChange>>>,
    registers: Vec<Difference>,
    /// The writes in their order.
    pub writes: Vec<Write>,
}

// A type that pages without a defined one may get, and how many pairs are needed then.
#[derive(Clone, Copy)]
struct Candidate {
    kind: MemType,
    needs: u64,
}

// The file that gives the types that are asked for, and what it changes.
#[derive(Drop)]
struct Found<'a> {
    file: RegFile,
    groups: Vec<GroupWrites<'a>>,
    after: Vec<Share>,
}

// What mending comes to.
#[derive(Drop)]
enum Outcome<'a> {
    Found(Found<'a>),
    // The pages of no defined type, and the types that they may get.
    Undefined(Vec<Clash>, Vec<Candidate>),
    TooFew(Lack),
}

// How many pairs are needed by the chunk, by each chunk, and by granules.
#[derive(Drop)]
struct Lack {
    needs: u64,
    chunks: Vec<Row>,
    granules: Vec<Row>,
}

// What is to be written so that pages have the types that are asked for.
#[derive(Drop)]
struct Mend<'a> {
    dump: Named<'a>,
    // the file with lawful values in place of those at fault
    start: RegFile,
    faults: Vec<FieldFault>,
    before: Vec<Share>,
    has: Budget,
    outcome: Outcome<'a>,
}

// How many pairs the wishes need by this chunk, whatever the file has.
fn needed(f: &RegFile, wishes: &[Wish], chunk: u64, area: &mut WorkArea) -> Option<u64> {
    match mend(f, wishes, 0, chunk, area) {
        Ok(tidied) => Some(tidied.used as u64),
        Err(MendFault::TooFew { needs, .. }) => Some(needs),
        Err(_) => None,
    }
}

// A row for each chunk size from which on the least number is another.
fn rows_of(
    alloc: Global,
    f: &RegFile,
    wishes: &[Wish],
    area: &mut WorkArea,
) -> Result<Vec<Row>, AllocError> {
    let mut least = [0; CHUNKS];
    for n in 0..CHUNKS {
        least[n] = needed(f, wishes, 1 << ((LEAST_CHUNK + n) % 64), area).unwrap_or(0);
    }
    chunks_of(alloc, Way::Mend, least.as_slice())
}

// A file with the registers of another one, and with as many pairs as can be.
fn roomy(f: &RegFile) -> Option<RegFile> {
    let mut file = RegFile::blank(f.maxphy, (f.cap & !0xff) | MAX_PAIRS as u64).ok()?;
    for number in FIRST_PAIR..DEFAULT_TYPE + 1 {
        if let Some(value) = f.get(number) {
            let _ = file.set(number, value);
        }
    }
    Some(file)
}

// What granules need of the types that are asked for, and lose. None are found if no file has so many pairs.
fn rounded_of(
    alloc: Global,
    f: &RegFile,
    wishes: &[Wish],
    area: &mut WorkArea,
) -> Result<Vec<Row>, NoReport> {
    let Some(room) = roomy(f) else {
        return Ok(Vec::new(alloc));
    };
    match mend(&room, wishes, 0, LARGEST, area) {
        Ok(tidied) => granules_of(alloc, Way::Round, &tidied.file),
        Err(_) => Ok(Vec::new(alloc)),
    }
}

fn lack_of(
    alloc: Global,
    f: &RegFile,
    wishes: &[Wish],
    needs: u64,
    area: &mut WorkArea,
) -> Result<Lack, NoReport> {
    Ok(Lack {
        needs,
        chunks: rows_of(alloc, f, wishes, area)?,
        granules: rounded_of(alloc, f, wishes, area)?,
    })
}

// Adds a candidate, unless it is one already.
fn add_candidate(
    candidates: &mut Vec<Candidate>,
    f: &RegFile,
    wishes: &[Wish],
    kind: MemType,
    area: &mut WorkArea,
) -> Result<(), AllocError> {
    for candidate in candidates.as_slice() {
        if candidate.kind == kind {
            return Ok(());
        }
    }
    if let Some(needs) = needed(f, wishes, LARGEST, area) {
        candidates.push(Candidate { kind, needs })?;
    }
    Ok(())
}

// UC, and the types of the pairs that meet with no defined type.
fn kinds_of(alloc: Global, f: &RegFile, runs: &[Clash]) -> Result<Vec<MemType>, AllocError> {
    let mut kinds = Vec::new(alloc);
    kinds.push(MemType::UC)?;
    for run in runs {
        for number in run.mark.as_slice() {
            if let Some(pair) = f.pairs.as_slice().get(*number as usize) {
                kinds.push(pair_type(*pair))?;
            }
        }
    }
    Ok(kinds)
}

fn candidates_of(
    alloc: Global,
    f: &RegFile,
    runs: &[Clash],
    map: NamedMap<'_>,
    mending: &Mending<'_>,
    area: &mut WorkArea,
) -> Result<Vec<Candidate>, AllocError> {
    let mut candidates = Vec::new(alloc);
    for kind in kinds_of(alloc, f, runs)?.as_slice() {
        let taken = Mending {
            take: Some(*kind),
            ..*mending
        };
        let wishes = wishes_of(alloc, f, map, &taken)?;
        add_candidate(&mut candidates, f, wishes.as_slice(), *kind, area)?;
    }
    Ok(candidates)
}

// What is to be written to equal processors, if they are of the file's kind.
fn group_writes<'a>(
    alloc: Global,
    cpus: Cpus,
    old: &'a RegFile,
    new: &RegFile,
) -> Result<Option<GroupWrites<'a>>, AllocError> {
    let Some(writes) = changes_between(alloc, old, new)? else {
        return Ok(None);
    };
    Ok(Some(GroupWrites {
        types: types_of(alloc, old, new)?,
        registers: differences(alloc, old, new)?,
        cpus,
        file: old,
        writes,
    }))
}

fn groups_of<'a>(
    alloc: Global,
    dump: &Named<'a>,
    new: &RegFile,
) -> Result<Vec<GroupWrites<'a>>, AllocError> {
    let mut groups = Vec::new(alloc);
    for cpus in dump.groups(alloc)? {
        let old = dump.file_of(cpus.as_slice());
        if let Some(group) = group_writes(alloc, cpus, old, new)? {
            groups.push(group)?;
        }
    }
    Ok(groups)
}

// How many pages have each type. What a register at fault does to pages isn't defined.
fn sizes_of(alloc: Global, f: &RegFile) -> Result<Vec<Share>, AllocError> {
    if f.register_fault().is_some() {
        return Ok(Vec::new(alloc));
    }
    shares_of(alloc, f)
}

fn found_of<'a>(alloc: Global, dump: &Named<'a>, file: RegFile) -> Result<Found<'a>, AllocError> {
    Ok(Found {
        groups: groups_of(alloc, dump, &file)?,
        after: sizes_of(alloc, &file)?,
        file,
    })
}

// Why no file gives the types that are asked for, if neither pairs nor defined types lack.
fn no_outcome(alloc: Global, wishes: &[Wish], fault: MendFault) -> NoReport {
    match fault {
        MendFault::TooManyWishes => many_wishes(alloc, wishes.len()),
        MendFault::Wish { number, fault } => match wishes.get(number as usize) {
            Some(wish) => no_wish(alloc, *wish, fault),
            None => NoReport::Disabled,
        },
        MendFault::FixedRange { page } => no_fixed(alloc, page),
        MendFault::Refused(fault) => no_fit(alloc, Unfit::Refused(fault)),
        _ => NoReport::Disabled,
    }
}

// The processor whose registers are mended.
fn base_of<'a>(
    dump: &Named<'a>,
    groups: usize,
    like: Option<u32>,
) -> Result<&'a RegFile, NoReport> {
    match like {
        Some(cpu) => match dump.file_at(cpu) {
            Some(f) => Ok(f),
            None => Err(NoReport::NoProcessor(dump.files().len().saturating_sub(1))),
        },
        None if groups > 1 => Err(NoReport::Unlike),
        None => Ok(dump.given.dump.first_file()),
    }
}

fn outcome_of<'a>(
    alloc: Global,
    dump: &Named<'a>,
    start: &RegFile,
    map: NamedMap<'_>,
    mending: &Mending<'_>,
) -> Result<Outcome<'a>, NoReport> {
    let mut area = WorkArea::new();
    let wishes = wishes_of(alloc, start, map, mending)?;
    let fixed = match fixed_file(start, wishes.as_slice()) {
        Ok(fixed) => fixed,
        Err(fault) => return Err(no_outcome(alloc, wishes.as_slice(), fault)),
    };
    match mend_in_place(
        start,
        wishes.as_slice(),
        mending.spare,
        mending.chunk,
        &mut area,
    ) {
        Ok(file) => Ok(Outcome::Found(found_of(alloc, dump, file)?)),
        Err(MendFault::TooFew { needs, .. }) => {
            let lack = lack_of(alloc, &fixed, wishes.as_slice(), needs, &mut area)?;
            Ok(Outcome::TooFew(lack))
        }
        Err(MendFault::Undefined { .. }) => {
            let runs = undefined_of(alloc, start)?;
            let candidates = candidates_of(
                alloc,
                &fixed,
                runs.as_slice(),
                map,
                mending,
                &mut area,
            )?;
            Ok(Outcome::Undefined(runs, candidates))
        }
        Err(fault) => Err(no_outcome(alloc, wishes.as_slice(), fault)),
    }
}

fn undefined_of(alloc: Global, f: &RegFile) -> Result<Vec<Clash>, AllocError> {
    if f.register_fault().is_some() {
        return Ok(Vec::new(alloc));
    }
    clashes(alloc, f)
}

fn mend_of<'a>(
    alloc: Global,
    dump: Named<'a>,
    map: NamedMap<'_>,
    mending: &Mending<'_>,
) -> Result<Mend<'a>, NoReport> {
    let base = base_of(&dump, dump.groups(alloc)?.len(), mending.like)?;
    let start = lawful_file(alloc, base)?.unwrap_or(base.same());
    Ok(Mend {
        outcome: outcome_of(alloc, &dump, &start, map, mending)?,
        faults: field_faults(alloc, base)?,
        before: sizes_of(alloc, base)?,
        has: Budget::of(base, mending.spare as u64),
        dump,
        start,
    })
}

fn no_form(outcome: &Outcome<'_>) -> NoReport {
    NoReport::NoForm(match outcome {
        Outcome::TooFew(_) => "too few pairs: without --as the numbers for each chunk are listed",
        _ => "pages have no defined type: --take TYPE gives them one",
    })
}

/// What to write so that pages have the types that are asked for, and no others change. Something is found if there is no answer yet:
/// pages have no defined type, or there are too few pairs. Fails with `Disabled`, `Unlike`, `NoProcessor` or `NoMend`, and if there
/// is no answer in a form with `NoForm`.
pub fn mend_answer(
    alloc: Global,
    dump: Named<'_>,
    map: NamedMap<'_>,
    mending: &Mending<'_>,
    form: Form,
) -> Result<Answer, NoReport> {
    let mend = mend_of(alloc, dump, map, mending)?;
    if mending.style == Style::Report {
        return answered(alloc, &mend, form);
    }
    match &mend.outcome {
        Outcome::Found(found) => {
            let groups = found.groups.as_slice();
            let given = mend.dump.given;
            let doubts = Doubts {
                is_width_assumed: !given.has_width,
                is_guessed: !mend.faults.is_empty(),
            };
            let text = form_text(alloc, mending.style, &found.file, groups, doubts)?;
            Ok(Answer {
                text: text.into_bytes(),
                found: false,
            })
        }
        outcome => Err(no_form(outcome)),
    }
}

fn add_difference(text: &mut Text, old: &RegFile, new: &RegFile, d: &Difference) {
    text.add("  ");
    add_register(text, d.msr);
    text.add("\n");
    add_side(text, "  - ", old, d.msr, d.old);
    add_side(text, "  + ", new, d.msr, d.new);
}

fn write_difference(json: &mut Json, old: &RegFile, new: &RegFile, d: &Difference) {
    json.begin_object();
    write_register(json, d.msr);
    write_side(json, "old", old, d.msr, d.old);
    write_side(json, "new", new, d.msr, d.new);
    json.end_object();
}

fn write_writes(json: &mut Json, writes: &[Write]) {
    json.begin_list("writes");
    for write in writes {
        json.begin_object();
        write_register(json, write.number);
        json.hex("value", write.value, 16);
        json.end_object();
    }
    json.end_list();
}

impl Candidate {
    fn add(&self, text: &mut Text) {
        text.add_all(&["  --take ", self.kind.name()]);
        text.add_decimal(": ", self.needs);
        text.add(if self.needs == 1 {
            " pair\n"
        } else {
            " pairs\n"
        });
    }

    fn write(&self, json: &mut Json) {
        json.begin_object();
        json.string("type", self.kind.name());
        json.number("needs", self.needs);
        json.end_object();
    }
}

impl Found<'_> {
    fn is_nothing(&self) -> bool {
        for group in &self.groups {
            if !group.writes.is_empty() {
                return false;
            }
        }
        true
    }

    // Adds what changes, processor by processor, and the sizes and pairs before the registers.
    fn add(&self, text: &mut Text, mend: &Mend<'_>) {
        match self.groups.as_slice() {
            [group] => {
                add_types(text, &group.types);
                if !mend.before.is_empty() {
                    add_shares(text, "  before: ", mend.before.as_slice());
                    text.add("\n");
                }
                self.add_sizes(text, mend);
                self.add_registers(text, group);
            }
            groups => {
                self.add_sizes(text, mend);
                for group in groups {
                    text.add("  ");
                    text.add_cpus(group.cpus.as_slice());
                    if group.writes.is_empty() {
                        text.add(": nothing to change");
                    }
                    text.add("\n");
                    add_types(text, &group.types);
                    self.add_registers(text, group);
                }
            }
        }
    }

    fn add_sizes(&self, text: &mut Text, mend: &Mend<'_>) {
        add_shares(text, "  after: ", self.after.as_slice());
        text.add("\n");
        mend.add_pairs(text, valid_pairs(&self.file));
    }

    fn add_registers(&self, text: &mut Text, group: &GroupWrites<'_>) {
        for d in &group.registers {
            add_difference(text, group.file, &self.file, d);
        }
    }

    fn write(&self, json: &mut Json) {
        write_shares(json, "after", self.after.as_slice());
        json.begin_list("groups");
        for group in &self.groups {
            json.begin_object();
            json.cpus(group.cpus.as_slice());
            write_types(json, &group.types);
            json.begin_list("registers");
            for d in &group.registers {
                write_difference(json, group.file, &self.file, d);
            }
            json.end_list();
            write_writes(json, group.writes.as_slice());
            json.end_object();
        }
        json.end_list();
    }
}

impl Mend<'_> {
    fn add_guesses(&self, text: &mut Text) {
        for fault in &self.faults {
            add_fault(text, &self.start, fault);
        }
        if !self.faults.is_empty() {
            text.add("  the lawful values below are guesses: compare them with what was meant\n");
        }
    }

    fn add_pairs(&self, text: &mut Text, needs: u64) {
        text.add_decimal("  pairs: ", self.has.pairs);
        text.add_decimal(", valid: ", self.has.valid);
        text.add_decimal(", needed: ", needs);
        text.add_decimal(", to stay free: ", self.has.spare);
        text.add("\n");
    }
}

impl Report for Mend<'_> {
    fn is_found(&self) -> bool {
        match &self.outcome {
            Outcome::Found(_) => false,
            _ => true,
        }
    }

    fn add(&self, text: &mut Text) {
        text.add(self.dump.file);
        match &self.outcome {
            Outcome::Found(found) if found.is_nothing() => {
                text.add(": already the fewest pairs, nothing to change\n");
                self.dump.add_width(text);
            }
            Outcome::Found(found) => {
                text.add(": what to write\n");
                self.dump.add_width(text);
                self.add_guesses(text);
                found.add(text, self);
            }
            Outcome::Undefined(runs, candidates) => {
                text.add(": which type are the pages without a defined one to get?\n");
                self.dump.add_width(text);
                self.add_guesses(text);
                for run in runs {
                    add_undefined(text, &self.start, run);
                }
                for candidate in candidates {
                    candidate.add(text);
                }
            }
            Outcome::TooFew(lack) => {
                text.add(": too few pairs\n");
                self.dump.add_width(text);
                self.add_guesses(text);
                self.add_pairs(text, lack.needs);
                for row in &lack.chunks {
                    row.add(text, self.has);
                }
                for row in &lack.granules {
                    row.add(text, self.has);
                }
            }
        }
    }

    fn write(&self, json: &mut Json) {
        json.string("file", self.dump.file);
        self.dump.write_width(json);
        json.flag("found", self.is_found());
        json.begin_list("guesses");
        for fault in &self.faults {
            write_fault(json, &self.start, fault);
        }
        json.end_list();
        json.key("has");
        json.begin_object();
        json.number("pairs", self.has.pairs);
        json.number("valid", self.has.valid);
        json.number("spare", self.has.spare);
        json.end_object();
        write_shares(json, "before", self.before.as_slice());
        match &self.outcome {
            Outcome::Found(found) => {
                json.number("needs", valid_pairs(&found.file));
                found.write(json);
            }
            Outcome::Undefined(runs, candidates) => {
                json.begin_list("undefined");
                for run in runs {
                    write_undefined(json, &self.start, run);
                }
                json.end_list();
                json.begin_list("candidates");
                for candidate in candidates {
                    candidate.write(json);
                }
                json.end_list();
            }
            Outcome::TooFew(lack) => {
                json.number("needs", lack.needs);
                write_rows(json, "chunks", lack.chunks.as_slice(), self.has);
                write_rows(json, "granules", lack.granules.as_slice(), self.has);
            }
        }
    }
}
