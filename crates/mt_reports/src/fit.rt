use crate::NoReport;
use crate::object::Json;
use crate::registers::add_register;
use crate::report::{Answer, Form, Named, Report, answered};
use crate::text::Text;
use mt_explain::{Unfit, least_by_chunk, rounding_of, steps};
use mt_kinds::PAGE_BYTES;
use mt_ranges::is_valid;
use mt_regs::RegFile;
use std::alloc::{AllocError, Global};

// The log of the bytes of a page, which is the least chunk too.
const PAGE_LOG: u8 = 12;

// The largest granule has 2^28 pages.
const PAST_GRANULES: u8 = 29;

/// The pairs that a file has, how many of them are valid, and how many are to stay free.
#[derive(Clone, Copy)]
pub struct Budget {
    pub pairs: u64,
    pub valid: u64,
    pub spare: u64,
}

/// The command whose option has a size.
#[derive(Clone, Copy, PartialEq, Eq)]
pub enum Way {
    Tidy,
    Gran,
    Mend,
    /// None: there is no file with these types yet.
    Round,
}

/// What is needed from one chunk size on, or by granules of one size.
#[derive(Clone, Copy)]
pub struct Row {
    way: Way,
    // the log of the size's bytes
    log: u8,
    needs: u64,
    // how many pages granules take from WB, if the file has so many pairs
    lost: Option<u64>,
}

// How many pairs the types of processor 0 need.
#[derive(Drop)]
struct Fit<'a> {
    dump: Named<'a>,
    has: Budget,
    // the least number at any chunk size
    needs: u64,
    chunks: Vec<Row>,
    // empty if the types fit as they are
    granules: Vec<Row>,
}

/// How many pairs of a file are valid.
pub fn valid_pairs(f: &RegFile) -> u64 {
    let mut valid = 0u64;
    for pair in f.pairs.as_slice() {
        if is_valid(*pair) {
            valid = valid.saturating_add(1);
        }
    }
    valid
}

impl Budget {
    pub fn of(f: &RegFile, spare: u64) -> Budget {
        Budget {
            pairs: f.pairs.len() as u64,
            valid: valid_pairs(f),
            spare,
        }
    }

    // How many pairs can be used.
    fn usable(&self) -> u64 {
        self.pairs.saturating_sub(self.spare)
    }

    // How many pairs stay free, if so many can be used.
    fn free_after(&self, needs: u64) -> Option<u64> {
        if needs <= self.usable() {
            Some(self.pairs.saturating_sub(needs))
        } else {
            None
        }
    }
}

fn refused(alloc: Global, msr: u32) -> NoReport {
    let mut register = Text::new(alloc);
    add_register(&mut register, msr);
    match register.finish() {
        Ok(register) => NoReport::Refused(register),
        Err(error) => NoReport::Memory(error),
    }
}

/// Why a file has no fewest pairs.
pub fn no_fit(alloc: Global, why: Unfit) -> NoReport {
    match why {
        Unfit::Disabled => NoReport::Disabled,
        Unfit::Refused(fault) => refused(alloc, fault.msr),
    }
}

/// A row for each size from which on the least number is another.
pub fn chunks_of(alloc: Global, way: Way, least: &[u64]) -> Result<Vec<Row>, AllocError> {
    let mut rows = Vec::new(alloc);
    for run in steps(alloc, least)?.as_slice() {
        rows.push(Row {
            way,
            log: (run.first % 64) as u8 + PAGE_LOG,
            needs: run.mark,
            lost: None,
        })?;
    }
    Ok(rows)
}

/// A row for each size at which the number changes that granules need.
pub fn granules_of(alloc: Global, way: Way, f: &RegFile) -> Result<Vec<Row>, NoReport> {
    let mut rows = Vec::new(alloc);
    let mut last = None;
    for g in 1..PAST_GRANULES {
        let now = match rounding_of(f, g) {
            Ok(now) => now,
            Err(why) => return Err(no_fit(alloc, why)),
        };
        if last != Some(now.pairs) {
            rows.push(Row {
                way,
                log: g + PAGE_LOG,
                needs: now.pairs,
                lost: now.lost,
            })?;
        }
        last = Some(now.pairs);
    }
    Ok(rows)
}

fn least_of(numbers: &[u64]) -> u64 {
    let mut least = u64::MAX;
    for number in numbers {
        least = least.min(*number);
    }
    least
}

fn fit_of<'a>(alloc: Global, dump: Named<'a>, spare: u64) -> Result<Fit<'a>, NoReport> {
    let f = dump.given.dump.first_file();
    let numbers = match least_by_chunk(f) {
        Ok(numbers) => numbers,
        Err(why) => return Err(no_fit(alloc, why)),
    };
    let has = Budget::of(f, spare);
    let needs = least_of(numbers.as_slice());
    let granules = match has.free_after(needs) {
        Some(_) => Vec::new(alloc),
        None => granules_of(alloc, Way::Gran, f)?,
    };
    Ok(Fit {
        dump,
        has,
        needs,
        chunks: chunks_of(alloc, Way::Tidy, numbers.as_slice())?,
        granules,
    })
}

/// How many pairs the types of processor 0 need, where `spare` pairs are to stay free. Something is found if there are too few.
/// Fails with `Refused` or with `Disabled`.
pub fn fit_answer(
    alloc: Global,
    dump: Named<'_>,
    spare: u64,
    form: Form,
) -> Result<Answer, NoReport> {
    answered(alloc, &fit_of(alloc, dump, spare)?, form)
}

impl Row {
    fn bytes(&self) -> u64 {
        1 << (self.log % 64)
    }

    fn pages(&self) -> u64 {
        self.bytes() / PAGE_BYTES
    }

    // Adds the command of `mtrr` that finds the registers.
    fn add_command(&self, text: &mut Text, spare: u64) {
        match self.way {
            Way::Tidy => {
                text.add_decimal("mtrr tidy spare=", spare);
                text.add(" chunk=");
                text.add_hex(self.bytes(), 1);
            }
            Way::Gran => {
                text.add("mtrr gran ");
                text.add_hex(self.bytes(), 1);
                text.add_decimal(" spare=", spare);
                text.add(" chunk=10000000000000");
            }
            Way::Mend => {
                text.add_decimal("--spare ", spare);
                text.add(" --chunk ");
                text.add_hex(self.bytes(), 1);
            }
            Way::Round => {}
        }
    }

    fn is_of_granules(&self) -> bool {
        self.way == Way::Gran || self.way == Way::Round
    }

    fn has_command(&self, has: Budget) -> bool {
        self.way != Way::Round && has.free_after(self.needs).is_some()
    }

    pub fn add(&self, text: &mut Text, has: Budget) {
        text.add(if self.is_of_granules() {
            "  granules of "
        } else {
            "  chunk "
        });
        text.add_size(self.pages());
        text.add_decimal(": ", self.needs);
        match has.free_after(self.needs) {
            Some(free) => {
                text.add_decimal(" needed, ", free);
                text.add(" free");
            }
            None => {
                text.add_decimal(" needed, ", self.needs.saturating_sub(has.usable()));
                text.add(" too many");
            }
        }
        if let Some(lost) = self.lost {
            text.add(", ");
            text.add_pages(lost);
            text.add(" lose WB");
        }
        if self.has_command(has) {
            text.add(": ");
            self.add_command(text, has.spare);
        }
        text.add("\n");
    }

    fn write(&self, json: &mut Json, has: Budget) {
        let free = has.free_after(self.needs);
        json.begin_object();
        json.hex(
            if self.is_of_granules() {
                "granule"
            } else {
                "chunk"
            },
            self.bytes(),
            1,
        );
        json.part.add_size(self.pages());
        json.text("size");
        json.number("bytes", self.bytes());
        json.number("needs", self.needs);
        json.optional_number("free", free);
        if self.is_of_granules() {
            json.optional_number("lost", self.lost);
            json.bytes("lost_bytes", self.lost);
        }
        if self.has_command(has) {
            self.add_command(&mut json.part, has.spare);
            json.text("command");
        } else {
            json.null("command");
        }
        json.end_object();
    }
}

/// Writes the list of rows.
pub fn write_rows(json: &mut Json, name: &str, rows: &[Row], has: Budget) {
    json.begin_list(name);
    for row in rows {
        row.write(json, has);
    }
    json.end_list();
}

impl Report for Fit<'_> {
    fn is_found(&self) -> bool {
        self.has.free_after(self.needs).is_none()
    }

    fn add(&self, text: &mut Text) {
        text.add(self.dump.file);
        text.add_decimal(": pairs: ", self.has.pairs);
        text.add_decimal(", valid: ", self.has.valid);
        text.add_decimal(", needed: ", self.needs);
        text.add_decimal(", to stay free: ", self.has.spare);
        text.add("\n");
        for row in &self.chunks {
            row.add(text, self.has);
        }
        for row in &self.granules {
            row.add(text, self.has);
        }
    }

    fn write(&self, json: &mut Json) {
        json.string("file", self.dump.file);
        self.dump.write_width(json);
        json.key("has");
        json.begin_object();
        json.number("pairs", self.has.pairs);
        json.number("valid", self.has.valid);
        json.number("spare", self.has.spare);
        json.end_object();
        json.number("needs", self.needs);
        json.flag("fits", !self.is_found());
        write_rows(json, "chunks", self.chunks.as_slice(), self.has);
        write_rows(json, "granules", self.granules.as_slice(), self.has);
    }
}
