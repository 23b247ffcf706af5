use crate::NoReport;
use crate::object::Json;
use crate::text::Text;
use mt_dump::GivenDump;
use mt_explain::{Cpus, groups_of};
use mt_regs::RegFile;
use std::alloc::{AllocError, Global};

// What the members of an object mean. It rises if one goes or means something else.
const FORMAT: u64 = 1;

/// No dump has more processors.
pub const MOST_CPUS: u32 = 16;

/// What a report is for.
#[derive(Clone, Copy, PartialEq, Eq)]
pub enum Form {
    /// Lines for a person.
    Text,
    /// One line of JSON.
    Json,
}

/// The bytes of a report, and whether something was found.
#[derive(Drop)]
pub struct Answer {
    pub text: Vec<u8>,
    pub found: bool,
}

/// A dump, and the name of its file.
#[derive(Clone, Copy)]
pub struct Named<'a> {
    pub file: &'a str,
    pub given: &'a GivenDump,
}

impl<'a> Named<'a> {
    /// The register files of the processors.
    pub fn files(&self) -> &'a [RegFile] {
        let dump = &self.given.dump;
        dump.files.as_slice()
    }

    /// The file of the processor of this number, if there is one.
    pub fn file_at(&self, cpu: u32) -> Option<&'a RegFile> {
        let dump = &self.given.dump;
        dump.file_at(cpu)
    }

    /// The numbers of equal processors, in a list for each group.
    pub fn groups(&self, alloc: Global) -> Result<Vec<Cpus>, AllocError> {
        let dump = &self.given.dump;
        dump.is_dump(); // a fact for the proof
        groups_of(alloc, dump.files.as_slice())
    }

    /// The file of a group of processors.
    pub fn file_of(&self, cpus: &[u32]) -> &'a RegFile {
        let dump = &self.given.dump;
        match cpus {
            [first, ..] => dump.file_at(*first).unwrap_or(dump.first_file()),
            [] => dump.first_file(),
        }
    }

    pub fn width(&self) -> u8 {
        self.given.dump.first_file().maxphy
    }

    /// Adds a line if the address width was assumed.
    pub fn add_width(&self, text: &mut Text) {
        if !self.given.has_width {
            text.add_decimal(
                "  the dump has no line maxphyaddr, so ",
                self.width() as u64,
            );
            text.add(" address bits were assumed\n");
        }
    }

    /// Writes the members about the address width.
    pub fn write_width(&self, json: &mut Json) {
        json.number("width", self.width() as u64);
        json.flag("width_assumed", !self.given.has_width);
    }
}

/// What was found out, and how it is printed.
pub trait Report {
    fn is_found(&self) -> bool;

    /// Adds the lines for a person.
    fn add(&self, text: &mut Text);

    /// Writes the members of the object.
    fn write(&self, json: &mut Json);
}

// The beginning of an object.
fn begun(alloc: Global) -> Json {
    let mut json = Json::new(alloc);
    json.begin_object();
    json.number("format", FORMAT);
    json
}

/// The line of JSON for a file without an answer.
pub fn error_line(alloc: Global, file: &str, error: &str) -> Result<Vec<u8>, AllocError> {
    let mut json = begun(alloc);
    json.string("file", file);
    json.string("error", error);
    json.end_object();
    json.finish()
}

pub fn answered<R: Report>(alloc: Global, report: &R, form: Form) -> Result<Answer, NoReport> {
    let text = match form {
        Form::Json => {
            let mut json = begun(alloc);
            report.write(&mut json);
            json.end_object();
            json.finish()?
        }
        Form::Text => {
            let mut text = Text::new(alloc);
            report.add(&mut text);
            text.finish()?.into_bytes()
        }
    };
    Ok(Answer {
        text,
        found: report.is_found(),
    })
}
