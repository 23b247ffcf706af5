use anyhow::{Result, bail};
use clap::{Arg, ArgAction, ArgMatches, Command};
use mt_kinds::MemType;
use mt_mend::Wish;
use mt_reports::{Form, Mending, NamedMap, Sides, Style, View, type_of, wish_of};
use mt_text::{decimal, hex64};
use std::alloc::{AllocError, Global};

// The greatest number of a processor.
const GREATEST_CPU: u64 = 15;

// No file has more pairs.
const MOST_PAIRS: u64 = 32;

// The kit's line is that of the file TOOLCHAIN.
const VERSION: &str = "1.0.0\nproved by rattle-kit-13f logic dac8208d650f15bf";

const STATUSES: &str = "Exit status:
  0  no fault, no difference, types that fit the memory, enough pairs, or registers to write
  1  a fault, a difference, a page with no defined type or an unfit one, or too few pairs
  2  wrong usage, or a file without an answer: standard error says why";

const DUMPS: &str = "Dumps, as mtrr reads them; - is standard input";

const OLD_AND_NEW: &str =
    "The old and the new dump, or one with --cpus or --all-cpus; - is standard input";

/// What is asked.
#[derive(Clone, Copy)]
pub enum Question {
    /// Every fault of each file.
    Faults,
    /// What gives this page its type.
    Page { address: u64 },
    /// How many pairs the types of each file need, where so many are to stay free.
    Fit { spare: u64 },
    /// Which memory of a map has a type that doesn't fit.
    Ram,
    /// What differs between two files, or between processors of one.
    Diff { sides: Sides, view: View },
    /// What to write.
    Mend(Mended),
}

/// What is asked of a mending, but for its ranges.
#[derive(Clone, Copy)]
pub struct Mended {
    take: Option<MemType>,
    like: Option<u32>,
    spare: u8,
    chunk: u64,
    style: Style,
}

impl Mended {
    /// The same with ranges.
    pub fn with<'a>(&self, sets: &'a [Wish]) -> Mending<'a> {
        Mending {
            sets,
            like: self.like,
            take: self.take,
            spare: self.spare,
            chunk: self.chunk,
            style: self.style,
        }
    }
}

/// What the words of a command line ask for, but for the files.
#[derive(Clone, Copy)]
pub struct Asked<'a> {
    pub question: Question,
    pub form: Form,
    /// The memory map that the words name; without one it is empty.
    pub map: NamedMap<'a>,
    /// The ranges that are to have a type.
    pub sets: &'a [Wish],
    /// The words that aren't UTF-8, with U+FFFD for what isn't.
    pub garbled: &'a [String],
}

// A command, or none if an allocation failed. Each `?` on one takes seconds to check, so they are all in `with_arg` and `with_command`.
type Made<'a> = Result<Command<'a>, AllocError>;

fn with_arg<'a>(command: Made<'a>, arg: Arg<'a>) -> Made<'a> {
    command?.arg(arg)
}

fn with_command<'a>(command: Made<'a>, subcommand: Made<'a>) -> Made<'a> {
    let subcommand = subcommand?;
    command?.subcommand(subcommand)
}

fn positional<'a>(alloc: Global, name: &'static str, help: &'static str) -> Arg<'a> {
    Arg::new(alloc, name).required(true).help(help)
}

fn option<'a>(alloc: Global, name: &'static str, help: &'static str) -> Arg<'a> {
    Arg::new(alloc, name).long(name).help(help)
}

fn flag<'a>(alloc: Global, name: &'static str, help: &'static str) -> Arg<'a> {
    option(alloc, name, help).action(ArgAction::SetTrue)
}

fn files<'a>(alloc: Global, help: &'static str) -> Arg<'a> {
    positional(alloc, "FILE", help)
        .num_args(1..)
        .action(ArgAction::Append)
}

fn subcommand<'a>(alloc: Global, name: &'static str, about: &'static str) -> Made<'a> {
    Ok(Command::new(alloc, name).about(about))
}

fn faults<'a>(alloc: Global) -> Made<'a> {
    let about = "Print every fault, unlike processors, and what else is worth knowing";
    with_arg(subcommand(alloc, "faults", about), files(alloc, DUMPS))
}

fn page<'a>(alloc: Global) -> Made<'a> {
    let about = "Print the types of one page, and the rule and registers that give them";
    let address = positional(alloc, "ADDR", "A physical address, in hexadecimal");
    let command = with_arg(subcommand(alloc, "page", about), address);
    with_arg(command, files(alloc, DUMPS))
}

fn diff<'a>(alloc: Global) -> Made<'a> {
    let about = "Print what differs between two dumps, or between processors of one";
    let cpus = option(alloc, "cpus", "Compare two processors of one dump")
        .num_args(2)
        .value_name("CPU")
        .action(ArgAction::Append);
    let all = flag(
        alloc,
        "all-cpus",
        "Compare each processor of one dump with processor 0",
    );
    let types = flag(alloc, "types", "Compare the types of pages alone");
    let command = with_arg(subcommand(alloc, "diff", about), cpus);
    let command = with_arg(with_arg(command, all), types);
    with_arg(command, files(alloc, OLD_AND_NEW))
}

fn fit<'a>(alloc: Global) -> Made<'a> {
    let about =
        "Print how many pairs processor 0's types need, and the mtrr command that finds them";
    let spare = option(alloc, "spare", "Leave N pairs free, 0 to 32; by default 0").value_name("N");
    let command = with_arg(subcommand(alloc, "fit", about), spare);
    with_arg(command, files(alloc, DUMPS))
}

fn ram<'a>(alloc: Global) -> Made<'a> {
    let about = "Print which memory has a type that doesn't fit, and the registers that give it";
    let map = positional(
        alloc,
        "MAP",
        "A memory map: ranges of bytes and kinds, or a log that shows one",
    );
    let command = with_arg(subcommand(alloc, "ram", about), map);
    with_arg(command, files(alloc, DUMPS))
}

fn valued<'a>(
    alloc: Global,
    name: &'static str,
    value: &'static str,
    help: &'static str,
) -> Arg<'a> {
    option(alloc, name, help).value_name(value)
}

fn mend<'a>(alloc: Global) -> Made<'a> {
    let about =
        "Print which registers to write, so that pages get other types and the rest keep theirs";
    let set = valued(
        alloc,
        "set",
        "FIRST-LAST=TYPE",
        "Give these bytes the type; may be repeated",
    );
    let ram = valued(alloc, "ram", "MAP", "Give the RAM of this memory map WB");
    let take = valued(
        alloc,
        "take",
        "TYPE",
        "Give pages with no defined type this one",
    );
    let like = valued(
        alloc,
        "like",
        "CPU",
        "Give all processors the registers of this one",
    );
    let spare = valued(
        alloc,
        "spare",
        "N",
        "Leave N pairs free, 0 to 32; by default 0",
    );
    let chunk = valued(
        alloc,
        "chunk",
        "HEX",
        "Bound overlaps, as mtrr tidy does; by default not",
    );
    let form = valued(
        alloc,
        "as",
        "FORM",
        "Print dump, wrmsr, c, edk2 or coreboot",
    );
    let command = with_arg(
        subcommand(alloc, "mend", about),
        set.action(ArgAction::Append),
    );
    let command = with_arg(with_arg(command, ram), take);
    let command = with_arg(with_arg(command, like), spare);
    let command = with_arg(with_arg(command, chunk), form);
    with_arg(
        command,
        positional(
            alloc,
            "FILE",
            "A dump, as mtrr reads it; - is standard input",
        ),
    )
}

fn root<'a>(alloc: Global) -> Made<'a> {
    Command::new(alloc, "mtrr-explain")
        .version(VERSION)
        .about("Explains dumps of the memory type registers of x86 processors")
        .after_help(STATUSES)
        .subcommand_required(true)
        .arg_required_else_help(true)
        .bin_name("mtrr-explain")
}

/// The command line.
pub fn command<'a>(alloc: Global) -> Result<Command<'a>, AllocError> {
    let json = flag(alloc, "json", "Print one JSON object for each answer").global(true);
    let command = with_arg(root(alloc), json);
    let command = with_command(command, faults(alloc));
    let command = with_command(command, page(alloc));
    let command = with_command(command, diff(alloc));
    let command = with_command(command, fit(alloc));
    let command = with_command(command, ram(alloc));
    with_command(command, mend(alloc))
}

fn page_question(matches: &ArgMatches<'_>) -> Result<Question> {
    let word = matches.get_str("ADDR").unwrap_or("");
    match hex64(word.as_bytes()) {
        Ok(address) => Ok(Question::Page { address }),
        Err(_) => bail!("no hexadecimal address of 1 to 16 digits: {word}"),
    }
}

fn cpu_number(word: &str) -> Result<u32> {
    match decimal(word.as_bytes(), GREATEST_CPU) {
        Ok(number) => Ok(number as u32),
        Err(_) => bail!("no processor from 0 to 15: {word}"),
    }
}

fn sides_of(matches: &ArgMatches<'_>) -> Result<Sides> {
    match (matches.get_strs("cpus"), matches.get_flag("all-cpus")) {
        (None, false) => Ok(Sides::Dumps),
        (None, true) => Ok(Sides::Others),
        (Some([old, new]), false) => Ok(Sides::Cpus(cpu_number(*old)?, cpu_number(*new)?)),
        (Some(_), true) => bail!("--cpus and --all-cpus are both given"),
        (Some(_), false) => bail!("--cpus is given twice"),
    }
}

fn diff_question(matches: &ArgMatches<'_>) -> Result<Question> {
    Ok(Question::Diff {
        sides: sides_of(matches)?,
        view: if matches.get_flag("types") {
            View::Types
        } else {
            View::All
        },
    })
}

fn spare_of(matches: &ArgMatches<'_>) -> Result<u64> {
    let word = matches.get_str("spare").unwrap_or("0");
    match decimal(word.as_bytes(), MOST_PAIRS) {
        Ok(spare) => Ok(spare),
        Err(_) => bail!("no number of pairs from 0 to 32: {word}"),
    }
}

fn fit_question(matches: &ArgMatches<'_>) -> Result<Question> {
    let spare = spare_of(matches)?;
    Ok(Question::Fit { spare })
}

fn taken_of(matches: &ArgMatches<'_>) -> Result<Option<MemType>> {
    let Some(word) = matches.get_str("take") else {
        return Ok(None);
    };
    match type_of(word) {
        Some(kind) => Ok(Some(kind)),
        None => bail!("no type UC, WC, WT, WP or WB: {word}"),
    }
}

fn chunk_of(matches: &ArgMatches<'_>) -> Result<u64> {
    let word = matches.get_str("chunk").unwrap_or("10000000000000");
    match hex64(word.as_bytes()) {
        Ok(chunk) => Ok(chunk),
        Err(_) => bail!("no hexadecimal number of 1 to 16 digits: {word}"),
    }
}

fn style_of(matches: &ArgMatches<'_>) -> Result<Style> {
    let style = match matches.get_str("as").unwrap_or("") {
        "" => return Ok(Style::Report),
        "dump" => Style::Dump,
        "wrmsr" => Style::Wrmsr,
        "c" => Style::C,
        "edk2" => Style::Edk2,
        "coreboot" => Style::Coreboot,
        word => bail!("no form dump, wrmsr, c, edk2 or coreboot: {word}"),
    };
    if matches.get_flag("json") {
        bail!("--as and --json are both given");
    }
    Ok(style)
}

fn mend_question(matches: &ArgMatches<'_>) -> Result<Question> {
    let like = match matches.get_str("like") {
        Some(word) => Some(cpu_number(word)?),
        None => None,
    };
    Ok(Question::Mend(Mended {
        take: taken_of(matches)?,
        like,
        spare: spare_of(matches)?.min(MOST_PAIRS) as u8,
        chunk: chunk_of(matches)?,
        style: style_of(matches)?,
    }))
}

/// The ranges that are to have a type.
pub fn sets_of(alloc: Global, matches: &ArgMatches<'_>) -> Result<Vec<Wish>> {
    let mut sets = Vec::new(alloc);
    let words: &[&str] = matches.get_strs("set").unwrap_or(&[]);
    for word in words {
        match wish_of(*word) {
            Ok(wish) => sets.push(wish)?,
            Err(why) => bail!("--set {word}: {why}"),
        }
    }
    Ok(sets)
}

fn question_of(name: &str, matches: &ArgMatches<'_>) -> Result<Question> {
    match name {
        "faults" => Ok(Question::Faults),
        "diff" => diff_question(matches),
        "fit" => fit_question(matches),
        "ram" => Ok(Question::Ram),
        "mend" => mend_question(matches),
        _ => page_question(matches),
    }
}

/// How the answers are printed.
pub fn form_of(matches: &ArgMatches<'_>) -> Form {
    if matches.get_flag("json") {
        Form::Json
    } else {
        Form::Text
    }
}

/// What a command and its words ask for.
pub fn asked_of<'a>(
    name: &str,
    matches: &ArgMatches<'_>,
    map: NamedMap<'a>,
    sets: &'a [Wish],
    garbled: &'a [String],
) -> Result<Asked<'a>> {
    let form = form_of(matches);
    Ok(Asked {
        question: question_of(name, matches)?,
        form,
        map,
        sets,
        garbled,
    })
}
