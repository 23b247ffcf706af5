use crate::command::{Asked, Question, asked_of, command, form_of, sets_of};
use crate::input::{read, read_map, words_of};
use anyhow::{Error, Result, bail};
use clap::ArgMatches;
use mt_dump::GivenDump;
use mt_memory::Ranges;
use mt_reports::{
    Answer, Form, Named, NamedMap, NoReport, Sides, View, diff_answer, diff_of_cpus_answer,
    error_line, faults_answer, fit_answer, mend_answer, page_answer, ram_answer,
};
use std::env::Env;
use std::fs::Files;
use std::io;
use std::io::{ErrorKind, Input};
use std::process::ExitCode;

/// What the answers come to. Its number is the exit status.
#[derive(Clone, Copy)]
enum Verdict {
    Nothing = 0,
    Something = 1,
    Trouble = 2,
}

fn worse(a: Verdict, b: Verdict) -> Verdict {
    if (a as u8) < b as u8 { b } else { a }
}

// Whether a text was written. If nobody reads standard output any more, nobody wants to know that.
fn is_written<R: Eprint>(rt: &R, done: io::Result<()>) -> bool {
    match done {
        Ok(()) => true,
        Err(error) => {
            if error.kind() != ErrorKind::BrokenPipe {
                let _ = eprintln!(rt; "mtrr-explain: standard output: {error}");
            }
            false
        }
    }
}

/// A file without an answer, and why.
#[derive(Drop)]
struct Trouble<'a> {
    file: &'a str,
    error: Error,
}

/// An answer, or the file without one.
type Told<'a> = Result<Answer, Trouble<'a>>;

// Prints an answer. Returns `None` if no more can be printed.
fn print_answer<R: Print + Eprint>(rt: &R, answer: &Answer) -> Option<Verdict> {
    if !is_written(rt, rt.write_all(answer.text.as_slice())) {
        None
    } else if answer.found {
        Some(Verdict::Something)
    } else {
        Some(Verdict::Nothing)
    }
}

// Prints on standard error why a file has no answer, and for scripts a line of JSON. Returns `None` if no more can be printed.
fn print_trouble<R: Print + Eprint + AllocGlobal>(
    rt: &R,
    form: Form,
    trouble: &Trouble<'_>,
) -> Option<Verdict> {
    let Trouble { file, error } = trouble;
    let _ = eprintln!(rt; "mtrr-explain: {file}: {error:#}");
    if form == Form::Json {
        let alloc = rt.alloc();
        let reason = format!(in alloc; "{error:#}").ok()?;
        let line = error_line(alloc, *file, reason.as_str()).ok()?;
        if !is_written(rt, rt.write_all(line.as_slice())) {
            return None;
        }
    }
    Some(Verdict::Trouble)
}

fn print_told<R: Print + Eprint + AllocGlobal>(
    rt: &R,
    form: Form,
    told: Told<'_>,
) -> Option<Verdict> {
    match told {
        Ok(answer) => print_answer(rt, &answer),
        Err(trouble) => print_trouble(rt, form, &trouble),
    }
}

fn told_of<'a>(file: &'a str, answer: Result<Answer, NoReport>) -> Told<'a> {
    match answer {
        Ok(answer) => Ok(answer),
        Err(error) => Err(Trouble {
            file,
            error: Error::from(error),
        }),
    }
}

fn read_named<'a, R: Files + Input + AllocGlobal>(
    rt: &R,
    asked: &Asked<'_>,
    file: &'a str,
) -> Result<GivenDump, Trouble<'a>> {
    match read(rt, file, asked.garbled) {
        Ok(given) => Ok(given),
        Err(error) => Err(Trouble { file, error }),
    }
}

fn diff_of_files<'a, R: Files + Input + AllocGlobal>(
    rt: &R,
    asked: &Asked<'_>,
    view: View,
    files: (&'a str, &'a str),
) -> Told<'a> {
    let old_given = read_named(rt, asked, files.0)?;
    let new_given = read_named(rt, asked, files.1)?;
    let old = Named {
        file: files.0,
        given: &old_given,
    };
    let new = Named {
        file: files.1,
        given: &new_given,
    };
    told_of(files.0, diff_answer(rt.alloc(), old, new, view, asked.form))
}

// The answer about one of the files.
fn about<'a, R: Files + Input + AllocGlobal>(rt: &R, asked: &Asked<'_>, file: &'a str) -> Told<'a> {
    let alloc = rt.alloc();
    let form = asked.form;
    let given = read_named(rt, asked, file)?;
    let dump = Named {
        file,
        given: &given,
    };
    let answer = match asked.question {
        Question::Faults => faults_answer(alloc, dump, form),
        Question::Page { address } => page_answer(alloc, dump, address, form),
        Question::Fit { spare } => fit_answer(alloc, dump, spare, form),
        Question::Diff { sides, view } => diff_of_cpus_answer(alloc, dump, sides, view, form),
        Question::Ram => ram_answer(alloc, asked.map, dump, form),
        Question::Mend(mended) => {
            mend_answer(alloc, dump, asked.map, &mended.with(asked.sets), form)
        }
    };
    told_of(file, answer)
}

// Answers for each file. One without an answer doesn't keep the others from theirs.
fn tell_each<R: Files + Input + Print + Eprint + AllocGlobal>(
    rt: &R,
    asked: &Asked<'_>,
    files: &[&str],
) -> Verdict {
    let mut verdict = Verdict::Nothing;
    for file in files {
        match print_told(rt, asked.form, about(rt, asked, *file)) {
            Some(found) => verdict = worse(verdict, found),
            None => return Verdict::Trouble,
        }
    }
    verdict
}

fn tell_diff<R: Files + Input + Print + Eprint + AllocGlobal>(
    rt: &R,
    asked: &Asked<'_>,
    (sides, view): (Sides, View),
    files: &[&str],
) -> Result<Verdict> {
    let told = match (sides, files) {
        (Sides::Dumps, [old, new]) => diff_of_files(rt, asked, view, (*old, *new)),
        (Sides::Cpus(_, _) | Sides::Others, [file]) => about(rt, asked, *file),
        _ => bail!("diff compares two files, or with --cpus or --all-cpus processors of one"),
    };
    Ok(print_told(rt, asked.form, told).unwrap_or(Verdict::Trouble))
}

fn tell_files<R: Files + Input + Print + Eprint + AllocGlobal>(
    rt: &R,
    asked: &Asked<'_>,
    files: &[&str],
) -> Result<Verdict> {
    match asked.question {
        Question::Diff { sides, view } => tell_diff(rt, asked, (sides, view), files),
        _ => Ok(tell_each(rt, asked, files)),
    }
}

fn tell<R: Files + Input + Print + Eprint + AllocGlobal>(
    rt: &R,
    matches: &ArgMatches<'_>,
    garbled: &[String],
) -> Result<Verdict> {
    let Some((name, matches)) = matches.subcommand() else {
        return Ok(Verdict::Trouble);
    };
    let Some(files) = matches.get_strs("FILE") else {
        return Ok(Verdict::Trouble);
    };
    let mut ranges = Ranges::new();
    let named = match name {
        "ram" => matches.get_str("MAP"),
        "mend" => matches.get_str("ram"),
        _ => None,
    };
    let file = named.unwrap_or("");
    if named.is_some() {
        match read_map(rt, file, garbled) {
            Ok(found) => ranges = found,
            Err(error) => {
                let trouble = Trouble { file, error };
                let told = print_trouble(rt, form_of(matches), &trouble);
                return Ok(told.unwrap_or(Verdict::Trouble));
            }
        }
    }
    let map = NamedMap {
        file,
        ranges: ranges.as_slice(),
    };
    let sets = if name == "mend" {
        sets_of(rt.alloc(), matches)?
    } else {
        Vec::new(rt.alloc())
    };
    let asked = asked_of(name, matches, map, sets.as_slice(), garbled)?;
    tell_files(rt, &asked, files)
}

fn answer<R: Env + Files + Input + Print + Eprint + AllocGlobal>(rt: &R) -> Result<Verdict> {
    let words = words_of(rt)?;
    match command(rt.alloc())?.try_get_matches_from(words.words.as_slice()) {
        Ok(matches) => tell(rt, &matches, words.garbled.as_slice()),
        Err(error) => {
            let is_help = !error.use_stderr();
            Ok(if is_written(rt, error.print(rt)) && is_help {
                Verdict::Nothing
            } else {
                Verdict::Trouble
            })
        }
    }
}

/// Answers what the arguments ask for. The status is 0 if nothing was found, 1 if something was, and 2 if there was trouble.
pub fn run<R: Env + Files + Input + Print + Eprint + AllocGlobal>(rt: &R) -> ExitCode {
    match answer(rt) {
        Ok(verdict) => ExitCode::from(verdict as u8),
        Err(error) => {
            let _ = eprintln!(rt; "mtrr-explain: {error:#}");
            ExitCode::from(Verdict::Trouble as u8)
        }
    }
}
