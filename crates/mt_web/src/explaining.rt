use crate::told::{PageText, no_memory};
use crate::words::words_in;
use mt_dump::GivenDump;
use mt_reports::{
    Answer, Form, Named, NoReport, Sides, View, diff_answer, diff_of_cpus_answer, faults_answer,
    fit_answer, given_by, page_answer,
};
use mt_text::{decimal, hex64};
use std::alloc::Global;

const TROUBLE: u32 = 2;

const GREATEST_CPU: u64 = 15;

const MOST_PAIRS: u64 = 32;

/// What words ask for, with the names of the inputs that it is asked about.
#[derive(Clone, Copy)]
enum Question<'a> {
    Faults(&'a str),
    Page(&'a str, u64),
    Fit(&'a str, u64),
    Diff(&'a str, &'a str),
    DiffOfCpus(&'a str, u32, u32),
}

/// Why there is no report, and the name of the input that it lies with.
#[derive(Drop)]
struct Trouble<'a> {
    file: &'a str,
    why: NoReport,
}

fn spare_of(word: &str) -> Option<u64> {
    decimal(word.as_bytes(), MOST_PAIRS).ok()
}

fn cpu_of(word: &str) -> Option<u32> {
    Some(decimal(word.as_bytes(), GREATEST_CPU).ok()? as u32)
}

fn faults_question(words: &[String]) -> Option<Question<'_>> {
    match words {
        [file] => Some(Question::Faults(file.as_str())),
        _ => None,
    }
}

fn page_question(words: &[String]) -> Option<Question<'_>> {
    match words {
        [address, file] => Some(Question::Page(file.as_str(), hex64(address.as_bytes()).ok()?)),
        _ => None,
    }
}

fn fit_question(words: &[String]) -> Option<Question<'_>> {
    match words {
        [file] => Some(Question::Fit(file.as_str(), 0)),
        [option, spare, file] if option.as_str() == "--spare" => {
            let spare = spare_of(spare.as_str())?;
            Some(Question::Fit(file.as_str(), spare))
        }
        _ => None,
    }
}

fn diff_question(words: &[String]) -> Option<Question<'_>> {
    match words {
        [old, new] => Some(Question::Diff(old.as_str(), new.as_str())),
        [option, old, new, file] if option.as_str() == "--cpus" => {
            let old = cpu_of(old.as_str())?;
            let new = cpu_of(new.as_str())?;
            Some(Question::DiffOfCpus(file.as_str(), old, new))
        }
        _ => None,
    }
}

fn question_of(words: &[String]) -> Option<Question<'_>> {
    let (name, words) = words.split_first()?;
    match name.as_str() {
        "faults" => faults_question(words),
        "page" => page_question(words),
        "fit" => fit_question(words),
        "diff" => diff_question(words),
        _ => None,
    }
}

fn given_named<'a>(file: &'a str, bytes: &[u8]) -> Result<GivenDump, Trouble<'a>> {
    match given_by(bytes) {
        Ok(given) => Ok(given),
        Err(why) => Err(Trouble { file, why }),
    }
}

fn named<'a>(file: &'a str, answer: Result<Answer, NoReport>) -> Result<Answer, Trouble<'a>> {
    match answer {
        Ok(answer) => Ok(answer),
        Err(why) => Err(Trouble { file, why }),
    }
}

fn dump<'a>(file: &'a str, given: &'a GivenDump) -> Named<'a> {
    Named { file, given }
}

fn diff<'a>(
    alloc: Global,
    old: &'a str,
    new: &'a str,
    first: &[u8],
    second: &[u8],
) -> Result<Answer, Trouble<'a>> {
    let first = given_named(old, first)?;
    let second = given_named(new, second)?;
    let answer = diff_answer(
        alloc,
        dump(old, &first),
        dump(new, &second),
        View::All,
        Form::Json,
    );
    named(old, answer)
}

// The answer about the first input, or for `Diff` about both.
fn answer<'a>(
    alloc: Global,
    question: Question<'a>,
    first: &[u8],
    second: &[u8],
) -> Result<Answer, Trouble<'a>> {
    match question {
        Question::Diff(old, new) => diff(alloc, old, new, first, second),
        Question::Faults(file) => {
            let given = given_named(file, first)?;
            named(file, faults_answer(alloc, dump(file, &given), Form::Json))
        }
        Question::Page(file, address) => {
            let given = given_named(file, first)?;
            let dump = dump(file, &given);
            named(file, page_answer(alloc, dump, address, Form::Json))
        }
        Question::Fit(file, spare) => {
            let given = given_named(file, first)?;
            named(
                file,
                fit_answer(alloc, dump(file, &given), spare, Form::Json),
            )
        }
        Question::DiffOfCpus(file, old, new) => {
            let given = given_named(file, first)?;
            let dump = dump(file, &given);
            named(
                file,
                diff_of_cpus_answer(alloc, dump, Sides::Cpus(old, new), View::All, Form::Json),
            )
        }
    }
}

fn trouble_told(alloc: Global, trouble: &Trouble<'_>) -> PageText {
    match format!(in alloc; "{}: {}\n", trouble.file, trouble.why) {
        Ok(text) => PageText {
            text: text.into_bytes(),
            number: TROUBLE,
        },
        Err(_) => no_memory(alloc),
    }
}

fn told_of(alloc: Global, answer: Result<Answer, Trouble<'_>>) -> PageText {
    match answer {
        Ok(answer) => PageText {
            text: answer.text,
            number: if answer.found { 1 } else { 0 },
        },
        Err(
            Trouble {
                why: NoReport::Memory(_),
                ..
            },
        ) => no_memory(alloc),
        Err(trouble) => trouble_told(alloc, &trouble),
    }
}

fn usage_told(alloc: Global) -> PageText {
    match Vec::from_slice(alloc, b"usage\n") {
        Ok(text) => PageText {
            text,
            number: TROUBLE,
        },
        Err(_) => no_memory(alloc),
    }
}

/// The report that the words in a text ask for, as JSON, about one input or two.
pub(crate) fn explained(alloc: Global, words: &[u8], first: &[u8], second: &[u8]) -> PageText {
    let Ok(words) = words_in(alloc, words) else {
        return no_memory(alloc);
    };
    match question_of(words.as_slice()) {
        Some(question) => told_of(alloc, answer(alloc, question, first, second)),
        None => usage_told(alloc),
    }
}
