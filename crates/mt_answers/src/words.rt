ghost use Rattle.std.specs.Prelude.{◌≡◌, ◌≤◌, ◌<◌, ◌+◌, ◌^◌, map, string_bytes, IfSome, MatchOption};
ghost use Rattle.std.specs.Result.{result_ok};
ghost use Rattle.mt_text.specs.Number.{decimal_number};
ghost use Rattle.mt_answers.specs.CommandLine.{behind, command_of, command_of_four, command_of_one, command_of_three, command_of_two, gran_with, index_of, log_of, most_accesses, number_of, of_dump, option_of, options_with, options_with_both, private_with, proc_with, tidy_with};

use crate::{Command, DumpCommand, SerialCommand, ThreadedCommand, TidyOption, TidyOptions};
use mt_gran::granule_log;
use mt_text::{decimal, hex64};

const USUAL_SPARE: u8 = 1;

const USUAL_CHUNK: u64 = 0x1000_0000;

const USUAL_OPTIONS: TidyOptions = TidyOptions {
    spare: USUAL_SPARE,
    chunk: USUAL_CHUNK,
};

const MOST_SPARE: u64 = 32;

const MOST_PROCESSORS: u64 = 16;

const ADDRESSES: u64 = 1 << 52;

const MOST_ACCESSES: u64 = 4096;

fn of_dump(command: Option<DumpCommand>) -> Option<Command>
    ensures { result ≡ of_dump command }
{
    match command {
        Some(command) => Some(Command::Serial(SerialCommand::Dump(command))),
        None => None,
    }
}

fn command_of_one(name: &[u8]) -> Option<Command>
    ensures { result ≡ command_of_one name.now }
{
    if name == b"check".as_slice() {
        Some(Command::Serial(SerialCommand::Dump(DumpCommand::Check)))
    } else if name == b"show".as_slice() {
        Some(Command::Serial(SerialCommand::Dump(DumpCommand::Show)))
    } else if name == b"types".as_slice() {
        Some(Command::Serial(SerialCommand::Dump(DumpCommand::Types)))
    } else if name == b"tidy".as_slice() {
        of_dump(tidy_with(Some(USUAL_OPTIONS)))
    } else if name == b"replay".as_slice() {
        Some(Command::Threaded(ThreadedCommand::Replay))
    } else if name == b"--help".as_slice() {
        Some(Command::Serial(SerialCommand::Help))
    } else if name == b"--version".as_slice() {
        Some(Command::Serial(SerialCommand::Version))
    } else {
        None
    }
}

// What stands behind a text at the front of a word.
fn behind<'a>(text: &[u8], word: &'a [u8]) -> Option<&'a [u8]>
    ensures { MatchOption result (behind text.now word.now ≡ None) (λ x. behind text.now word.now ≡ Some x.now) }
{
    word.strip_prefix(text)
}

// An option of `tidy`.
fn option_of(word: &[u8]) -> Option<TidyOption>
    ensures { result ≡ option_of word.now }
{
    if let Some(digits) = behind(b"spare=", word) {
        return match decimal(digits, MOST_SPARE) {
            Ok(spare) => Some(TidyOption::Spare(spare as u8)),
            Err(_) => None,
        };
    }
    match behind(b"chunk=", word) {
        Some(digits) => match hex64(digits) {
            Ok(chunk) => Some(TidyOption::Chunk(chunk)),
            Err(_) => None,
        },
        None => None,
    }
}

fn options_with(option: Option<TidyOption>) -> Option<TidyOptions>
    ensures { result ≡ options_with option }
{
    match option {
        Some(TidyOption::Spare(spare)) => Some(TidyOptions {
            spare,
            chunk: USUAL_CHUNK,
        }),
        Some(TidyOption::Chunk(chunk)) => Some(TidyOptions {
            spare: USUAL_SPARE,
            chunk,
        }),
        None => None,
    }
}

fn options_with_both(first: Option<TidyOption>, second: Option<TidyOption>) -> Option<TidyOptions>
    ensures { result ≡ options_with_both first second }
{
    match (first, second) {
        (Some(TidyOption::Spare(spare)), Some(TidyOption::Chunk(chunk))) => {
            Some(TidyOptions { spare, chunk })
        }
        (Some(TidyOption::Chunk(chunk)), Some(TidyOption::Spare(spare))) => {
            Some(TidyOptions { spare, chunk })
        }
        _ => None,
    }
}

fn tidy_with(options: Option<TidyOptions>) -> Option<DumpCommand>
    ensures { result ≡ tidy_with options }
{
    let TidyOptions { spare, chunk } = options?;
    Some(DumpCommand::Tidy { spare, chunk })
}

fn log_of(size: &[u8]) -> Option<u8>
    ensures { result ≡ log_of size.now }
{
    match hex64(size) {
        Ok(size) => granule_log(size),
        Err(_) => None,
    }
}

// `gran` has a size before the options of `tidy`.
fn gran_with(size: &[u8], options: Option<TidyOptions>) -> Option<DumpCommand>
    ensures { result ≡ gran_with size.now options }
{
    let log = log_of(size)?;
    let TidyOptions { spare, chunk } = options?;
    Some(DumpCommand::Gran { log, spare, chunk })
}

// A decimal number of 64 bits.
fn number_of(word: &[u8]) -> Option<u64>
    ensures { result ≡ number_of word.now }
{
    decimal(word, u64::MAX).ok()
}

fn private_with(cpus: &[u8], number: &[u8], accesses: &[u8]) -> Option<Command>
    ensures { result ≡ private_with (number_of cpus.now) (number_of number.now) (result_ok (decimal_number accesses.now most_accesses)) }
{
    let (Some(cpus), Some(n), Ok(accesses)) = (
        number_of(cpus),
        number_of(number),
        decimal(accesses, MOST_ACCESSES),
    ) else {
        return None;
    };
    if cpus >= 1 && cpus <= MOST_PROCESSORS {
        Some(Command::Threaded(ThreadedCommand::Private {
            cpus: cpus as u32,
            n,
            accesses: accesses as u32,
        }))
    } else {
        None
    }
}

fn proc_with(number: &[u8]) -> Option<Command>
    ensures { result ≡ proc_with (decimal_number number.now 16) }
{
    match decimal(number, MOST_PROCESSORS) {
        Ok(cpus) if cpus > 0 => Some(Command::Threaded(ThreadedCommand::Proc(cpus as u32))),
        _ => None,
    }
}

fn command_of_two(name: &[u8], option: &[u8]) -> Option<Command>
    ensures { result ≡ command_of_two name.now option.now }
{
    if name == b"tidy".as_slice() {
        of_dump(tidy_with(options_with(option_of(option))))
    } else if name == b"gran".as_slice() {
        of_dump(gran_with(option, Some(USUAL_OPTIONS)))
    } else if name == b"make".as_slice() {
        match number_of(option) {
            Some(n) => Some(Command::Serial(SerialCommand::Make(n))),
            None => None,
        }
    } else if name == b"big".as_slice() {
        match number_of(option) {
            Some(n) => Some(Command::Threaded(ThreadedCommand::Big(n))),
            None => None,
        }
    } else if name == b"proc".as_slice() {
        proc_with(option)
    } else {
        None
    }
}

// One decimal digit from 0 to 7.
fn index_of(word: &[u8]) -> Option<u8>
    ensures { result ≡ index_of word.now }
{
    match word {
        [digit] if *digit >= b'0' && *digit < b'8' => Some(*digit - b'0'),
        _ => None,
    }
}

fn command_of_three(name: &[u8], first: &[u8], second: &[u8]) -> Option<Command>
    ensures { result ≡ command_of_three name.now first.now second.now }
{
    if name == b"page".as_slice() {
        return match (hex64(first), index_of(second)) {
            (Ok(address), Some(index)) if address < ADDRESSES => {
                Some(Command::Serial(SerialCommand::Dump(DumpCommand::Page { address, index })))
            }
            _ => None,
        };
    }
    if name == b"tidy".as_slice() {
        let options = options_with_both(option_of(first), option_of(second));
        of_dump(tidy_with(options))
    } else if name == b"gran".as_slice() {
        of_dump(gran_with(first, options_with(option_of(second))))
    } else {
        None
    }
}

fn command_of_four(name: &[u8], first: &[u8], second: &[u8], third: &[u8]) -> Option<Command>
    ensures { result ≡ command_of_four name.now first.now second.now third.now }
{
    if name == b"gran".as_slice() {
        let options = options_with_both(option_of(second), option_of(third));
        of_dump(gran_with(first, options))
    } else if name == b"private".as_slice() {
        private_with(first, second, third)
    } else {
        None
    }
}

/// The command of a command line, without the program's name. Returns `None` if and only if the words are in no row of
/// the grammar.
pub fn command_of(words: &[String]) -> Option<Command>
    ensures { result ≡ command_of (map string_bytes words.now) }
{
    match words {
        [name] => command_of_one(name.as_str().as_bytes()),
        [name, option] => command_of_two(name.as_str().as_bytes(), option.as_str().as_bytes()),
        [name, first, second] => command_of_three(
            name.as_str().as_bytes(),
            first.as_str().as_bytes(),
            second.as_str().as_bytes(),
        ),
        [name, first, second, third] => command_of_four(
            name.as_str().as_bytes(),
            first.as_str().as_bytes(),
            second.as_str().as_bytes(),
            third.as_str().as_bytes(),
        ),
        _ => None,
    }
}
