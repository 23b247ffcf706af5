ghost use Rattle.std.specs.Prelude.{◌≡◌, ◌≤◌, ◌↔◌, [], length, MatchOption, MatchResult, Ok, Some, None};
ghost use Rattle.mt_text.specs.Text.{longest_line, words_of};
ghost use Rattle.mt_text.specs.Words.{place_of, text_of};
ghost use Rattle.mt_proc.specs.Requests.{asked_by, behind, count_fault, disable_of, fault_at, number_at, range_of, request_in, request_of};
ghost use Rattle.mt_proc.specs.declared.request.ProcReason.TheVariants.{BadLine};

use crate::names::type_named;
use crate::{ProcFault, ProcReason, Request};
use mt_text::{Line, NumberFault, Place, Words, decimal, hex64};

const RANGE_WORDS: usize = 3;

const DISABLE_WORDS: usize = 1;

fn fault(reason: ProcReason, place: Place) -> ProcFault
    ensures { result ≡ fault_at reason place }
{
    ProcFault { reason, place }
}

// What stands behind a head, where the word begins with it.
fn behind<'a>(word: &'a [u8], head: &[u8]) -> Option<&'a [u8]>
    ensures { MatchOption result (behind head.now word.now ≡ None) (λ rest. behind head.now word.now ≡ Some rest.now) }
{
    word.strip_prefix(head)
}

// A number, or the fault of its word.
fn number_at(place: Place, number: Result<u64, NumberFault>) -> Result<u64, ProcFault>
    ensures { result ≡ number_at place number }
{
    match number {
        Ok(number) => Ok(number),
        Err(_) => Err(fault(ProcReason::BadNumber, place)),
    }
}

// The fault of the number of words.
fn count_fault(words: &Words<'_>, wanted: usize) -> Option<ProcFault>
    requires { 1 ≤ length words.now.words }
    ensures { result ≡ count_fault words.now.number words.now.words wanted }
{
    let count = words.count();
    if count < wanted {
        return Some(fault(ProcReason::BadLine, words.place(count - 1)));
    }
    if count > wanted {
        return Some(fault(ProcReason::BadLine, words.place(wanted)));
    }
    None
}

// What stands behind the head of a word, or the word's fault.
fn headed<'a>(words: &Words<'a>, i: usize, head: &[u8]) -> Result<&'a [u8], ProcFault>
    ensures { MatchResult result
        (λ rest. behind head.now (text_of words.now.words i) ≡ Some rest.now)
        (λ fault. (behind head.now (text_of words.now.words i) ≡ None) × (fault ≡ fault_at BadLine (place_of words.now.number words.now.words i))) }
{
    match behind(words.text(i), head) {
        Some(rest) => Ok(rest),
        None => Err(fault(ProcReason::BadLine, words.place(i))),
    }
}

// A range of three words, of which the first one's digits are these.
fn range_of(words: &Words<'_>, base: &[u8]) -> Result<Request, ProcFault>
    ensures { result ≡ range_of words.now.number words.now.words base.now }
{
    let size = headed(words, 1, b"size=")?;
    let name = headed(words, 2, b"type=")?;
    let base = number_at(words.place(0), hex64(base))?;
    let size = number_at(words.place(1), hex64(size))?;
    match type_named(name) {
        Some(kind) => Ok(Request::Range { base, size, kind }),
        None => Err(fault(ProcReason::UnknownType, words.place(2))),
    }
}

fn disable_of(words: &Words<'_>, digits: &[u8]) -> Result<Request, ProcFault>
    ensures { result ≡ disable_of words.now.number words.now.words digits.now }
{
    let number = number_at(words.place(0), decimal(digits, u64::MAX))?;
    Ok(Request::Disable(number))
}

// What the words of a line ask for.
fn request_in(words: &Words<'_>) -> Result<Request, ProcFault>
    requires { 1 ≤ length words.now.words }
    ensures { result ≡ request_in words.now.number words.now.words }
{
    let first = words.text(0);
    if let Some(base) = behind(first, b"base=") {
        return match count_fault(words, RANGE_WORDS) {
            Some(fault) => Err(fault),
            None => range_of(words, base),
        };
    }
    if let Some(digits) = behind(first, b"disable=") {
        return match count_fault(words, DISABLE_WORDS) {
            Some(fault) => Err(fault),
            None => disable_of(words, digits),
        };
    }
    Err(fault(ProcReason::BadLine, words.place(0)))
}

fn asked_by(words: &Words<'_>) -> Result<Option<Request>, ProcFault>
    ensures { result ≡ asked_by words.now.number words.now.words }
{
    if words.count() == 0 {
        return Ok(None);
    }
    match request_in(words) {
        Ok(request) => Ok(Some(request)),
        Err(fault) => Err(fault),
    }
}

// A line that isn't too long.
fn read_words(line: &Line<'_>) -> Result<Option<Request>, ProcFault>
    ensures { result ≡ asked_by line.now.number (words_of line.now.bytes.now) }
{
    asked_by(&line.first_words())
}

fn read_line(line: &Line<'_>) -> Result<Option<Request>, ProcFault>
    ensures { result ≡ request_of line.now.number line.now.bytes.now }
{
    if line.too_long() {
        return Err(fault(ProcReason::BadLine, line.past_limit()));
    }
    read_words(line)
}

/// What a line asks for, or its offence. A line without words asks for nothing.
pub fn read_request(line: &Line<'_>) -> Result<Option<Request>, ProcFault>
    ensures answer { result ≡ request_of line.now.number line.now.bytes.now }
    ensures blank { (result ≡ Ok None) ↔ ((length line.now.bytes.now ≤ longest_line) × (words_of line.now.bytes.now ≡ [])) }
{
    read_line(line)
}
