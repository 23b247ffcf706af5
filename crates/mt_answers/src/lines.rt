ghost use Rattle.std.specs.Prelude.{◌≡◌, ◌≤◌, ◌<◌, ◌^◌};
ghost use Rattle.mt_types.specs.Runs.{run_end};
ghost use Rattle.mt_answers.specs.Lines.{check_text, disabled_line, lost_line, outside_line, page_line, page_text, run_line, too_few_line, used_line};

use arrayvec::ArrayVec;
use mt_dump::Dump;
use mt_kinds::{MemType, PAGE_BYTES, Pat, PatType, effective};
use mt_output::{
    LineBuffer, accepted_line, append, append_address, append_decimal, append_number,
    append_pat_type, append_type, append_value,
};
use mt_regs::{RegFile, first_difference};
use mt_types::Run;

/// What is said of a dump whose files are all accepted: whether they are equal, for version 2 alone.
pub fn check_text(d: &Dump) -> LineBuffer
    ensures { result.items ≡ check_text d.now }
{
    let mut text = ArrayVec::new();
    append(&mut text, accepted_line());
    if d.version != 2 {
        return text;
    }
    match first_difference(d.files.as_slice()) {
        None => append(&mut text, b"same\n"),
        Some((k, msr)) => {
            append(&mut text, b"differ ");
            append_decimal(&mut text, k as u64);
            append(&mut text, b" ");
            append_number(&mut text, msr);
            append(&mut text, b"\n");
        }
    }
    text
}

/// The line of a run of pages.
pub fn run_line(run: &Run) -> LineBuffer
    requires some { 0 < run.now.count }
    requires bound { run_end run.now ≤ 2 ^ 40 }
    ensures { result.items ≡ run_line run.now }
{
    let mut line = ArrayVec::new();
    append_address(&mut line, PAGE_BYTES * run.first);
    append(&mut line, b"-");
    append_address(&mut line, PAGE_BYTES * (run.first + run.count) - 1);
    append(&mut line, b" ");
    append_type(&mut line, run.kind.defined());
    append(&mut line, b"\n");
    line
}

// The line of a page of these types.
fn page_line(page: u64, kind: MemType, pat_kind: PatType) -> LineBuffer
    requires { page < 2 ^ 40 }
    ensures { result.items ≡ page_line page kind pat_kind }
{
    let mut line = ArrayVec::new();
    append(&mut line, b"page ");
    append_address(&mut line, PAGE_BYTES * page);
    append(&mut line, b" mtrr ");
    append_type(&mut line, kind);
    append(&mut line, b" pat ");
    append_pat_type(&mut line, pat_kind);
    append(&mut line, b" effective ");
    append_type(&mut line, effective(kind, pat_kind));
    append(&mut line, b"\n");
    line
}

fn outside_line(page: u64) -> LineBuffer
    requires { page < 2 ^ 40 }
    ensures { result.items ≡ outside_line page }
{
    let mut line = ArrayVec::new();
    append(&mut line, b"page ");
    append_address(&mut line, PAGE_BYTES * page);
    append(&mut line, b" outside\n");
    line
}

/// The line about the page of an address, mapped with an index of a PAT entry.
pub fn page_text(f: &RegFile, address: u64, index: u8) -> LineBuffer
    requires address { address < 2 ^ 52 }
    requires index { index < 8 }
    ensures { result.items ≡ page_text f.now address index }
{
    let page = address / PAGE_BYTES;
    if page < f.pages() {
        let kind = f.page_type(page).defined();
        page_line(page, kind, Pat(f.pat).entry(index))
    } else {
        outside_line(page)
    }
}

/// The line with the number of pairs that a tidied file uses.
pub fn used_line(used: u32) -> LineBuffer
    ensures { result.items ≡ used_line used }
{
    let mut line = ArrayVec::new();
    append(&mut line, b"# used ");
    append_decimal(&mut line, used as u64);
    append(&mut line, b"\n");
    line
}

/// The line with the number of pages that lose WB.
pub fn lost_line(lost: u64) -> LineBuffer
    ensures { result.items ≡ lost_line lost }
{
    let mut line = ArrayVec::new();
    append(&mut line, b"# lost ");
    append_decimal(&mut line, lost);
    append(&mut line, b"\n");
    line
}

/// The line about a file whose pairs don't suffice.
pub fn too_few_line(needs: u64, has: u32) -> LineBuffer
    ensures { result.items ≡ too_few_line needs has }
{
    let mut line = ArrayVec::new();
    append(&mut line, b"too few needs ");
    append_decimal(&mut line, needs);
    append(&mut line, b" has ");
    append_decimal(&mut line, has as u64);
    append(&mut line, b"\n");
    line
}

/// The line about a file whose range registers are off.
pub fn disabled_line(value: u64) -> LineBuffer
    ensures { result.items ≡ disabled_line value }
{
    let mut line = ArrayVec::new();
    append(&mut line, b"disabled 2ff ");
    append_value(&mut line, value);
    append(&mut line, b"\n");
    line
}
