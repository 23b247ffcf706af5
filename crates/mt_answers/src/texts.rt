ghost use Rattle.std.specs.Prelude.{◌≡◌, ◌++◌, IfOk};
ghost use Rattle.mt_dump.specs.Canon.{canon};
ghost use Rattle.mt_dump.specs.Dumps.{dump_of};
ghost use Rattle.std.specs.List.{All};
ghost use Rattle.mt_answers.specs.Lines.{IsLine, lost_line, part_line, parts_text, types_text, used_line};
ghost use Rattle.mt_types.specs.Runs.{IsTypeMap};

use crate::lines::{lost_line, run_line, used_line};
use arrayvec::ArrayVec;
use mt_dump::{Dump, TextBuffer, append_canon, append_text};
use mt_regs::RegFile;
use mt_types::Run;
use std::alloc::{AllocError, Global};

/// The number of pairs that a tidied file uses, and the canonical text of the dump of this file alone.
pub fn tidied_text(used: u32, f: &RegFile) -> TextBuffer
    ensures { result.items ≡ used_line used ++ canon (dump_of f.now) }
{
    let mut text = ArrayVec::new();
    append_text(&mut text, used_line(used).as_slice());
    append_canon(&mut text, &Dump::of(f));
    text
}

/// The lines of all runs.
pub fn types_text(alloc: Global, runs: &[Run]) -> Result<Vec<u8>, AllocError>
    requires { IsTypeMap runs.now }
    ensures { IfOk result (λ text. text.items ≡ types_text runs.now) }
{
    let mut text = Vec::new(alloc);
    'runs: for run in runs {
        text.extend_from_slice(run_line(run).as_slice())?;
    }
    Ok(text)
}

fn append_part(text: &mut Vec<u8>, part: &Run) -> Result<(), AllocError>
    requires { IsLine part.now }
    ensures { IfOk result (λ _. text.new.items ≡ text.old.items ++ part_line part.now) }
{
    text.extend_from_slice(b"# part ")?;
    text.extend_from_slice(run_line(part).as_slice())?;
    Ok(())
}

// The lines of all parts.
fn parts_text(alloc: Global, parts: &[Run]) -> Result<Vec<u8>, AllocError>
    requires { All IsLine parts.now }
    ensures { IfOk result (λ text. text.items ≡ parts_text parts.now) }
{
    let mut text = Vec::new(alloc);
    'parts: for part in parts {
        append_part(&mut text, part)?;
    }
    Ok(text)
}

/// The lines of all parts, the number of pages that lose WB, that of pairs that the file uses, and its canonical text.
pub fn grained_text(
    alloc: Global,
    parts: &[Run],
    lost: u64,
    used: u32,
    f: &RegFile,
) -> Result<Vec<u8>, AllocError>
    requires { All IsLine parts.now }
    ensures { IfOk result (λ text. text.items ≡ parts_text parts.now ++ lost_line lost ++ used_line used ++ canon (dump_of f.now)) }
{
    let mut text = parts_text(alloc, parts)?;
    text.extend_from_slice(lost_line(lost).as_slice())?;
    text.extend_from_slice(tidied_text(used, f).as_slice())?;
    Ok(text)
}
