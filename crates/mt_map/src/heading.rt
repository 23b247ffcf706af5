ghost use Rattle.std.specs.Prelude.{◌≡◌, ◌≤◌, IfSome, length};
ghost use Rattle.std.specs.List.{filter};
ghost use Rattle.mt_map.specs.Bands.{is_different};
ghost use Rattle.mt_ranges.specs.Match.{is_valid};
ghost use Rattle.mt_regs.specs.Registers.{HasThreeDigits};

use crate::drawing::Part::{Decimal, Text};
use crate::drawing::{Drawing, Part, append_label, append_rule, is_different};
use crate::labels::escaped;
use crate::layout::Layout;
use crate::names::{first_name, second_name};
use crate::ranges::are_fixed_on;
use crate::shaping::default_of;
use crate::{Band, Legend, Names};
use mt_output::{accepted_line, dump_refused_line};
use mt_ranges::is_valid;
use mt_regs::RegFile;
use std::alloc::{AllocError, Global};

fn different_count(bands: &[Band]) -> usize
    ensures { result ≡ length (filter is_different bands.now) }
{
    bands.iter().filter(|band| is_different(band)).count()
}

/// Adds the line that every picture has. A title that the user gives is its caption.
pub(crate) fn append_headline(text: &mut Drawing, others: &[RegFile], bands: &[Band]) {
    if others.is_empty() {
        return append_label(text, b"title", 12, 28, &[Text(b"Memory types")]);
    }
    let count = different_count(bands) as u64;
    if count == 0 {
        let same = [Text(b"Memory types, the same on every page")];
        append_label(text, b"title", 12, 28, &same)
    } else {
        let compared = [Decimal(b"Memory types; bands that differ: ", count)];
        append_label(text, b"title", 12, 28, &compared)
    }
}

// What stands in front of the line of a fault, and the version of that line. With two files it names no processor.
fn refused_as(legend: &Legend<'_>, k: u32) -> (&'static [u8], u8) {
    match legend.names {
        Names::Cpus(_) => (b"", legend.version),
        Names::Files if k == 0 => (b"before: ", 1),
        Names::Files => (b"after: ", 1),
    }
}

/// Adds that the files are accepted, or what is refused.
pub(crate) fn append_verdict(text: &mut Drawing, legend: &Legend<'_>)
    requires short { IfSome legend.now.refusal (λ found. HasThreeDigits found.1.msr) }
{
    match legend.refusal {
        None => append_label(text, b"accepted", 12, 50, &[Text(accepted_line())]),
        Some((k, fault)) => {
            let (name, version) = refused_as(legend, k);
            let line = dump_refused_line(version, k, &fault);
            append_label(
                text,
                b"refused",
                12,
                50,
                &[Text(name), Text(line.as_slice())],
            )
        }
    }
}

/// Adds the caption above a picture, if it has one.
pub(crate) fn append_caption(
    alloc: Global,
    text: &mut Drawing,
    title: Option<&[u8]>,
) -> Result<(), AllocError> {
    if let Some(title) = title {
        let caption = escaped(alloc, title)?;
        append_label(text, b"title", 12, 4, &[Text(caption.as_slice())]);
    }
    Ok(())
}

fn valid_count(f: &RegFile) -> usize
    ensures { result ≡ length (filter is_valid f.now.pairs) }
{
    f.pairs
        .as_slice()
        .iter()
        .filter(|pair| is_valid(**pair))
        .count()
}

// What is said of a file's default type and fixed ranges.
fn state_of(f: &RegFile) -> [Part<'static>; 3] {
    let Some(kind) = default_of(f) else {
        return [Text(b", MTRRs off: each page is UC"), Text(b""), Text(b"")];
    };
    let fixed = if are_fixed_on(f) {
        Text(b", fixed ranges on")
    } else {
        Text(b", fixed ranges off")
    };
    [
        Text(b", default type "),
        Text(kind.name().as_bytes()),
        fixed,
    ]
}

fn append_file(text: &mut Drawing, y: u64, name: Part<'static>, f: &RegFile) {
    let [state, kind, fixed] = state_of(f);
    let said = [
        name,
        Decimal(b": ", f.maxphy as u64),
        Decimal(b" address bits, ", valid_count(f) as u64),
        Decimal(b" of ", f.pairs.len() as u64),
        Text(b" pairs valid"),
        state,
        kind,
        fixed,
    ];
    append_label(text, b"file", 12, y, &said)
}

/// Adds what is said of each file.
pub(crate) fn append_files(text: &mut Drawing, names: Names, f: &RegFile, others: &[RegFile]) {
    append_file(text, 68, first_name(names), f);
    match others {
        [] => {}
        [other, ..] => append_file(text, 86, second_name(names), other),
    }
}

fn append_pairs_head(text: &mut Drawing, x: u64, name: Part<'static>) {
    append_label(text, b"head", x, 140, &[Text(b"pairs, "), name])
}

// Adds the heads of the columns of two files.
fn append_both_heads(text: &mut Drawing, layout: &Layout, names: Names) {
    let first = first_name(names);
    let second = second_name(names);
    append_label(text, b"type", 372, 140, &[first]);
    append_label(text, b"type", 496, 140, &[second]);
    append_pairs_head(text, layout.first_bar, first);
    append_pairs_head(text, layout.second_bar, second)
}

// Adds the heads of the columns of one file.
fn append_type_heads(text: &mut Drawing, layout: &Layout) {
    append_label(text, b"type", 372, 140, &[Text(b"type")]);
    append_label(text, b"head", layout.first_bar, 140, &[Text(b"pairs")])
}

// Adds the heads of the lines below the rows.
fn append_lower_heads(text: &mut Drawing, layout: &Layout) {
    append_rule(text, layout.bottom + 150, layout.width - 24);
    append_label(
        text,
        b"head",
        12,
        layout.bottom + 171,
        &[Text(b"default type")],
    );
    append_label(text, b"head", 12, layout.bottom + 196, &[Text(b"values")])
}

/// Adds the heads of the columns that depend on the files, and those below the rows.
pub(crate) fn append_heads(text: &mut Drawing, layout: &Layout, names: Option<Names>) {
    match names {
        None => append_type_heads(text, layout),
        Some(names) => append_both_heads(text, layout, names),
    }
    append_lower_heads(text, layout)
}
