use crate::mend::GroupWrites;
use crate::mending::Style;
use crate::registers::add_register;
use crate::text::Text;
use mt_dump::{Dump, write_dump};
use mt_mend::Write;
use mt_regs::RegFile;
use std::alloc::{AllocError, Global};

const WARNING: [&str; 2] = [
    "For firmware, or for one processor within the update's procedure:",
    "on a running system these lines alone are not that procedure.",
];

// How a comment begins and ends.
#[derive(Clone, Copy)]
struct Comment {
    begin: &'static str,
    end: &'static str,
}

const OF_SHELL: Comment = Comment {
    begin: "# ",
    end: "\n",
};

const OF_C: Comment = Comment {
    begin: "/* ",
    end: " */\n",
};

const ASSUMED: &str = "The dump has no line maxphyaddr: the number of address bits is assumed.";

const GUESSED: &str = "Some values are guesses: without --as mtrr-explain mend says which.";

fn add_comment(text: &mut Text, comment: Comment, line: &'static str) {
    text.add_all(&[comment.begin, line, comment.end]);
}

fn add_warning(text: &mut Text, comment: Comment) {
    for line in WARNING {
        add_comment(text, comment, line);
    }
}

// Adds the processors of a group, if there are others.
fn add_heading(text: &mut Text, comment: Comment, group: &GroupWrites<'_>, many: bool) {
    if many {
        text.add(comment.begin);
        text.add_cpus(group.cpus.as_slice());
        text.add(comment.end);
    }
}

// Adds the lines of the canonical text.
fn add_dump(text: &mut Text, f: &RegFile) {
    let dump = Dump::of(f);
    let mut line = [0; 24];
    for number in 0..f.count().saturating_add(2) {
        let count = write_dump(&dump, number, &mut line);
        let (front, _) = line.as_slice().split_at(count.min(24));
        text.add(str::from_utf8(front).unwrap_or(""));
    }
}

fn add_hex(text: &mut Text, before: &str, value: u64, digits: usize) {
    text.add(before);
    text.add("0x");
    text.add_hex(value, digits);
}

fn add_wrmsr(text: &mut Text, cpu: Option<u32>, writes: &[Write]) {
    for write in writes {
        text.add("wrmsr");
        if let Some(cpu) = cpu {
            text.add_decimal(" -p ", cpu as u64);
        }
        add_hex(text, " ", write.number as u64, 3);
        add_hex(text, " ", write.value, 16);
        text.add("\n");
    }
}

fn add_commands(text: &mut Text, groups: &[GroupWrites<'_>], many: bool) {
    for group in groups {
        if many {
            for cpu in group.cpus.as_slice() {
                add_wrmsr(text, Some(*cpu), group.writes.as_slice());
            }
        } else {
            add_wrmsr(text, None, group.writes.as_slice());
        }
    }
}

// Adds a name that ends with the number of a group's first processor, if there are others.
fn add_name(text: &mut Text, name: &str, group: &GroupWrites<'_>, many: bool) {
    text.add(name);
    if many {
        if let Some(cpu) = group.cpus.as_slice().first() {
            text.add_decimal("_cpu", *cpu as u64);
        }
    }
}

fn add_table(text: &mut Text, group: &GroupWrites<'_>, many: bool) {
    add_heading(text, OF_C, group, many);
    if group.writes.is_empty() {
        // a table in C has a row
        add_comment(text, OF_C, "nothing to change");
        return;
    }
    text.add("static const struct mtrr_write ");
    add_name(text, "mtrr_writes", group, many);
    text.add("[] = {\n");
    for write in &group.writes {
        add_hex(text, "    { ", write.number as u64, 3);
        add_hex(text, ", ", write.value, 16);
        text.add("ULL }, /* ");
        add_register(text, write.number);
        text.add(" */\n");
    }
    text.add("};\n");
}

fn add_calls(text: &mut Text, group: &GroupWrites<'_>, many: bool) {
    add_heading(text, OF_C, group, many);
    text.add("static void ");
    add_name(text, "write_mtrrs", group, many);
    text.add("(void)\n{\n");
    for write in &group.writes {
        add_hex(text, "\twrmsr(", write.number as u64, 3);
        add_hex(text, ", (msr_t){ .lo = ", write.value % (1 << 32), 8);
        add_hex(text, ", .hi = ", write.value >> 32, 8);
        text.add(" }); /* ");
        add_register(text, write.number);
        text.add(" */\n");
    }
    text.add("}\n");
}

// Adds the registers as an initializer of EDK2's MTRR_SETTINGS: fixed ranges, pairs, default type.
fn add_settings(text: &mut Text, f: &RegFile) {
    text.add("static MTRR_SETTINGS mMtrrSettings = {\n  { {\n");
    for value in f.fixed.as_slice() {
        add_hex(text, "    ", *value, 16);
        text.add("ULL,\n");
    }
    text.add("  } },\n  { {\n");
    for pair in f.pairs.as_slice() {
        add_hex(text, "    { ", pair.0, 16);
        add_hex(text, "ULL, ", pair.1, 16);
        text.add("ULL },\n");
    }
    text.add("  } },\n");
    add_hex(text, "  ", f.deftype, 16);
    text.add("ULL\n};\n");
}

fn add_form(text: &mut Text, style: Style, f: &RegFile, groups: &[GroupWrites<'_>], many: bool) {
    match style {
        Style::Wrmsr => {
            add_warning(text, OF_SHELL);
            add_commands(text, groups, many);
        }
        Style::C => {
            add_warning(text, OF_C);
            text.add("struct mtrr_write { unsigned int number; unsigned long long value; };\n");
            for group in groups {
                add_table(text, group, many);
            }
        }
        Style::Coreboot => {
            add_warning(text, OF_C);
            for group in groups {
                add_calls(text, group, many);
            }
        }
        Style::Edk2 => {
            add_warning(text, OF_C);
            add_settings(text, f);
        }
        _ => add_dump(text, f),
    }
}

fn comment_of(style: Style) -> Comment {
    match style {
        Style::Dump | Style::Wrmsr => OF_SHELL,
        _ => OF_C,
    }
}

/// What isn't certain of the registers to write.
#[derive(Clone, Copy)]
pub struct Doubts {
    /// The dump doesn't say how many bits an address has.
    pub is_width_assumed: bool,
    /// Some values are guesses.
    pub is_guessed: bool,
}

/// The registers to write, in a form.
pub fn form_text(
    alloc: Global,
    style: Style,
    f: &RegFile,
    groups: &[GroupWrites<'_>],
    doubts: Doubts,
) -> Result<String, AllocError> {
    let mut text = Text::new(alloc);
    if doubts.is_width_assumed {
        add_comment(&mut text, comment_of(style), ASSUMED);
    }
    if doubts.is_guessed {
        add_comment(&mut text, comment_of(style), GUESSED);
    }
    add_form(&mut text, style, f, groups, groups.len() > 1);
    text.finish()
}
