use crate::judging::{Explored, Verdict};
use crate::picture::labels::{Note, append_told, class_of, cpu_of, note_new, notes_of};
use crate::picture::rows::{Held, Lane, Row, end_of, rows_of, turn_told};
use crate::picture::{Drawn, is_stale};
use crate::telling::known_behind;
use crate::text::Text;
use crate::transcript::{Told, Transcript};
use mt_kinds::{LINE_BYTES, PAGE_BYTES};
use mt_machine::Phase;
use mt_ports::NoMemory;
use mt_procedure::{Case, State, Turn, turns};
use mt_regs::RegFile;
use mt_search::Wrong;
use std::alloc::Global;

// Adds a comma in front of all items but the first.
fn separate(text: &mut Text, i: usize) {
    if i > 0 {
        text.add(",");
    }
}

// Adds a hexadecimal number as a string.
fn append_hex(text: &mut Text, front: &str, n: u64) {
    text.add(front);
    text.add_hex("\"", n, 1);
    text.add("\"");
}

fn append_flag(text: &mut Text, front: &str, flag: bool) {
    text.add(front);
    text.add(if flag { "true" } else { "false" });
}

// Adds a text of lines as a string. It has no quotes.
fn append_lines(text: &mut Text, lines: &str) {
    text.add("\"");
    let mut is_first = true;
    for line in lines.lines() {
        if !is_first {
            text.add("\\n");
        }
        text.add(line);
        is_first = false;
    }
    text.add("\"");
}

// ---- a processor

fn phase_name(phase: Phase) -> &'static str {
    match phase {
        Phase::Running => "running",
        Phase::Taken => "taken",
        Phase::Arrived => "arrived",
        Phase::Passed => "passed",
        Phase::NoFill => "no-fill",
        Phase::Flushed => "flushed",
        Phase::TlbFlushed => "tlb-flushed",
        Phase::Writing(_) => "writing",
        Phase::Enabled => "enabled",
        Phase::Flushed2 => "flushed-again",
        Phase::TlbFlushed2 => "tlb-flushed-again",
        Phase::Normal => "normal",
        Phase::Restored => "restored",
        Phase::Arrived2 => "arrived-again",
    }
}

// Adds the registers that aren't 0.
fn append_registers(text: &mut Text, file: &RegFile) {
    text.add(",\"registers\":{");
    let mut count = 0;
    for i in 0..file.count() {
        if let Some(msr) = file.register(i)
            && let Some(v) = file.get(msr)
            && v != 0
        {
            separate(text, count);
            text.add_hex("\"", msr as u64, 3);
            append_hex(text, "\":", v);
            count = 1;
        }
    }
    text.add("}");
}

fn append_held(text: &mut Text, held: Held) {
    let (what, address, kind) = match held {
        Held::CleanLine(line) => ("line", line.wrapping_mul(LINE_BYTES), "clean"),
        Held::DirtyLine(line) => ("line", line.wrapping_mul(LINE_BYTES), "dirty"),
        Held::Buffer(line) => ("buffer", line.wrapping_mul(LINE_BYTES), "WC"),
        Held::Entry(page, kind) => ("entry", page.wrapping_mul(PAGE_BYTES), kind.name()),
    };
    text.add("{\"what\":\"");
    text.add(what);
    append_hex(text, "\",\"address\":", address);
    text.add(",\"kind\":\"");
    text.add(kind);
    text.add("\"");
}

fn append_lane(text: &mut Text, cpu: usize, lane: &Lane, wrongs: &[Wrong]) {
    text.add("{\"phase\":\"");
    text.add(phase_name(lane.phase));
    append_flag(text, "\",\"cd\":", lane.no_fill);
    append_flag(text, ",\"pge\":", lane.global);
    append_flag(text, ",\"e\":", lane.file.is_enabled());
    append_registers(text, &lane.file);
    text.add(",\"held\":[");
    for i in 0..lane.held.len() {
        if let Some(held) = lane.held.get(i) {
            separate(text, i);
            append_held(text, *held);
            append_flag(text, ",\"wrong\":", is_stale(wrongs, cpu, *held));
            text.add("}");
        }
    }
    text.add("]}");
}

// ---- a row

fn append_words(text: &mut Text, case: &Case, words: &[u64]) {
    text.add(",\"words\":{");
    let mut count = 0;
    for i in 0..words.len() {
        if words[i] != 0 && i < case.layout.words() {
            separate(text, count);
            append_hex(text, "", case.layout.address(i));
            append_hex(text, ":", words[i]);
            count = 1;
        }
    }
    text.add("}");
}

fn append_arrived(text: &mut Text, arrived: &[u32]) {
    text.add(",\"arrived\":[");
    for i in 0..arrived.len() {
        separate(text, i);
        text.add_decimal("", arrived[i] as u64);
    }
    text.add("]");
}

fn append_row(text: &mut Text, case: &Case, row: &Row, wrongs: &[Wrong]) {
    text.add(",\"processors\":[");
    for k in 0..row.lanes.len() {
        if let Some(lane) = row.lanes.get(k) {
            separate(text, k);
            append_lane(text, k, lane, wrongs);
        }
    }
    text.add("]");
    append_arrived(text, row.arrived.as_slice());
    append_words(text, case, row.words.as_slice());
    text.add("}");
}

// What a verdict's run is written of, as JSON.
#[derive(Drop)]
struct Page<'a> {
    alloc: Global,
    case: &'a Case,
    rows: &'a [Row],
    text: Text,
}

impl Page<'_> {
    fn append_note(&mut self, note: Note<'_>) {
        let case: &Case = self.case;
        let mut scratch = Text::new(self.alloc);
        note.append(&mut scratch, &case.goal);
        self.text.add("{\"kind\":\"");
        self.text.add(note.class());
        self.text.add("\",\"text\":");
        if let Ok(scratch) = scratch.finish() {
            append_lines(&mut self.text, scratch.trim());
        }
        self.text.add("}");
    }

    fn append_notes(&mut self, notes: &[Note<'_>]) {
        self.text.add(",\"notes\":[");
        for i in 0..notes.len() {
            separate(&mut self.text, i);
            self.append_note(notes[i]);
        }
        self.text.add("]");
    }

    fn append_rest(&mut self, i: usize, notes: &[Note<'_>], wrongs: &[Wrong]) {
        self.append_notes(notes);
        if let Some(row) = self.rows.get(i) {
            append_row(&mut self.text, self.case, row, wrongs);
        }
    }

    fn append_start(&mut self, wrongs: &[Wrong]) -> Result<(), NoMemory> {
        let mut notes = Vec::new(self.alloc);
        note_new(&mut notes, wrongs, &[])?;
        self.text.add("{\"kind\":\"start\",\"label\":\"start\"");
        self.append_rest(0, notes.as_slice(), wrongs);
        Ok(())
    }

    fn append_line(&mut self, i: usize, told: &Told, known: &[Wrong]) -> Result<(), NoMemory> {
        let case: &Case = self.case;
        let notes = notes_of(self.alloc, told, known)?;
        self.text.add(",{\"kind\":\"");
        self.text.add(class_of(told));
        self.text.add_decimal("\",\"cpu\":", cpu_of(told) as u64);
        self.text.add(",\"label\":\"");
        append_told(&mut self.text, &case.goal, told);
        self.text.add("\"");
        if let Some(turn) = turn_told(told) {
            self.text.add(",\"turn\":");
            append_turn(&mut self.text, turn);
        }
        self.append_rest(
            i.wrapping_add(1),
            notes.as_slice(),
            known_behind(told, known),
        );
        Ok(())
    }

    fn append_rows(&mut self, run: &Transcript) -> Result<(), NoMemory> {
        self.text.add(",\"rows\":[");
        let mut known = run.start.as_slice();
        self.append_start(known)?;
        for i in 0..run.told.len() {
            if let Some(told) = run.told.get(i) {
                self.append_line(i, told, known)?;
                known = known_behind(told, known);
            }
        }
        self.text.add("]");
        Ok(())
    }
}

// ---- the turns that may be taken next, as `run` has them

fn append_turn(text: &mut Text, turn: Turn) {
    match turn {
        Turn::Step(k) => text.add_decimal("\"", k as u64),
        Turn::Translate(k, page) => {
            text.add_decimal("\"translate:", k as u64);
            text.add_hex(":", page.wrapping_mul(PAGE_BYTES), 1);
        }
        Turn::Fetch(k, line) => {
            text.add_decimal("\"fetch:", k as u64);
            text.add_hex(":", line.wrapping_mul(LINE_BYTES), 1);
        }
    }
    text.add("\"");
}

fn append_next(text: &mut Text, alloc: Global, case: &Case, state: &State) -> Result<(), NoMemory> {
    text.add(",\"next\":[");
    let mut count = 0;
    for turn in turns(alloc, case, state)?.as_slice() {
        if state.may_take(case, *turn) {
            separate(text, count);
            append_turn(text, *turn);
            count = 1;
        }
    }
    text.add("]");
    Ok(())
}

// ---- the whole

fn append_counts(text: &mut Text, explored: &Explored) {
    text.add_decimal(",\"states\":", explored.states as u64);
    text.add_decimal(",\"turns\":", explored.turns);
    text.add_decimal(",\"undue\":", explored.undue);
}

// The rows of a run.
fn rows_text(
    alloc: Global,
    case: &Case,
    rows: &[Row],
    run: &Transcript,
) -> Result<String, NoMemory> {
    let mut page = Page {
        alloc,
        case,
        rows,
        text: Text::new(alloc),
    };
    page.append_rows(run)?;
    let Page { text, .. } = page;
    text.finish()
}

fn append_front(text: &mut Text, verdict: &Verdict, caption: &str, whole: &str) {
    append_flag(text, "{\"format\":1,\"wrong\":", verdict.wrong);
    text.add(",\"caption\":");
    append_lines(text, caption.trim());
    text.add(",\"text\":");
    append_lines(text, whole);
    if let Some(explored) = &verdict.explored {
        append_counts(text, explored);
    }
}

/// A verdict as one JSON object: its sentence, its text, and the rows of its run.
pub(crate) fn json_text(
    alloc: Global,
    case: &Case,
    start: &State,
    verdict: &Verdict,
    drawn: &Drawn<'_>,
) -> Result<String, NoMemory> {
    let Drawn {
        caption,
        text: whole,
        run,
    } = *drawn;
    let rows = rows_of(alloc, case, start, run.told.as_slice())?;
    let end = end_of(alloc, case, start, run.told.as_slice())?;
    let rows = rows_text(alloc, case, rows.as_slice(), run)?;
    let mut text = Text::new(alloc);
    append_front(&mut text, verdict, caption, whole);
    text.add(rows.as_str());
    append_next(&mut text, alloc, case, &end)?;
    text.add("}\n");
    text.finish()
}
