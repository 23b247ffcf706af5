use crate::picture::labels::{Note, append_told, class_of, cpu_of, note_new, notes_of};
use crate::picture::layout::{Column, LanePlace, Layout, layout_of};
use crate::picture::rows::{Held, Lane, Row, rows_of};
use crate::picture::style::STYLE;
use crate::picture::svg::{Rect, append_box, append_label, append_rule, begin_label, end_label};
use crate::telling::known_behind;
use crate::text::Text;
use crate::transcript::{Told, Transcript};
use mt_kinds::{LINE_BYTES, PAGE_BYTES};
use mt_machine::Phase;
use mt_ports::NoMemory;
use mt_procedure::{Case, ProcedureStep, State};
use mt_search::Wrong;
use std::alloc::Global;

/// Where the first row begins.
const FIRST_ROW: u64 = 112;

/// How high a line of notes is, and a row without notes.
const LINE: u64 = 20;
/// How wide what is held is.
const HELD: u64 = 74;

/// What is drawn: a run, and the sentence above it.
#[derive(Clone, Copy)]
pub(crate) struct Drawn<'a> {
    pub caption: &'a str,
    /// The transcript of the run, for who can't see the picture.
    pub text: &'a str,
    pub run: &'a Transcript,
}

// A row at its place: where it begins, how high it is, and what is wrong there.
#[derive(Clone, Copy)]
struct RowPlace<'a> {
    y: u64,
    height: u64,
    wrongs: &'a [Wrong],
}

// What is drawn of a lane: those of the row before, and those of this row.
#[derive(Clone, Copy)]
struct Cell<'a> {
    cpu: usize,
    place: &'a LanePlace,
    before: Option<&'a Lane>,
    lane: &'a Lane,
}

fn class_of_lane(lane: &Lane) -> &'static str {
    match lane.phase {
        Phase::Running => "runs",
        _ if lane.no_fill => "sleeps",
        _ => "updates",
    }
}

fn class_of_held(held: Held) -> &'static str {
    match held {
        Held::CleanLine(_) => "clean",
        Held::DirtyLine(_) => "dirty",
        Held::Buffer(_) => "buffer",
        Held::Entry(_, kind) => kind.name(),
    }
}

/// Whether what a processor holds is wrong.
pub(crate) fn is_stale(wrongs: &[Wrong], cpu: usize, held: Held) -> bool {
    match held {
        Held::CleanLine(line) | Held::DirtyLine(line) => {
            wrongs.contains(&Wrong::StaleLine { cpu, line })
                || wrongs.contains(&Wrong::UnsnoopedLine { cpu, line })
        }
        Held::Buffer(line) => wrongs.contains(&Wrong::StaleBuffer { cpu, line }),
        Held::Entry(vpage, _) => {
            wrongs.contains(&Wrong::StaleEntry { cpu, vpage })
                || wrongs.contains(&Wrong::MixedEntry { cpu, vpage })
        }
    }
}

fn is_new(before: Option<&Lane>, held: Held) -> bool {
    match before {
        Some(lane) => !lane.held.as_slice().contains(&held),
        None => true,
    }
}

fn append_held(text: &mut Text, at: RowPlace<'_>, cell: Cell<'_>, held: Held) {
    let x = cell.place.place(held);
    let place = Rect {
        x,
        y: at.y,
        width: HELD,
        height: at.height,
    };
    append_box(text, class_of_held(held), place);
    if is_new(cell.before, held) {
        append_label(
            text,
            "held",
            x.wrapping_add(HELD / 2),
            at.y.wrapping_add(14),
            class_of_held(held),
        );
    }
    if is_stale(at.wrongs, cell.cpu, held) {
        append_box(text, "stale", place);
    }
}

fn append_bar(text: &mut Text, class: &str, x: u64, at: RowPlace<'_>) {
    append_box(
        text,
        class,
        Rect {
            x,
            y: at.y,
            width: 6,
            height: at.height,
        },
    );
}

fn append_cell(text: &mut Text, at: RowPlace<'_>, cell: Cell<'_>) {
    let (place, lane): (&LanePlace, &Lane) = (cell.place, cell.lane);
    let x = place.x;
    let width = place.end().wrapping_sub(x);
    append_box(
        text,
        class_of_lane(lane),
        Rect {
            x,
            y: at.y,
            width,
            height: at.height,
        },
    );
    if lane.no_fill {
        append_bar(text, "cd", x.wrapping_add(3), at);
    }
    if lane.file.is_enabled() {
        append_bar(text, "e", x.wrapping_add(14), at);
    }
    for held in lane.held.as_slice() {
        append_held(text, at, cell, *held);
    }
}

fn append_cells(
    text: &mut Text,
    at: RowPlace<'_>,
    layout: &Layout,
    before: Option<&Row>,
    row: &Row,
) {
    for k in 0..layout.lanes.len() {
        if let (Some(place), Some(lane)) = (layout.lanes.get(k), row.lanes.get(k)) {
            let before = match before {
                Some(row) => row.lanes.get(k),
                None => None,
            };
            let cell = Cell {
                cpu: k,
                place,
                before,
                lane,
            };
            append_cell(text, at, cell);
        }
    }
}

fn append_word(text: &mut Text, case: &Case, i: usize, v: u64) {
    if i < case.layout.words() {
        text.add_hex("", case.layout.address(i), 1);
        text.add_hex(" = ", v, 1);
        text.add(" ");
    }
}

// Adds the words of memory that a line changes.
fn append_words(text: &mut Text, case: &Case, before: &[u64], after: &[u64]) {
    for i in 0..after.len() {
        let v = after[i];
        if before.get(i) != Some(&v) {
            append_word(text, case, i, v);
        }
    }
}

fn append_memory(
    text: &mut Text,
    case: &Case,
    at: RowPlace<'_>,
    layout: &Layout,
    rows: (&Row, &Row),
) {
    let (before, row) = rows;
    if layout.has_memory {
        begin_label(text, "step", layout.memory, at.y.wrapping_add(14));
        append_words(text, case, before.words.as_slice(), row.words.as_slice());
        end_label(text);
    }
}

// The barrier at which the last processor arrives with a line.
fn barrier_of(row: &Row, told: &Told) -> Option<u32> {
    let Told::Step(step) = told else {
        return None;
    };
    let ProcedureStep::Arrive(barrier) = step.done.step else {
        return None;
    };
    let arrived = row.arrived.get(barrier as usize)?;
    if *arrived as usize == row.lanes.len() {
        Some(barrier)
    } else {
        None
    }
}

fn append_barrier(text: &mut Text, at: RowPlace<'_>, layout: &Layout, row: &Row, told: &Told) {
    if let Some(barrier) = barrier_of(row, told) {
        let y = at.y.wrapping_add(at.height);
        append_rule(text, "barrier", 40, y, layout.notes.wrapping_sub(40));
        begin_label(text, "small", layout.notes, y.wrapping_add(3));
        text.add_decimal("all have arrived at barrier ", barrier as u64);
        end_label(text);
    }
}

fn append_number(text: &mut Text, y: u64, number: u64) {
    begin_label(text, "turn", 34, y);
    text.add_decimal("", number);
    end_label(text);
}

fn append_told_label(text: &mut Text, case: &Case, at: RowPlace<'_>, layout: &Layout, told: &Told) {
    let y = at.y.wrapping_add(14);
    if let Some(place) = layout.lanes.get(cpu_of(told)) {
        begin_label(text, class_of(told), place.label(), y);
        append_told(text, &case.goal, told);
        end_label(text);
    }
}

// ---- heads

fn append_column_head(text: &mut Text, x: u64, column: Column) {
    let (kind, address) = match column {
        Column::Line(line) => ("line", line.wrapping_mul(LINE_BYTES)),
        Column::Buffer(line) => ("buffer", line.wrapping_mul(LINE_BYTES)),
        Column::Entry(page) => ("TLB entry", page.wrapping_mul(PAGE_BYTES)),
    };
    append_label(text, "small", x, 92, kind);
    begin_label(text, "mono", x, 105);
    text.add_hex("", address, 1);
    end_label(text);
}

fn append_lane_head(text: &mut Text, k: usize, lane: &LanePlace) {
    begin_label(text, "head", lane.label(), 76);
    text.add_decimal("processor ", k as u64);
    end_label(text);
    append_label(text, "small", lane.x, 92, "CD");
    append_label(text, "small", lane.x.wrapping_add(14), 105, "E");
    for i in 0..lane.columns.len() {
        if let Some(column) = lane.columns.get(i) {
            append_column_head(text, lane.column(i), *column);
        }
    }
}

// Adds the heads of the lanes.
fn append_heads(text: &mut Text, layout: &Layout) {
    for k in 0..layout.lanes.len() {
        if let Some(lane) = layout.lanes.get(k) {
            append_lane_head(text, k, lane);
        }
    }
    if layout.has_memory {
        append_label(text, "head", layout.memory, 76, "memory");
    }
}

fn append_front(text: &mut Text, drawn: &Drawn<'_>, width: u64, height: u64) {
    text.add_decimal(
        "<svg xmlns='http://www.w3.org/2000/svg' role='img' aria-labelledby='caption run' width='",
        width,
    );
    text.add_decimal("' height='", height);
    text.add_decimal("' viewBox='0 0 ", width);
    text.add_decimal(" ", height);
    text.add("'>\n<title id='caption'>");
    text.add(drawn.caption);
    text.add("</title>\n<desc id='run'>");
    text.add(drawn.text);
    text.add("</desc>\n");
    text.add(STYLE);
    append_label(text, "title", 12, 28, drawn.caption);
    append_label(
        text,
        "sub",
        12,
        48,
        "Time goes down. White: a processor runs. Shaded: it is in the update, and darker while its caches are off (CR0.CD set). \
         Outlined in red: what is wrong.",
    );
}

// ---- the whole

// A picture that is drawn row by row.
#[derive(Drop)]
struct Sheet<'a> {
    alloc: Global,
    case: &'a Case,
    layout: &'a Layout,
    rows: &'a [Row],
    text: Text,
    y: u64,
}

impl<'a> Sheet<'a> {
    // The place of a row with so many notes.
    fn row_place(&self, count: usize, wrongs: &'a [Wrong]) -> RowPlace<'a> {
        RowPlace {
            y: self.y,
            height: LINE.wrapping_mul(count.max(1) as u64),
            wrongs,
        }
    }

    // Adds notes beside a row, and goes on behind it.
    fn append_notes(&mut self, at: RowPlace<'_>, notes: &[Note<'_>]) {
        let case: &Case = self.case;
        let mut y = at.y.wrapping_add(14);
        for note in notes {
            begin_label(&mut self.text, note.class(), self.layout.notes, y);
            note.append(&mut self.text, &case.goal);
            end_label(&mut self.text);
            y = y.wrapping_add(LINE);
        }
        self.y = at.y.wrapping_add(at.height);
    }

    // Draws the row of the start.
    fn append_start(&mut self, wrongs: &'a [Wrong]) -> Result<(), NoMemory> {
        let mut notes = Vec::new(self.alloc);
        note_new(&mut notes, wrongs, &[])?;
        let at = self.row_place(notes.len(), wrongs);
        if let Some(row) = self.rows.get(0) {
            append_cells(&mut self.text, at, self.layout, None, row);
        }
        self.append_notes(at, notes.as_slice());
        Ok(())
    }

    // Draws a line of the transcript, between two rows.
    fn append_line(&mut self, at: RowPlace<'_>, told: &Told, before: &Row, row: &Row) {
        append_cells(&mut self.text, at, self.layout, Some(before), row);
        append_told_label(&mut self.text, self.case, at, self.layout, told);
        append_barrier(&mut self.text, at, self.layout, row, told);
        append_memory(&mut self.text, self.case, at, self.layout, (before, row));
    }

    // Draws the row of a line.
    fn append_row(&mut self, i: usize, told: &'a Told, known: &'a [Wrong]) -> Result<(), NoMemory> {
        let notes = notes_of(self.alloc, told, known)?;
        let at = self.row_place(notes.len(), known_behind(told, known));
        let next = i.wrapping_add(1);
        if let (Some(before), Some(row)) = (self.rows.get(i), self.rows.get(next)) {
            self.append_line(at, told, before, row);
        }
        append_number(&mut self.text, at.y.wrapping_add(14), next as u64);
        self.append_notes(at, notes.as_slice());
        Ok(())
    }

    fn append_rows(&mut self, run: &'a Transcript) -> Result<(), NoMemory> {
        let mut known = run.start.as_slice();
        self.append_start(known)?;
        for i in 0..run.told.len() {
            if let Some(told) = run.told.get(i) {
                self.append_row(i, told, known)?;
                known = known_behind(told, known);
            }
        }
        Ok(())
    }
}

/// A run as a picture, in SVG.
pub(crate) fn picture_text(
    alloc: Global,
    case: &Case,
    start: &State,
    drawn: &Drawn<'_>,
) -> Result<String, NoMemory> {
    let rows = rows_of(alloc, case, start, drawn.run.told.as_slice())?;
    let layout = layout_of(alloc, rows.as_slice(), start.count())?;
    let mut sheet = Sheet {
        alloc,
        case,
        layout: &layout,
        rows: rows.as_slice(),
        text: Text::new(alloc),
        y: FIRST_ROW,
    };
    sheet.append_rows(drawn.run)?;
    let Sheet { text: body, y, .. } = sheet;
    let body = body.finish()?;
    let mut text = Text::new(alloc);
    append_front(&mut text, drawn, layout.width, y.wrapping_add(16));
    append_heads(&mut text, &layout);
    text.add(body.as_str());
    text.add("</svg>\n");
    text.finish()
}
