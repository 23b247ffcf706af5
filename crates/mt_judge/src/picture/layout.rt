use crate::picture::rows::{Held, Row};
use mt_ports::NoMemory;
use std::alloc::Global;

/// The numbers of turns stand in front of the lanes.
const FIRST_LANE: u64 = 40;
/// A lane has two bars, a label, and then its columns.
const BARS: u64 = 26;

const LABEL: u64 = 216;

const COLUMN: u64 = 78;

const GAP: u64 = 12;
/// Memory has a lane if one of its words changes.
const MEMORY: u64 = 190;
/// What is wrong stands behind the lanes.
const NOTES: u64 = 520;

/// A column of a lane: a line of the cache, a write-combining buffer, or the TLB entry of a page.
#[derive(Clone, Copy, PartialEq, Eq)]
pub(crate) enum Column {
    Line(u64),
    Buffer(u64),
    Entry(u64),
}

/// Where a lane begins, and its columns.
#[derive(Drop)]
pub(crate) struct LanePlace {
    pub x: u64,
    pub columns: Vec<Column>,
}

/// Where the lanes and the notes stand.
#[derive(Drop)]
pub(crate) struct Layout {
    pub lanes: Vec<LanePlace>,
    pub memory: u64,
    pub has_memory: bool,
    pub notes: u64,
    pub width: u64,
}

/// The column of what is held.
pub(crate) fn column_of(held: Held) -> Column {
    match held {
        Held::CleanLine(line) | Held::DirtyLine(line) => Column::Line(line),
        Held::Buffer(line) => Column::Buffer(line),
        Held::Entry(page, _) => Column::Entry(page),
    }
}

fn add_column(columns: &mut Vec<Column>, column: Column) -> Result<(), NoMemory> {
    if columns.contains(&column) {
        return Ok(());
    }
    match columns.push(column) {
        Ok(()) => Ok(()),
        Err(_) => Err(NoMemory),
    }
}

fn add_columns(columns: &mut Vec<Column>, row: &Row, k: usize) -> Result<(), NoMemory> {
    if let Some(lane) = row.lanes.get(k) {
        for held in lane.held.as_slice() {
            add_column(columns, column_of(*held))?;
        }
    }
    Ok(())
}

// The columns of a lane: all that its processor holds in the course of a run.
fn columns_of(alloc: Global, rows: &[Row], k: usize) -> Result<Vec<Column>, NoMemory> {
    let mut columns = Vec::new(alloc);
    for row in rows {
        add_columns(&mut columns, row, k)?;
    }
    Ok(columns)
}

impl LanePlace {
    /// Where the label of a turn begins.
    pub(crate) fn label(&self) -> u64 {
        self.x.wrapping_add(BARS)
    }

    /// Where a column begins.
    pub(crate) fn column(&self, i: usize) -> u64 {
        self.x
            .wrapping_add(BARS + LABEL)
            .wrapping_add(COLUMN.wrapping_mul(i as u64))
    }

    /// Where the column of what is held begins.
    pub(crate) fn place(&self, held: Held) -> u64 {
        let column = column_of(held);
        for i in 0..self.columns.len() {
            if self.columns.get(i) == Some(&column) {
                return self.column(i);
            }
        }
        self.column(0)
    }

    /// Where it ends.
    pub(crate) fn end(&self) -> u64 {
        self.column(self.columns.len())
    }
}

// Whether a word of memory changes in the course of a run.
fn has_change(rows: &[Row]) -> bool {
    match rows {
        [] => false,
        [first, rest @ ..] => rest
            .iter()
            .any(|row| row.words.as_slice() != first.words.as_slice()),
    }
}

/// The layout of a run.
pub(crate) fn layout_of(alloc: Global, rows: &[Row], count: usize) -> Result<Layout, NoMemory> {
    let mut lanes = Vec::new(alloc);
    let mut x = FIRST_LANE;
    for k in 0..count {
        let lane = LanePlace {
            x,
            columns: columns_of(alloc, rows, k)?,
        };
        x = lane.end().wrapping_add(GAP);
        if lanes.push(lane).is_err() {
            return Err(NoMemory);
        }
    }
    let has_memory = has_change(rows);
    let notes = x.wrapping_add(if has_memory { MEMORY } else { 0 });
    Ok(Layout {
        lanes,
        memory: x,
        has_memory,
        notes,
        width: notes.wrapping_add(NOTES),
    })
}
