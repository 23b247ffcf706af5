ghost use Rattle.std.specs.Prelude.{◌<◌, ◌≤◌, ◌^◌};

use crate::drawing::Part::{Hex, Text};
use crate::drawing::{Drawing, append_box, append_label, name_of_kind};
use crate::layout::Layout;
use crate::stack::top_of;
use crate::{Band, Bar, Rect, Shape, Side};
use mt_kinds::MemType;

// Where the types of a file stand.
fn column_of(side: Side) -> u64
    ensures near { result ≤ 1000 }
{
    match side {
        Side::First => 326,
        Side::Second => 450,
    }
}

// Where its bars begin.
fn bars_of(layout: &Layout, side: Side) -> u64
    ensures near { result ≤ 10000 }
{
    match side {
        Side::First => layout.first_bar,
        Side::Second => layout.second_bar,
    }
}

// Where the values of its registers stand, below the rows.
fn values_of(side: Side) -> u64 {
    match side {
        Side::First => 12,
        Side::Second => 412,
    }
}

// The rectangle over the pages from the first up to the end.
fn rect_over(layout: &Layout, rows: &[Band], x: u64, width: u64, pages: (u64, u64)) -> Rect
    requires near { x ≤ 2 ^ 50 }
    ensures few { (result.x < 2 ^ 60) × (result.y < 2 ^ 60) × (result.height < 2 ^ 60) }
    ensures width { result.width ≤ width }
{
    let top = top_of(layout.bottom, rows, pages.0);
    Rect {
        x,
        y: 150 + top,
        width,
        height: top_of(layout.bottom, rows, pages.1).saturating_sub(top),
    }
}

// Adds a filled rectangle with a label in its middle.
fn append_labelled(text: &mut Drawing, place: &Rect, fill: &str, class: &[u8], label: &str)
    requires few { (place.now.x < 2 ^ 60) × (place.now.y < 2 ^ 60) × (place.now.height < 2 ^ 60) }
    requires narrow { place.now.width ≤ 100 }
{
    append_box(text, b"on", fill.as_bytes(), place);
    let y = place.y + place.height / 2 + 4;
    let label = [Text(label.as_bytes())];
    append_label(text, class, place.x + place.width / 2, y, &label)
}

fn bar_fill(bar: &Bar) -> &'static [u8] {
    match bar.kind {
        None => b"fixed",
        Some(kind) => kind.name().as_bytes(),
    }
}

fn bar_end(bar: &Bar) -> &'static [u8] {
    match bar.kind {
        None => b"26f",
        Some(kind) => kind.name().as_bytes(),
    }
}

fn bar_class(bar: &Bar) -> &'static [u8] {
    if bar.is_on { b"on" } else { b"off" }
}

fn append_number(text: &mut Drawing, x: u64, y: u64, number: u32) {
    append_label(text, b"bar", x, y, &[Hex(b"", number as u64)])
}

fn append_bar(text: &mut Drawing, layout: &Layout, rows: &[Band], side: Side, bar: &Bar) {
    let x = bars_of(layout, side) + 32 * bar.place as u64;
    let place = rect_over(layout, rows, x, 26, (bar.first, bar.end));
    append_box(text, bar_class(bar), bar_fill(bar), &place);
    append_number(text, place.x + 13, place.y + 11, bar.number);
    append_label(
        text,
        b"bar",
        place.x + 13,
        place.y + 22,
        &[Text(bar_end(bar))],
    )
}

// Adds the values of the registers of a bar, in a line below the rows.
fn append_values(text: &mut Drawing, layout: &Layout, side: Side, bar: &Bar) {
    let x = values_of(side);
    let y = layout.bottom + 212 + 16 * bar.place as u64;
    let Some(kind) = bar.kind else {
        return append_label(text, b"to", x, y, &[Text(b"250-26f fixed ranges")]);
    };
    let values = [
        Hex(b"", bar.number as u64),
        Hex(b" base ", bar.base),
        Hex(b" mask ", bar.mask),
        Text(b" "),
        Text(kind.name().as_bytes()),
    ];
    append_label(text, b"to", x, y, &values)
}

// Adds the default type of a file, below its bands.
fn append_default(text: &mut Drawing, layout: &Layout, side: Side, kind: MemType) {
    let place = Rect {
        x: column_of(side),
        y: layout.bottom + 156,
        width: 92,
        height: 22,
    };
    append_labelled(text, &place, kind.name(), b"type", kind.name())
}

fn append_shape(text: &mut Drawing, layout: &Layout, rows: &[Band], shape: &Shape) {
    match *shape {
        Shape::Band(side, run) => {
            let pages = (run.first, run.first.saturating_add(run.count));
            let place = rect_over(layout, rows, column_of(side), 92, pages);
            let name = name_of_kind(run.kind);
            append_labelled(text, &place, name, b"type", name)
        }
        Shape::Bar(side, bar) => {
            append_bar(text, layout, rows, side, &bar);
            append_values(text, layout, side, &bar)
        }
        Shape::Default(side, kind) => append_default(text, layout, side, kind),
        Shape::Mark(pages) => {
            let pages = (pages.first, pages.first.saturating_add(pages.count));
            let place = rect_over(layout, rows, 424, 20, pages);
            append_labelled(text, &place, "differs", b"mark", "&#8800;")
        }
    }
}

/// Adds shapes, in their order.
pub(crate) fn append_shapes(text: &mut Drawing, layout: &Layout, rows: &[Band], shapes: &[Shape]) {
    'shapes: for shape in shapes {
        append_shape(text, layout, rows, shape);
    }
}
