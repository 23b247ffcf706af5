ghost use Rattle.std.specs.Prelude.{◌≤◌};
ghost use Rattle.std.specs.List.{All};
ghost use Rattle.mt_map.specs.Bands.{IsPlaced};

use crate::Band;
use crate::drawing::Part::Hex;
use crate::drawing::{Drawing, append_label, append_rule};
use crate::size::append_size;
use crate::stack::height;
use mt_kinds::PAGE_BYTES;

// Adds the first and the last byte address of a row, and its size, in a picture of this width.
fn append_row(text: &mut Drawing, width: u64, row: &Band)
    requires placed { IsPlaced row.now }
    requires wide { 24 ≤ width }
{
    let y = 154 + row.top + height(row.count) / 2;
    append_rule(text, 150 + row.top, width - 24);
    append_label(text, b"from", 112, y, &[Hex(b"", PAGE_BYTES * row.first)]);
    let last = PAGE_BYTES * (row.first + row.count) - 1;
    append_label(text, b"to", 118, y, &[Hex(b"- ", last)]);
    append_size(text, y, row.count)
}

/// Adds the addresses and sizes of the rows of a picture of this width.
pub(crate) fn append_rows(text: &mut Drawing, width: u64, rows: &[Band])
    requires placed { All IsPlaced rows.now }
    requires wide { 24 ≤ width }
{
    'rows: for row in rows {
        append_row(text, width, row);
    }
}
