ghost use Rattle.std.specs.Prelude.{◌≡◌, ◌++◌, IfOk, None, OnOk, map};
ghost use Rattle.std.specs.List.{All, filter_map};
ghost use Rattle.mt_regs.specs.Faults.{register_fault};
ghost use Rattle.mt_map.specs.Shapes.{bar_shape, band_in, column_shapes, default_of, default_shapes, mark_in, run_in, second_shapes, shapes_of};

use crate::drawing::is_different;
use crate::ranges::bars;
use crate::{Band, Bar, Pages, Shape, Side};
use mt_kinds::MemType;
use mt_regs::{RegFile, listed_type};
use mt_types::Run;
use std::alloc::{AllocError, Global};

// The pages of a row with the type that a file gives to them, if there is this file.
fn run_in(side: Side, row: &Band) -> Option<Run>
    ensures { result ≡ run_in side row.now }
{
    let kind = match side {
        Side::First => row.kind,
        Side::Second => row.other?,
    };
    Some(Run {
        first: row.first,
        count: row.count,
        kind,
    })
}

// Adds the bands of a file.
fn add_bands(shapes: &mut Vec<Shape>, side: Side, rows: &[Band]) -> Result<(), AllocError>
    ensures { OnOk result (shapes.new.items ≡ shapes.old.items ++ filter_map (band_in side) rows.now) }
{
    'rows: for row in rows {
        match run_in(side, row) {
            Some(run) => shapes.push(Shape::Band(side, run))?,
            None => {}
        }
    }
    Ok(())
}

// Adds bars of a file.
fn add_bars(shapes: &mut Vec<Shape>, side: Side, bars: &[Bar]) -> Result<(), AllocError>
    ensures { OnOk result (shapes.new.items ≡ shapes.old.items ++ map (bar_shape side) bars.now) }
{
    'bars: for bar in bars {
        shapes.push(Shape::Bar(side, *bar))?;
    }
    Ok(())
}

/// The default type of a file whose MTRRs are on.
pub(crate) fn default_of(f: &RegFile) -> Option<MemType>
    ensures { result ≡ default_of f.now }
{
    if f.is_enabled() {
        Some(listed_type((f.deftype % 256) as u8))
    } else {
        None
    }
}

fn add_default(shapes: &mut Vec<Shape>, side: Side, f: &RegFile) -> Result<(), AllocError>
    ensures { OnOk result (shapes.new.items ≡ shapes.old.items ++ default_shapes side f.now) }
{
    if let Some(kind) = default_of(f) {
        shapes.push(Shape::Default(side, kind))?;
    }
    Ok(())
}

// Adds all that is drawn of a file.
fn add_column(
    shapes: &mut Vec<Shape>,
    side: Side,
    f: &RegFile,
    rows: &[Band],
) -> Result<(), AllocError>
    requires { register_fault f.now ≡ None }
    ensures { OnOk result (shapes.new.items ≡ shapes.old.items ++ column_shapes side f.now rows.now) }
{
    add_bands(shapes, side, rows)?;
    add_bars(shapes, side, bars(f).as_slice())?;
    add_default(shapes, side, f)?;
    Ok(())
}

// Adds all that is drawn of the second file, if there is one.
fn add_second(shapes: &mut Vec<Shape>, others: &[RegFile], rows: &[Band]) -> Result<(), AllocError>
    requires { All (λ g. register_fault g ≡ None) others.now }
    ensures { OnOk result (shapes.new.items ≡ shapes.old.items ++ second_shapes others.now rows.now) }
{
    match others {
        [] => Ok(()),
        [other, ..] => add_column(shapes, Side::Second, other, rows),
    }
}

// Adds the marks of the rows in which the files differ.
fn add_marks(shapes: &mut Vec<Shape>, rows: &[Band]) -> Result<(), AllocError>
    ensures { OnOk result (shapes.new.items ≡ shapes.old.items ++ filter_map mark_in rows.now) }
{
    'rows: for row in rows {
        if is_different(row) {
            let pages = Pages {
                first: row.first,
                count: row.count,
            };
            shapes.push(Shape::Mark(pages))?;
        }
    }
    Ok(())
}

/// All that is drawn over the rows of a picture: the first file, the second one, if there is one, and the marks.
pub fn shapes(
    alloc: Global,
    f: &RegFile,
    others: &[RegFile],
    rows: &[Band],
) -> Result<Vec<Shape>, AllocError>
    requires checked { register_fault f.now ≡ None }
    requires others_checked { All (λ g. register_fault g ≡ None) others.now }
    ensures shapes { IfOk result (λ shapes. shapes.items ≡ shapes_of f.now others.now rows.now) }
{
    let mut shapes = Vec::new(alloc);
    add_column(&mut shapes, Side::First, f, rows)?;
    add_second(&mut shapes, others, rows)?;
    add_marks(&mut shapes, rows)?;
    Ok(shapes)
}
