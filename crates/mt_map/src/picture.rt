ghost use Rattle.std.specs.Prelude.{◌≡◌, ◌≤◌, ◌<◌, ◌^◌, IfOk, IfSome, None};
ghost use Rattle.std.specs.List.{All};
ghost use Rattle.mt_regs.specs.Faults.{register_fault};
ghost use Rattle.mt_regs.specs.Registers.{HasThreeDigits};
ghost use Rattle.mt_map.specs.Bands.{IsPlaced};
ghost use Rattle.mt_map.specs.Shapes.{AreRowsOf, shapes_of};

use crate::drawing::Drawing;
use crate::edges::cuts;
use crate::heading::{append_caption, append_files, append_headline, append_heads, append_verdict};
use crate::layout::{Layout, layout_of};
use crate::rows::append_rows;
use crate::shaping::shapes;
use crate::stack::{Stack, bands};
use crate::style::{KEYS, append_head};
use crate::writing::append_shapes;
use crate::{Names, Shape};
use mt_ports::NoMemory;
use mt_regs::{Fault, RegFile};
use std::alloc::{AllocError, Global};

/// What is drawn of a file, or of two: the rows, and the shapes over them.
#[derive(Drop)]
pub struct Picture {
    pub stack: Stack,
    pub shapes: Vec<Shape>,
}

/// The picture of a file beside a second one, if there is one. Both have address spaces of one size. Fails only if an
/// allocation fails.
pub fn picture_of_files(alloc: Global, f: &RegFile, others: &[RegFile]) -> Result<Picture, NoMemory>
    requires checked { register_fault f.now ≡ None }
    requires others_checked { All (λ g. register_fault g ≡ None) others.now }
    requires one_width { All (λ g. g.width ≡ f.now.width) others.now }
    ensures rows { IfOk result (λ p. AreRowsOf f.now others.now p.stack.bands.items) }
    ensures shapes { IfOk result (λ p. p.shapes.items ≡ shapes_of f.now others.now p.stack.bands.items) }
    ensures placed { IfOk result (λ p. All IsPlaced p.stack.bands.items) }
    ensures few { IfOk result (λ p. p.stack.bottom ≤ 2 ^ 50) }
{
    let cuts = cuts(alloc, f, others)?;
    let stack = bands(alloc, f, others, cuts.as_slice())?;
    let shapes = shapes(alloc, f, others, stack.bands.as_slice())?;
    Ok(Picture { stack, shapes })
}

/// What a picture says beside what its files say.
#[derive(Clone, Copy)]
pub struct Legend<'a> {
    /// The caption, in UTF-8, if there is one.
    pub title: Option<&'a [u8]>,
    pub names: Names,
    /// The version of the dump.
    pub version: u8,
    /// The first fault of all files, with the number of its processor.
    pub refusal: Option<(u32, Fault)>,
}

// Adds what stands behind the verdict.
fn append_body(
    text: &mut Drawing,
    names: Names,
    files: (&RegFile, &[RegFile]),
    layout: &Layout,
    picture: &Picture,
)
    requires placed { All IsPlaced picture.now.stack.bands.items }
{
    let (f, others) = files;
    let rows = picture.stack.bands.as_slice();
    let heads = if others.is_empty() { None } else { Some(names) };
    append_files(text, names, f, others);
    text.add(KEYS);
    append_heads(text, layout, heads);
    append_rows(text, layout.width, rows);
    append_shapes(text, layout, rows, picture.shapes.as_slice());
    text.add(b"</svg>\n");
}

/// The text of the picture of a file beside a second one, if there is one.
pub fn picture_text(
    alloc: Global,
    legend: &Legend<'_>,
    f: &RegFile,
    others: &[RegFile],
    picture: &Picture,
) -> Result<Vec<u8>, AllocError>
    requires short { IfSome legend.now.refusal (λ found. HasThreeDigits found.1.msr) }
    requires bottom { picture.now.stack.bottom ≤ 2 ^ 50 }
    requires placed { All IsPlaced picture.now.stack.bands.items }
{
    let layout = layout_of(f, others, legend.title, picture.stack.bottom);
    let mut text = Drawing::new(alloc);
    append_head(&mut text, &layout);
    append_caption(alloc, &mut text, legend.title)?;
    append_headline(&mut text, others, picture.stack.bands.as_slice());
    append_verdict(&mut text, legend);
    append_body(&mut text, legend.names, (f, others), &layout, picture);
    text.finish()
}
