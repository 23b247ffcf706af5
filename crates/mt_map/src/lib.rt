//! Pictures of the types that a dump's register files give to the address space.
#![tactic(auto)]

mod asked;
mod band;
mod bar;
mod drawing;
mod edges;
mod heading;
mod labels;
mod layout;
mod names;
mod picture;
mod program;
mod ranges;
mod rect;
mod rows;
mod running;
mod shape;
mod shaping;
mod size;
mod stack;
mod style;
mod writing;

pub use asked::{Asked, asked_by};
pub use band::Band;
pub use bar::Bar;
pub use edges::cuts;
pub use labels::{Labels, labels_of};
pub use names::Names;
pub use picture::{Legend, Picture, picture_of_files, picture_text};
pub use program::program_status;
pub use ranges::{Bars, bars};
pub use rect::Rect;
pub use running::{draw, map, picture_of};
pub use shape::{Pages, Shape, Side};
pub use shaping::shapes;
pub use size::{Size, Unit, page_size};
pub use stack::{Stack, bands, height, top_of};
