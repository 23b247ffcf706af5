//! A run as a picture: a lane for each processor, a row for each line of the transcript.

pub(crate) mod caption;
mod drawing;
pub(crate) mod labels;
mod layout;
pub(crate) mod rows;
mod style;
mod svg;

pub(crate) use drawing::{Drawn, is_stale, picture_text};
pub use rows::{Held, Lane, Row, rows_follow_the_run};
