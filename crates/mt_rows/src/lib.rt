//! Lines by rows: a row is data, and one function reads the lines of every row.
#![tactic(auto)]

mod laws;
mod row;
mod scan;

pub use laws::{a_line_is_of_one_row, what_is_cut_is_not_read, what_is_printed_is_read};
pub use row::{
    BETWEEN, BLANKS, DECIMAL, EX, FIGURE, FIGURES, Field, Fields, HEX, HEX_8, HEX_16, Kind, MARKS,
    NUMBER, Part, Run, SPACE, WORD,
};
pub use scan::scanned;
