//! Reports on dumps, as texts and as JSON: every fault of their registers, what gives a page its type, what differs between two dumps,
//! and how many pairs the types need.
#![tactic(auto)]

mod diff;
mod error;
mod faults;
mod fields;
mod fit;
mod forms;
mod map;
mod mend;
mod mending;
mod notes;
mod object;
mod page;
mod ram;
mod registers;
mod report;
mod text;
mod unlike;

pub use diff::{Sides, View, diff_answer, diff_of_cpus_answer};
pub use error::{NoReport, given_by};
pub use faults::faults_answer;
pub use fit::fit_answer;
pub use map::pages_by;
pub use mend::mend_answer;
pub use mending::{Mending, Style, type_of, wish_of};
pub use page::page_answer;
pub use ram::{NamedMap, ram_answer};
pub use report::{Answer, Form, Named, error_line};
