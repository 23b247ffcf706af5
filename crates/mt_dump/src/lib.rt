//! The text of a dump.
#![tactic(auto)]

mod canon;
mod dumps;
mod fault;
mod for_processors;
mod given;
mod laws;
mod line;
mod reader;
mod said;
mod texts;

pub use canon::{number_text, value_text, write_dump};
pub use dumps::Dump;
pub use fault::{DumpFault, DumpReason};
pub use given::{Given, GivenDump, read_given};
pub use laws::{
    a_comment_shows_nothing, a_dump_is_of_version_1_where_no_other_is_told,
    a_dump_is_shown_by_its_text, a_register_file_is_shown_by_its_text,
    a_text_is_read_as_what_it_shows, a_text_shows_a_dump_or_has_an_offence, a_text_shows_one_dump,
    canonical_texts_are_equal_where_dumps_are, the_canonical_text_shows_its_dump,
    what_a_text_shows_is_a_dump, what_is_plainly_shown_is_shown,
};
pub use reader::{DumpReader, read_dump, read_dump_from};
pub use texts::{TextBuffer, append_canon, append_text, canonical_text};
