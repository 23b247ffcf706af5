use crate::checks::holds_at;
use mt_ports::MemSource;
use mt_text::{Feed, Place, end_place};
use std::test::Fail;

#[test]
fn a_drained_feed_ends_where_its_text_does(rt: HostRuntime) -> Result<(), Fail> {
    let alloc = rt.alloc();
    let text = b"a\nb\n".as_slice();
    let end = Place { line: 3, column: 1 };
    holds_at(&rt, 0, end_place(text) == end);
    for piece in 1..5 {
        let mut source = MemSource::new(text.to_vec(alloc)?, piece, Vec::new(alloc));
        let mut feed = Feed::new();
        let is_drained = feed.drain(&mut source).is_ok() && feed.taken() == 4;
        holds_at(&rt, piece as u64, is_drained && feed.end() == end);
    }
    Ok(())
}
