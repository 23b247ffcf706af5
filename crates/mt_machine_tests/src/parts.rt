//! What no program calls.
use crate::checks::holds;
use mt_cache::Buffers;
use mt_ram::Ram;

#[test]
fn the_oldest_buffer_is_taken(rt: HostRuntime) {
    let mut buffers = Buffers::new();
    for number in 1..4 {
        holds(&rt, buffers.combine(number, 0, 7, 0).is_none());
    }
    holds(
        &rt,
        matches!(buffers.take_oldest(), Some(line) if line.number == 1),
    );
}

/// Whether a word of the second line of a window is written through that line.
fn writes_through_line(ram: &mut Ram) -> bool {
    if ram.add(0x1000, 2).is_err() || ram.words() != 16 {
        return false;
    }
    ram.line_mut(8)[2] = 9;
    ram.read(0x1050) == 9
}

#[test]
fn a_line_is_lent(rt: HostRuntime) {
    holds(&rt, writes_through_line(&mut Ram::new(rt.alloc())));
}
