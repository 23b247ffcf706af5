use std::fs;
use std::rt::Files;

/// The number of the calling thread, which no other thread has while it runs. None if `/proc` of Linux isn't there.
pub(crate) fn thread_number<R: Files + Alloc>(rt: &R) -> Option<u64> {
    let path = fs::read_link(rt, "/proc/thread-self").ok()?;
    path.file_name()?.parse().ok()
}
