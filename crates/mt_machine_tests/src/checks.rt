//! What tests ask of a condition, and of a value that may be missing. A check here is proved once, where an assertion
//! in a test is proved where it stands.
use std::process::Abort;

/// Fails the test unless this is so.
pub(crate) fn holds<R: Abort>(rt: &R, is_so: bool) {
    assert!(rt; is_so);
}

/// Fails the test, with the number of the case, unless this is so.
pub(crate) fn holds_at<R: Abort>(rt: &R, case: u64, is_so: bool) {
    assert!(rt; is_so, "at {case}");
}

/// The value. Fails the test if there is none.
pub(crate) fn some<R: Abort, T>(rt: &R, value: Option<T>) -> T {
    value.expect(rt, "the value is there")
}
