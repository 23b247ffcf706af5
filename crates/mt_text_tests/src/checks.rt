//! What tests ask of a condition. A check here is proved once, where an assertion in a test is proved where it stands.
use std::process::Abort;

/// Fails the test, with the number of the case, unless this is so.
pub(crate) fn holds_at<R: Abort>(rt: &R, case: u64, is_so: bool) {
    assert!(rt; is_so, "at {case}");
}
