//! What tests compare by. Proved once each; a test has no exit of its own at such a call, so it is cheap to prove.

use crate::scarcity::Seen;
use std::fmt::Debug;
use std::process::Abort;

/// Ends the test where these differ, and shows both.
pub fn expect_equal<A: Abort, T: PartialEq + Debug>(rt: &A, found: &T, wanted: &T) {
    assert_eq!(rt; found, wanted);
}

/// Ends the test where this is false.
pub fn expect_true<A: Abort>(rt: &A, it: bool) {
    assert!(rt; it);
}

/// Ends the test where something was wrong while memory was taken, where other than so many calls were made at last, or where fewer requests
/// than these were refused.
pub fn expect_seen<A: Abort>(rt: &A, seen: &Seen, calls: u32, refusals: u32) {
    let right = seen.right && seen.calls == calls && seen.refusals >= refusals;
    assert!(rt; right, "{seen:?}");
}

/// Ends the test where something was wrong while memory was taken.
pub fn expect_right<A: Abort>(rt: &A, seen: &Seen) {
    assert!(rt; seen.right, "{seen:?}");
}
