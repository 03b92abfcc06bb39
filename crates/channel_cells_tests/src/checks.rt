//! What tests compare by. It is proved once, and a test has no exit of its own at such a call.

use std::fmt::Debug;
use std::process::Abort;

/// Ends the test where these differ, and shows both.
pub fn expect_equal<A: Abort, T: PartialEq + Debug>(rt: &A, found: &T, wanted: &T) {
    assert_eq!(rt; found, wanted);
}
