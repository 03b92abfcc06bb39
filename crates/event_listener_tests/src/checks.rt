//! What tests compare by. Proved once each; a test has no exit of its own at such a call, so it is cheap to prove.

use std::alloc::AllocGlobal;
use std::fmt::Debug;
use std::process::Abort;
use worked_rows::{Player, play_rows};

/// Ends the test where these differ, and shows both.
pub fn expect_equal<A: Abort, T: PartialEq + Debug>(rt: &A, found: &T, wanted: &T) {
    assert!(rt; found == wanted, "{found:?} is not {wanted:?}");
}

/// Ends the test where this is false.
pub fn expect_true<A: Abort>(rt: &A, it: bool) {
    assert!(rt; it);
}

/// Plays these rows. Ends the test at the first call that answers another thing than its row says, and where there are not so many rows.
pub fn expect_rows<A: Abort + AllocGlobal, P: Player>(
    rt: &A,
    text: &str,
    player: &mut P,
    rows: u64,
) {
    let played = play_rows(rt.alloc(), text, player).expect(rt, "memory");
    let right = played.differs.is_none() && played.rows == rows;
    assert!(rt; right, "of {rows} rows: {played:?}");
}
