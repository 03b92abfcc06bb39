//! What tests compare by. Proved once each; a test has no exit of its own at such a call, so it is cheap to prove.

use std::alloc::AllocGlobal;
use std::fmt::Debug;
use std::process::Abort;
use worked_rows::{Player, play_rows};

/// Ends the test where these differ, and shows both.
pub fn expect_equal<A: Abort, T: PartialEq + Debug>(rt: &A, found: &T, wanted: &T) {
    assert_eq!(rt; found, wanted);
}

/// Plays these rows. Ends the test at the first call that answers another thing than its row says, and where there are not so many rows.
pub fn expect_rows<A: Abort + AllocGlobal, P: Player>(
    rt: &A,
    text: &str,
    player: &mut P,
    rows: u64,
) {
    let played = play_rows(rt.alloc(), text, player).expect(rt, "memory");
    let right = played.differs.is_none() && played.rows == rows;
    assert!(rt; right, "of {rows} rows: {played:?}");
}

/// Plays these rows. Ends the test unless they differ, and that at a call whose line begins so.
pub fn expect_differs<A: Abort + AllocGlobal, P: Player>(
    rt: &A,
    text: &str,
    player: &mut P,
    call: &str,
) {
    let played = play_rows(rt.alloc(), text, player).expect(rt, "memory");
    let right = match &played.differs {
        Some(differs) => differs.call.starts_with(call),
        None => false,
    };
    assert!(rt; right, "{played:?}");
}
