//! What tests compare by. Proved once each; a test has no exit of its own at such a call, so it is cheap to prove.

use futures::test::MockTask;
use std::alloc::{AllocError, AllocGlobal};
use std::fmt::Debug;
use std::process::Abort;
use std::random::RandomSource;
use worked_rows::Played;

/// Ends the test where these differ, and shows both.
pub fn expect_equal<A: Abort, T: PartialEq + Debug>(rt: &A, found: &T, wanted: &T) {
    assert_eq!(rt; found, wanted);
}

/// Ends the test where this is false.
pub fn expect_true<A: Abort>(rt: &A, it: bool) {
    assert!(rt; it);
}

/// A task of its own; without one the test ends.
pub fn new_task<R: Abort + RandomSource + AllocGlobal>(rt: &R) -> MockTask {
    MockTask::new(rt).expect(rt, "memory")
}

/// Ends the test where a call answered another thing than its row says, and where there were not so many rows.
pub fn expect_played<A: Abort>(rt: &A, played: &Result<Played<'_>, AllocError>, rows: u64) {
    match played {
        Ok(played) => {
            assert!(rt; played.differs.is_none(), "{:?}", played.differs);
            assert_eq!(rt; played.rows, rows);
        }
        Err(AllocError) => assert!(rt; false),
    }
}
