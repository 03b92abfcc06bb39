//! Three threads at once, by two joins.

ghost use denote.Param.Send.{IsSend};

use std::marker::{Send, Sync};
use std::thread;
use std::thread::Threads;

/// Calls three functions at once, each in a thread of its own, waits for all of them, and returns what they returned.
pub(crate) fn join_three<R, F, G, H, X, Y, Z>(rt: &R, first: F, second: G, third: H) -> (X, Y, Z)
where
    R: Threads + Sync,
    F: FnOnce() -> X + Send,
    G: FnOnce() -> Y + Send + Drop,
    H: FnOnce() -> Z + Drop,
    X: Send,
    Y: Send,
    requires first { F.pre first }
    requires second { G.pre second }
    requires third { H.pre third }
{
    let (x, (y, z)) = thread::join(
        rt,
        first,
        move ||
            requires { IsSend G.row × IsSend Y.row × G.pre second × H.pre third }
            ensures { Unit }
        { thread::join(rt, second, third) },
    );
    (x, y, z)
}
