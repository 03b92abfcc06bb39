//! The rows of [`queue_rows`](crate::queue_rows), of [`turn_rows`](crate::turn_rows) and of [`scarce_rows`](crate::scarce_rows).

use crate::checks::expect_rows;
use crate::queue_rows::QUEUES;
use crate::queues::Queues;
use crate::scarce::Wanting;
use crate::scarce_rows::WANTS;
use crate::turn_rows::TURNS;
use crate::turns::Turns;

#[test]
fn queues(rt: HostRuntime) {
    expect_rows(&rt, QUEUES, &mut Queues::new(rt, rt.alloc()), 9);
}

#[test]
fn turns(rt: HostRuntime) {
    expect_rows(&rt, TURNS, &mut Turns::new(rt.alloc()), 6);
}

#[test]
fn wants(rt: HostRuntime) {
    let mut wanting = Wanting::new(rt.alloc()).expect(&rt, "memory");
    expect_rows(&rt, WANTS, &mut wanting, 8);
}
