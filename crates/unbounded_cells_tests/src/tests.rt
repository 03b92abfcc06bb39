use crate::numbers::Numbers;
use crate::threads::{goes_round, nothing_is_lost, push_all};
use concurrent_queue::PopError;
use std::test::Fail;

#[test]
fn numbers_come_out_in_order(rt: HostRuntime) -> Result<(), Fail> {
    let queue = Numbers::new(rt.alloc())?;
    let right = goes_round(&rt, &queue, 1, 1000);
    assert!(rt; right);
    Ok(())
}

#[test]
fn blocks_are_used_again(rt: HostRuntime) -> Result<(), Fail> {
    let queue = Numbers::new(rt.alloc())?;
    let right = goes_round(&rt, &queue, 200, 70);
    assert!(rt; right);
    Ok(())
}

#[test]
fn a_closed_queue_takes_no_more(rt: HostRuntime) -> Result<(), Fail> {
    let queue = Numbers::new(rt.alloc())?;
    let accepted = push_all(&rt, &queue, 0, 40);
    let closed = queue.close(&rt);
    let again = queue.close(&rt);
    let pushed = queue.push(&rt, 40);
    let count = queue.count(&rt);
    assert!(rt; accepted == 40 && closed && !again && !pushed && count == 40);
    Ok(())
}

#[test]
fn an_empty_queue_says_so(rt: HostRuntime) -> Result<(), Fail> {
    let queue = Numbers::new(rt.alloc())?;
    let open = queue.pop(&rt) == Err(PopError::Empty);
    queue.close(&rt);
    let closed = queue.pop(&rt) == Err(PopError::Closed);
    assert!(rt; open && closed);
    Ok(())
}

#[test]
fn threads_lose_nothing(rt: HostRuntime) -> Result<(), Fail> {
    let queue = Numbers::new(rt.alloc())?;
    let kept = nothing_is_lost(&rt, &queue, 3000);
    assert!(rt; kept);
    Ok(())
}
