//! What a queue of one owner does where memory is refused, and to messages of a type that counts.

use crate::checks::expect_equal;
use concurrent_queue::exclusive::Exclusive;
use std::rc::Rc;

/// So many copies are pushed, and so many displace.
fn put_copies(queue: &mut Exclusive<Rc<u64>>, counted: &Rc<u64>, pushes: u32, displacing: u32) {
    for place in 0..pushes.wrapping_add(displacing) {
        if let Ok(copy) = counted.clone() {
            if place < pushes {
                drop(queue.push(copy));
            } else {
                drop(queue.force_push(copy));
            }
        }
    }
}

/// How many copies there are once so many were put and so many left, and how many once the queue is gone. None where there is no queue.
fn copies_held(
    opened: Option<Exclusive<Rc<u64>>>,
    counted: &Rc<u64>,
    [pushes, displacing, pops]: [u32; 3],
) -> Option<[usize; 2]> {
    let mut queue = opened?;
    put_copies(&mut queue, counted, pushes, displacing);
    for _ in 0..pops {
        drop(queue.pop());
    }
    let held = Rc::strong_count(counted);
    drop(queue);
    Some([held, Rc::strong_count(counted)])
}

#[test]
fn what_is_left_is_dropped_once(rt: HostRuntime) {
    let alloc = rt.alloc();
    let counted = Rc::new(alloc, 7u64).expect(&rt, "memory");
    let held = [
        copies_held(Exclusive::bounded(alloc, 1).ok(), &counted, [1, 1, 0]),
        copies_held(Exclusive::bounded(alloc, 2).ok(), &counted, [0, 3, 0]),
        copies_held(Some(Exclusive::unbounded(alloc)), &counted, [40, 0, 3]),
    ];
    drop(counted);
    let wanted = [Some([1 + 1, 1]), Some([1 + 2, 1]), Some([1 + 37, 1])];
    expect_equal(&rt, &held, &wanted);
}
