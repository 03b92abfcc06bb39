//! Messages of a type of one's own, which has no `Debug`. `?` needs that of a refusal that hands its message back; `without_message` drops
//! the message, and is an error for every type.

use async_channel::{EventIds, Receiver, Runtime, Sender, bounded};
use std::alloc::Global;
use std::sync::Wait;
use std::thread;

/// What a guest orders.
#[derive(Drop)]
struct Order {
    dish: &'static str,
    count: u64,
}

/// Sends two orders.
fn send_two<R: Wait + Copy>(kitchen: &Sender<Order, R>) -> anyhow::Result<u64> {
    for (dish, count) in [("soup", 2), ("bread", 3)] {
        let order = Order { dish, count };
        kitchen
            .send_blocking(order)
            .map_err(|refused| refused.without_message())?;
    }
    Ok(2)
}

/// How many portions are to be made, until nobody orders any more.
fn count_portions<R: Wait + Copy>(orders: Receiver<Order, R>) -> anyhow::Result<u64> {
    let mut portions = 0u64;
    for order in &orders {
        let order = order?;
        if !order.dish.is_empty() {
            portions = portions.wrapping_add(order.count);
        }
    }
    Ok(portions)
}

fn order_two<R: Wait + Copy>(kitchen: Sender<Order, R>) -> Option<u64> {
    send_two(&kitchen).ok()
}

fn cook<R: Wait + Copy>(orders: Receiver<Order, R>) -> Option<u64> {
    count_portions(orders).ok()
}

/// The portions of two orders.
pub(crate) fn portions<R: Runtime>(rt: R, alloc: Global, ids: &mut EventIds) -> Option<u64> {
    let (kitchen, orders) = bounded(rt, alloc, 1, ids).ok()?;
    let (sent, portions) = thread::join(&rt, move || order_two(kitchen), move || cook(orders));
    sent?;
    portions
}
