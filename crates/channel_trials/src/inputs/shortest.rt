//! The shortest input that is at fault.

use crate::inputs::Fault;
use crate::inputs::kind::Kind;
use crate::inputs::mutate::{between, join};
use std::alloc::Global;

/// The input without each part of so many bytes that isn't needed for a fault.
fn leave_out(kind: Kind, input: Vec<u8>, part: usize, seed: u64, alloc: Global) -> Vec<u8> {
    let mut kept = input;
    let mut at = 0usize;
    for _ in 0..kept.len() {
        if at >= kept.len() {
            return kept;
        }
        let front = between(kept.as_slice(), 0, at);
        let back = between(kept.as_slice(), at.saturating_add(part), kept.len());
        match join(&[front, back], alloc) {
            Ok(rest) if kind.check(rest.as_slice(), seed, alloc).is_err() => kept = rest,
            _ => at = at.saturating_add(part),
        }
    }
    kept
}

/// The shortest input at fault that is found by leaving out its halves, the halves of these, and so on down to single bytes; and
/// its fault.
pub fn shorten(
    kind: Kind,
    input: Vec<u8>,
    fault: Fault,
    seed: u64,
    alloc: Global,
) -> (Vec<u8>, Fault) {
    let mut shortest = input;
    let mut part = shortest.len() / 2;
    for _ in 0..32 {
        if part > 0 {
            shortest = leave_out(kind, shortest, part, seed, alloc);
            part /= 2;
        }
    }
    let fault = kind
        .check(shortest.as_slice(), seed, alloc)
        .err()
        .unwrap_or(fault);
    (shortest, fault)
}
