//! Bytes at random, and texts of which parts are left out, doubled, exchanged or changed.

use crate::random::Random;
use std::alloc::{AllocError, Global};

/// Bytes that a script is made of.
static USUAL: [u8; 32] = *b"\n\n\n  012890sraa_boundetlyvc\rpxw\xff";

/// How many random bytes there are at most.
const MOST: usize = 160;

fn any_byte(random: &mut Random) -> u8 {
    let k = random.below(USUAL.len());
    match USUAL.get(k) {
        Some(byte) if !random.once_in(4) => *byte,
        _ => random.byte(),
    }
}

/// Bytes at random, half of the time after a first line that can be read.
pub fn draw_bytes(random: &mut Random, alloc: Global) -> Result<Vec<u8>, AllocError> {
    let mut bytes = Vec::new(alloc);
    if random.once_in(2) {
        bytes.extend_from_slice(b"bounded 2\ntry_send s 7\n")?;
    }
    for _ in 0..random.below(MOST) {
        bytes.push(any_byte(random))?;
    }
    Ok(bytes)
}

/// The place after the line in which this place is.
pub fn after_line(text: &[u8], at: usize) -> usize {
    let mut place = at;
    for byte in text.get(at..).unwrap_or(&[]) {
        place = place.saturating_add(1);
        if *byte == b'\n' {
            return place;
        }
    }
    text.len()
}

/// A part of a text: some bytes, or a line.
fn draw_part(text: &[u8], random: &mut Random) -> (usize, usize) {
    let at = random.below(text.len());
    if random.once_in(2) {
        return (at, at.saturating_add(1).saturating_add(random.below(4)));
    }
    let from = after_line(text, at);
    (from, after_line(text, from))
}

/// The bytes between these places, as far as there are any.
pub fn between(text: &[u8], from: usize, to: usize) -> &[u8] {
    let front = text.get(..to).unwrap_or(text);
    front.get(from..).unwrap_or(&[])
}

/// These pieces one after the other.
pub fn join(pieces: &[&[u8]], alloc: Global) -> Result<Vec<u8>, AllocError> {
    let mut joined = Vec::new(alloc);
    for piece in pieces {
        joined.extend_from_slice(piece)?;
    }
    Ok(joined)
}

/// The text with one part of it left out, doubled, exchanged with what comes after it, or changed.
fn mutate_once(text: &[u8], random: &mut Random, alloc: Global) -> Result<Vec<u8>, AllocError> {
    let (from, to) = draw_part(text, random);
    let next = to.saturating_add(to.saturating_sub(from));
    let front = between(text, 0, from);
    let part = between(text, from, to);
    let back = between(text, to, text.len());
    match random.below(4) {
        0 => join(&[front, back], alloc),
        1 => join(&[front, part, part, back], alloc),
        2 => {
            let after = between(text, to, next);
            let rest = between(text, next, text.len());
            join(&[front, after, part, rest], alloc)
        }
        _ => join(&[front, &[any_byte(random)], back], alloc),
    }
}

/// The text with up to three such changes.
pub fn mutate(text: Vec<u8>, random: &mut Random, alloc: Global) -> Result<Vec<u8>, AllocError> {
    let mut changed = text;
    for _ in 0..random.below(4) {
        changed = mutate_once(changed.as_slice(), random, alloc)?;
    }
    Ok(changed)
}
