//! Recorded channels: what their users can prove of them, what threads do to them, and what no contract says.

mod capacity;
mod four;
mod gather;
mod refused;
mod replay;
mod seats;
mod talk;
mod uses;
