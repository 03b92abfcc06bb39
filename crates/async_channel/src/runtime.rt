//! One bound for all that a program's own functions ask of the runtime.
//!
//! # Extensions
//!
//! All of this module.

use std::alloc::AllocGlobal;
use std::random::RandomSource;
use std::sync::Wait;
use std::thread::Threads;
use std::time::Clock;

/// What handles, threads, `block_on` and clocks ask of a runtime. A program's runtime has it all; a function that needs less may say so:
/// `R: Wait + Copy` is enough for handles.
pub trait Runtime: Wait + Threads + Clock + RandomSource + AllocGlobal + Copy + Send + Sync {}

impl<R: Wait + Threads + Clock + RandomSource + AllocGlobal + Copy + Send + Sync> Runtime for R {}
