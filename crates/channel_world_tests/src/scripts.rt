//! Scripts from bytes to bytes: worked ones, the greatest ones, and readers and writers that fail.

mod bounds;
mod faults;
mod rows;
