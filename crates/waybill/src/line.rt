//! What parcels go through. Nothing is required of it, and nothing it does is relied on.

/// Something that threads put values into and take values out of: a queue, a channel, or several of them.
pub trait Line<P> {
    /// Puts a value in, once there is room. If the line is closed the value is dropped. It may wait, as far as the implementor may.
    fn put(&self, value: P);

    /// Takes a value out, once there is one. `None` if the line is closed and empty. It may wait, as far as the implementor may.
    fn next(&self) -> Option<P>;

    /// Closes the line: nothing is put in from here on.
    fn close(&self);
}
