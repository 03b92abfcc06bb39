//! Drawing by weights.

/// The one of these on which this number falls, where each has as many numbers as its weight says.
pub fn fall_on<A: Copy>(weights: &[(A, usize)], number: usize) -> Option<A> {
    let mut left = number;
    for (one, weight) in weights {
        if left < *weight {
            return Some(*one);
        }
        left = left.saturating_sub(*weight);
    }
    None
}
