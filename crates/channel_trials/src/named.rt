//! Lists in which each thing stands under a number of its own.

/// What stands under a number.
pub trait Named {
    /// Its number.
    fn number(&self) -> u32;
}

/// The place of the one of this number.
fn place_of<T: Named>(all: &[T], number: u32) -> Option<usize> {
    let mut place = 0usize;
    for one in all {
        if one.number() == number {
            return Some(place);
        }
        place = place.saturating_add(1);
    }
    None
}

/// The one of this number.
pub fn find<T: Named + Copy>(all: &[T], number: u32) -> Option<T> {
    all.get(place_of(all, number)?).copied()
}

/// The same, to be changed.
pub fn find_mut<T: Named>(all: &mut [T], number: u32) -> Option<&mut T> {
    let place = place_of(all, number)?;
    all.get_mut(place)
}

/// Takes the one of this number out.
pub fn remove<T: Named + Copy>(all: &mut Vec<T>, number: u32) {
    if let Some(place) = place_of(all.as_slice(), number) {
        if place < all.len() {
            let _ = all.remove(place);
        }
    }
}
