//! Tables that can be read and written at any place, so that a place needs no proof that it is in the table.

/// The item at a place, or `none` past the end of the table.
pub(crate) fn get<T: Copy>(table: &[T], place: usize, none: T) -> T {
    match table.get(place) {
        Some(item) => *item,
        None => none,
    }
}

/// Writes an item at a place, if the table has the place.
pub(crate) fn set<T: Copy>(table: &mut [T], place: usize, item: T) {
    if let Some(here) = table.get_mut(place) {
        *here = item;
    }
}
