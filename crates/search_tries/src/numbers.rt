//! Numbers of 32 bits.

/// A number as one of 32 bits; the greatest of these where it is above them.
pub(crate) fn number_of(place: usize) -> u32 {
    match u32::try_from(place) {
        Ok(number) => number,
        Err(_) => u32::MAX,
    }
}
