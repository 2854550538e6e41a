//! Reads and writes of lists that are in place where the index is.

/// The element, or another value past the end.
#[inline]
pub(crate) fn at<T: Copy>(xs: &[T], i: usize, default: T) -> T {
    if i < xs.len() { xs[i] } else { default }
}

/// Writes the element, if it is there.
#[inline]
pub(crate) fn put<T: Copy>(xs: &mut [T], i: usize, x: T) {
    if i < xs.len() {
        xs[i] = x;
    }
}

/// A count in 32 bits, the greatest of these for any that has more.
#[inline]
pub(crate) fn short(count: usize) -> u32 {
    u32::try_from(count).unwrap_or(u32::MAX)
}
