//! What is put into answers.

use std::alloc::AllocError;
use std::fmt::Debug;

/// A value, behind a space where it isn't the first.
pub fn put<T: Debug + Drop>(
    out: &mut String,
    found: Result<T, AllocError>,
) -> Result<(), AllocError> {
    match found {
        Ok(found) if out.is_empty() => write!(out, "{found:?}"),
        Ok(found) => write!(out, " {found:?}"),
        Err(error) => Err(error),
    }
}

/// The words of a function's table, in hexadecimal.
pub fn put_words(out: &mut String, low: u128, high: u128) -> Result<(), AllocError> {
    write!(out, "{low:#x} {high:#x}")
}
