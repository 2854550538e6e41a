//! What a comparison of two graphs gives.

/// How two graphs compare that have as many sources and as many observed literals.
#[derive(Debug, Drop)]
pub enum Equality {
    /// The observed literals have the same values for all values of the sources.
    Equivalent,
    /// The observed literals at this place have different values for these values of the sources.
    Different { signal: usize, values: Vec<bool> },
    /// Of so many places it was not found out, and no difference was seen.
    Undecided { signals: usize },
}
