//! What may stand for an AND.

use syn_rows::Lit;

/// What may stand for a node.
#[derive(Clone, Copy, Debug, PartialEq, Eq)]
pub enum Form {
    /// A constant.
    Constant(bool),
    /// A literal of a divisor.
    One(Lit),
    /// The AND of literals of two divisors, the smaller one's first, complemented where that is true.
    Both(Lit, Lit, bool),
}

/// The constant 0. It fills places that nothing reads.
impl Default for Form {
    fn default() -> Form {
        Form::Constant(false)
    }
}
