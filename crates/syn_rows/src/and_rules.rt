//! The rules by which two literals are joined to their AND.

ghost use Rattle.std.specs.Prelude.{◌≡◌};
ghost use Rattle.syn_rows.specs.Joining.{is_and_of, ordered_and, OrderedAndIsRowOfPair, RowOfPairIsAnd, simple_and, SimpleAndIsAnd};

use crate::{FALSE, Lit, Row, TRUE};

/// The AND of two literals where it needs no row: equal literals, complements, and a constant among the two.
#[inline]
pub fn simple_and(x: Lit, y: Lit) -> Option<Lit>
    ensures { result ≡ simple_and x y }
{
    if x == y {
        Some(x)
    } else if x.node() == y.node() || x == FALSE || y == FALSE {
        Some(FALSE)
    } else if x == TRUE {
        Some(y)
    } else if y == TRUE {
        Some(x)
    } else {
        None
    }
}

/// Whether the row is the AND of x and y, in either order.
#[inline]
pub fn is_and_of(x: Lit, y: Lit, row: Row) -> bool
    ensures { result ≡ is_and_of x y row }
{
    match row {
        Row::And(a, b) => x.0 == a.0 && y.0 == b.0 || x.0 == b.0 && y.0 == a.0,
        Row::Free | Row::Source | Row::Alias(_) => false,
    }
}

/// The AND of two literals as a row, the smaller literal first.
#[inline]
pub fn ordered_and(x: Lit, y: Lit) -> Row
    ensures { result ≡ ordered_and x y }
{
    if x.0 < y.0 {
        Row::And(x, y)
    } else {
        Row::And(y, x)
    }
}

/// What the rules give has the value of the AND, for all valuations. It computes nothing.
pub fn joined_literals()
    ensures simple { SimpleAndIsAnd }
    ensures row { RowOfPairIsAnd }
    ensures ordered { OrderedAndIsRowOfPair }
{}
