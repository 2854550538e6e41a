//! Where the pair of a gate is looked up: which rows are there that a plan may use.

ghost use Rattle.std.specs.Prelude.{◌≡◌, ◌≢◌, ℕ, ◌<◌, IfNone, IfSome, Option, length};
ghost use Rattle.syn_rows.specs.declared.Lit.{Lit};
ghost use Rattle.syn_rows.specs.declared.TheConstants.{NODE_LIMIT};
ghost use Rattle.syn_rows.specs.Rows.{node_of, row_at};
ghost use Rattle.syn_rows.specs.Joining as joining;
ghost use Rattle.syn_hashed.specs.Indexed.{IsIndexOf};
ghost use Rattle.syn_hashed.specs.Joined.{PairsOnce};
ghost use Rattle.syn_gain.specs.Lookups.{AreRowsBelow};
ghost use Rattle.syn_gain.specs.Placing as spec;

use syn_hashed::PairIndex;
use syn_rows::{Lit, Row};

/// Looks up the rows that are there.
pub trait Lookup {
    /// What makes the look-up right.
    ghost stands: { Self → Type 0 };

    /// Which answers are right for a pair of literals.
    ghost finds: { Self → Lit → Lit → Option Lit → Type 0 };

    /// The number of the first new row.
    ghost first: { Self → ℕ };

    /// The number of the first new row: it is above those of all rows that are there.
    fn first_new(&self) -> u32
        requires { stands self.now }
        ensures { result ≡ first self.now };

    /// The literal of a row that is there and is the AND of two literals, neither of which is a new row's.
    fn find(&self, x: Lit, y: Lit) -> Option<Lit>
        requires stands { stands self.now }
        requires first { node_of x < first self.now }
        requires second { node_of y < first self.now }
        ensures found { finds self.now x y result }
        ensures there { IfSome result (λ l. node_of l < first self.now) };
}

/// The rows below a root, with the index of all.
#[derive(Clone, Copy, Debug)]
pub struct RowsBelow<'a> {
    /// All rows.
    pub rows: &'a [Row],
    /// The index of their pairs.
    pub index: &'a PairIndex,
    /// The rows from this node on aren't used.
    pub root: u32,
}

impl Lookup for RowsBelow<'_> {
    ghost stands = { λ below. AreRowsBelow below.rows.now below.index.now below.root };

    ghost finds = { λ below x y found. found ≡ spec.literal_below below.rows.now below.root x y };

    ghost first = { λ below. length below.rows.now };

    #[inline]
    fn first_new(&self) -> u32 {
        self.rows.len() as u32
    }

    #[inline]
    fn find(&self, x: Lit, y: Lit) -> Option<Lit> {
        literal_below(self.rows, self.index, self.root, x, y)
    }
}

// The node of the pair, the smaller literal first.
fn find(rows: &[Row], index: &PairIndex, x: Lit, y: Lit) -> Option<u32>
    requires index { IsIndexOf rows.now index.now }
    requires pairs { PairsOnce rows.now }
    ensures some { IfSome result (λ n. (n < length rows.now) × (row_at rows.now n ≡ joining.ordered_and x y)) }
    ensures none { IfNone result ((n : ℕ) → row_at rows.now n ≢ joining.ordered_and x y) }
{
    if x.0 < y.0 {
        index.find(rows, x, y)
    } else {
        index.find(rows, y, x)
    }
}

/// The literal of the row below the root that is the AND of x and y.
pub fn literal_below(rows: &[Row], index: &PairIndex, root: u32, x: Lit, y: Lit) -> Option<Lit>
    requires index { IsIndexOf rows.now index.now }
    requires pairs { PairsOnce rows.now }
    requires few { length rows.now < NODE_LIMIT }
    ensures literal { result ≡ spec.literal_below rows.now root x y }
    ensures there { IfSome result (λ l. node_of l < length rows.now) }
{
    match find(rows, index, x, y) {
        Some(node) if node < root => Some(Lit::of(node, false)),
        _ => None,
    }
}
