//! Rows under construction, in which no pair of literals stands twice.

ghost use Rattle.std.specs.Prelude.{◌≡◌, ◌≢◌, ℕ, ◌+◌, ◌*◌, ◌^◌, ◌<◌, ◌≤◌, ◌++◌, ◌∷◌, [], ◌&&◌, ◌⊎◌, Bool, false, true, max, length, replicate, IfNone, IfOk, IfSome, OnErr, OnOk};
ghost use Rattle.syn_rows.specs.declared.TheConstants.{NODE_LIMIT};
ghost use Rattle.syn_rows.specs.declared.Row.{Row};
ghost use Rattle.syn_rows.specs.Rows.{node_of, row_at};
ghost use Rattle.syn_rows.specs.Values.{lit_value};
ghost use Rattle.syn_hashed.specs.Hashed.{is_gate, IsHashed};
ghost use Rattle.syn_hashed.specs.Growing.{Extends, IsAnd, IsJoin, IsOr, KeepsValues};
ghost use Rattle.syn_hashed.specs.Indexed.{IsIndexOf};
ghost use Rattle.syn_hashed.specs.Joined.{joined_lit, joined_rows};
ghost use Rattle.syn_rows.specs.Joining.{simple_and};

use crate::pairs::PairIndex;
use std::alloc::{AllocError, Global};
use syn_rows::{Lit, Row, simple_and};

/// Rows that grow by ANDs: node 0 and the sources, then ANDs of two different nodes, no two of the same pair of literals.
#[derive(Debug, Drop)]
pub struct HashedRows {
    /// The number of sources, whose nodes are 1, 2 and so on.
    pub source_count: usize,
    /// The row of each node.
    pub rows: Vec<Row>,
    /// The index of the pairs.
    pub index: PairIndex,
    pub ghost hashed: { IsHashed source_count rows.items },
    pub ghost indexed: { IsIndexOf rows.items index },
}

impl HashedRows {
    /// Node 0 and so many sources.
    pub fn new(alloc: Global, source_count: usize) -> Result<HashedRows, AllocError>
        requires { source_count + 1 < NODE_LIMIT }
        ensures sources { IfOk result (λ h. h.source_count ≡ source_count) }
        ensures rows { IfOk result (λ h. length h.rows.items ≡ source_count + 1) }
    {
        let rows = source_rows(alloc, source_count)?;
        let index = PairIndex::of(alloc, rows.as_slice())?;
        Ok(HashedRows {
            source_count,
            rows,
            index,
        })
    }

    /// The rows alone.
    pub fn into_rows(self) -> Vec<Row>
        ensures { result.items ≡ self.rows.items }
    {
        let HashedRows {
            source_count: _,
            rows,
            index: _,
        } = self;
        rows
    }

    /// The AND of two literals of rows that are there: without a row of its own for equal literals, complements and
    /// constants, else that of the two literals' row, which is made where it isn't there. The only error is want of memory,
    /// and leaves the rows as they were.
    pub fn and(&mut self, a: Lit, b: Lit) -> Result<Lit, AllocError>
        requires first { node_of a < length self.old.rows.items }
        requires second { node_of b < length self.old.rows.items }
        requires room { length self.old.rows.items + 1 < NODE_LIMIT }
        ensures sources { self.new.source_count ≡ self.old.source_count }
        ensures grows { Extends self.old.rows.items self.new.rows.items }
        ensures kept { KeepsValues self.old.rows.items self.new.rows.items }
        ensures few { length self.new.rows.items ≤ length self.old.rows.items + 1 }
        ensures constant { b.0 < 2 → length self.new.rows.items ≡ length self.old.rows.items }
        ensures there { IfOk result (λ l. node_of l < length self.new.rows.items) }
        ensures value { IfOk result (λ l. IsAnd self.old.rows.items a b self.new.rows.items l) }
        ensures joined { IfOk result (λ l. IsJoin self.new.rows.items a b l) }
        ensures literal { IfOk result (λ l. l ≡ joined_lit self.old.rows.items a b) }
        ensures rows { OnOk result (self.new.rows.items ≡ joined_rows self.old.rows.items a b) }
        ensures err { OnErr result (self.new.rows.items ≡ self.old.rows.items) }
    {
        match trivial_and(a, b) {
            Some(literal) => Ok(literal),
            None if a.0 < b.0 => self.gate(a, b),
            None => self.gate(b, a),
        }
    }

    /// The OR of two literals, as `and` is.
    pub fn or(&mut self, a: Lit, b: Lit) -> Result<Lit, AllocError>
        requires first { node_of a < length self.old.rows.items }
        requires second { node_of b < length self.old.rows.items }
        requires room { length self.old.rows.items + 1 < NODE_LIMIT }
        ensures sources { self.new.source_count ≡ self.old.source_count }
        ensures grows { Extends self.old.rows.items self.new.rows.items }
        ensures kept { KeepsValues self.old.rows.items self.new.rows.items }
        ensures few { length self.new.rows.items ≤ length self.old.rows.items + 1 }
        ensures there { IfOk result (λ l. node_of l < length self.new.rows.items) }
        ensures value { IfOk result (λ l. IsOr self.old.rows.items a b self.new.rows.items l) }
        ensures err { OnErr result (self.new.rows.items ≡ self.old.rows.items) }
    {
        let neither = self.and(a.not(), b.not())?;
        Ok(neither.not())
    }

    // The plain literal of the row of a pair, the smaller literal first, made where it isn't there.
    fn gate(&mut self, first: Lit, second: Lit) -> Result<Lit, AllocError>
        requires gate { is_gate (length self.old.rows.items) (Row.And first second) ≡ true }
        requires room { length self.old.rows.items + 1 < NODE_LIMIT }
        ensures sources { self.new.source_count ≡ self.old.source_count }
        ensures grows { Extends self.old.rows.items self.new.rows.items }
        ensures kept { KeepsValues self.old.rows.items self.new.rows.items }
        ensures few { length self.new.rows.items ≤ length self.old.rows.items + 1 }
        ensures there { IfOk result (λ l. node_of l < length self.new.rows.items) }
        ensures value { IfOk result (λ l. IsAnd self.old.rows.items first second self.new.rows.items l) }
        ensures row { IfOk result (λ l. row_at self.new.rows.items (node_of l) ≡ Row.And first second) }
        ensures literal { IfOk result (λ l. l ≡ joined_lit self.old.rows.items first second) }
        ensures rows { OnOk result (self.new.rows.items ≡ joined_rows self.old.rows.items first second) }
        ensures err { OnErr result (self.new.rows.items ≡ self.old.rows.items) }
    {
        match self.index.find(self.rows.as_slice(), first, second) {
            Some(node) => Ok(Lit::of(node, false)),
            None => {
                let node = self.rows.len() as u32;
                self.index.push(&mut self.rows, first, second)?;
                Ok(Lit::of(node, false))
            }
        }
    }
}

/// Node 0 and the sources.
pub fn source_rows(alloc: Global, source_count: usize) -> Result<Vec<Row>, AllocError>
    requires { source_count + 1 < NODE_LIMIT }
    ensures { IfOk result (λ v. v.items ≡ replicate (source_count + 1) Row.Source) }
{
    vec![in alloc; Row::Source; source_count + 1]
}

// The AND of two literals where it needs no row.
#[inline]
fn trivial_and(a: Lit, b: Lit) -> Option<Lit>
    ensures is { result ≡ simple_and a b }
    ensures value { IfSome result (λ l. (v : ℕ → Bool) → v 0 ≡ false → lit_value v l ≡ (lit_value v a && lit_value v b)) }
    ensures node { IfSome result (λ l. node_of l ≤ max (node_of a) (node_of b)) }
    ensures which { IfSome result (λ l. (l ≡ a) ⊎ ((l ≡ b) ⊎ (l.0 ≡ 0))) }
    ensures none { IfNone result ((2 ≤ a.0) × (2 ≤ b.0) × (node_of a ≢ node_of b)) }
{
    syn_rows::joined_literals();
    simple_and(a, b)
}
