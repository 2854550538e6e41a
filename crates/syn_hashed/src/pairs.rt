//! The index by which the row of a pair is found.

ghost use Rattle.std.specs.Prelude.{◌≡◌, ◌≢◌, ℕ, ◌+◌, ◌<◌, ◌≤◌, ◌^◌, ◌++◌, ◌∷◌, [], List, length, true, IfNone, IfOk, IfSome, OnErr, OnOk};
ghost use Rattle.syn_rows.specs.declared.TheConstants.{NODE_LIMIT};
ghost use Rattle.syn_rows.specs.declared.Row.{Row};
ghost use Rattle.syn_rows.specs.Rows.{row_at};
ghost use Rattle.syn_hashed.specs.Hashed.{is_gate, IsHashed};
ghost use Rattle.syn_hashed.specs.Pairs.{bucket, IsIndex, number_at};
ghost use Rattle.syn_hashed.specs.Indexed.{IsIndexOf};

use std::alloc::{AllocError, Global};
use syn_rows::{Lit, Row};

/// An index of rows by their pairs: it finds the row of a pair, and takes rows that are added.
#[derive(Debug, Drop)]
pub struct PairIndex {
    // The greatest node of each bucket, 0 where it has none.
    heads: Vec<u32>,
    // For each node the next smaller one of its bucket, 0 where there is none.
    next: Vec<u32>,
}

impl PairIndex {
    /// The index of given rows. The only error is want of memory.
    pub fn of(alloc: Global, rows: &[Row]) -> Result<PairIndex, AllocError>
        requires { length rows.now < 2 ^ 31 }
        ensures { IfOk result (λ x. IsIndexOf rows.now x) }
    {
        let mut heads = no_nodes(alloc, bucket_count(rows.len()))?;
        let mut next = no_nodes(alloc, rows.len())?;
        index_rows(rows, &mut heads, &mut next);
        Ok(PairIndex { heads, next })
    }

    /// The node whose row is the AND of the two literals in this order.
    pub fn find(&self, rows: &[Row], first: Lit, second: Lit) -> Option<u32>
        requires index { IsIndexOf rows.now self.now }
        requires constant { row_at rows.now 0 ≡ Row.Source }
        ensures some { IfSome result (λ n. (n < length rows.now) × (row_at rows.now n ≡ Row.And first second)) }
        ensures none { IfNone result ((n : ℕ) → row_at rows.now n ≢ Row.And first second) }
    {
        let (heads, next) = (self.heads.as_slice(), self.next.as_slice());
        find_pair(rows, heads, next, first, second)
    }

    /// Puts the row of a pair behind rows that lack it. The only error is want of memory, and leaves the rows as they were.
    pub fn push(&mut self, rows: &mut Vec<Row>, first: Lit, second: Lit) -> Result<(), AllocError>
        requires gate { is_gate (length rows.old.items) (Row.And first second) ≡ true }
        requires new { (n : ℕ) → row_at rows.old.items n ≢ Row.And first second }
        requires index { IsIndexOf rows.old.items self.old }
        requires few { length rows.old.items < NODE_LIMIT }
        ensures ok { OnOk result (rows.new.items ≡ rows.old.items ++ Row.And first second ∷ []) }
        ensures err { OnErr result (rows.new.items ≡ rows.old.items) }
        ensures hashed { (count : ℕ) → IsHashed count rows.old.items → IsHashed count rows.new.items }
        ensures index { IsIndexOf rows.new.items self.new }
    {
        push_pair(rows, &mut self.heads, &mut self.next, first, second)
    }
}

// So many times no node: empty buckets, or the next smaller nodes of nodes in no bucket.
fn no_nodes(alloc: Global, count: usize) -> Result<Vec<u32>, AllocError>
    ensures count { IfOk result (λ v. length v.items ≡ count) }
    ensures none { IfOk result (λ v. (k : ℕ) → number_at v.items k ≡ 0) }
{
    vec![in alloc; 0; count]
}

// How many buckets an index of so many rows has: twice as many, so that a pair that no row has mostly meets an empty one.
fn bucket_count(rows: usize) -> usize
    requires few { rows < 2 ^ 31 }
    ensures some { 0 < result }
    ensures few { result < 2 ^ 32 }
{
    2 * rows + 1
}

// The bucket of a pair, of so many.
#[inline]
fn bucket(count: usize, a: Lit, b: Lit) -> usize
    requires few { count < 2 ^ 32 }
    requires some { 0 < count }
    ensures bucket { result ≡ bucket count a b }
    ensures below { result < count }
{
    let first = a.0.wrapping_mul(2_654_435_769);
    let second = b.0.wrapping_mul(2_246_822_519);
    let hash = first.wrapping_add(second);
    (hash as u64 * count as u64 / 4_294_967_296) as usize
}

// The node whose row is the AND of the two literals in this order.
fn find_pair(rows: &[Row], heads: &[u32], next: &[u32], first: Lit, second: Lit) -> Option<u32>
    requires index { IsIndex (length heads.now) rows.now heads.now next.now }
    requires constant { row_at rows.now 0 ≡ Row.Source }
    requires few { length heads.now < 2 ^ 32 }
    ensures some { IfSome result (λ n. (n < length rows.now) × (row_at rows.now n ≡ Row.And first second)) }
    ensures none { IfNone result ((n : ℕ) → row_at rows.now n ≢ Row.And first second) }
{
    let mut node = heads[bucket(heads.len(), first, second)];
    while node != 0 {
        if rows[node as usize] == Row::And(first, second) {
            return Some(node);
        }
        node = next[node as usize];
    }
    None
}

// Puts the row of the next node into the index.
fn link(heads: &mut Vec<u32>, next: &mut Vec<u32>, node: u32, row: Row)
    requires there { node < length next.old.items }
    requires some { 0 < length heads.old.items }
    requires few { length heads.old.items < 2 ^ 32 }
    ensures heads { length heads.new.items ≡ length heads.old.items }
    ensures next { length next.new.items ≡ length next.old.items }
    ensures index { (count : ℕ) (rows : List Row) → node ≡ length rows → IsIndex count rows heads.old.items next.old.items → IsIndex count (rows ++ row ∷ []) heads.new.items next.new.items }
{
    if let Row::And(a, b) = row {
        let k = bucket(heads.len(), a, b);
        next[node as usize] = heads[k];
        heads[k] = node;
    }
}

fn clear(heads: &mut [u32])
    ensures { (k : ℕ) → number_at heads.new k ≡ 0 }
{
    heads.fill(0);
}

// So many empty buckets.
fn empty_heads(heads: &mut Vec<u32>, count: usize) -> Result<(), AllocError>
    ensures zeros { OnOk result ((k : ℕ) → number_at heads.new.items k ≡ 0) }
    ensures count { OnOk result (length heads.new.items ≡ count) }
    ensures err { OnErr result (heads.new.items ≡ heads.old.items) }
{
    heads.resize(count, 0)?;
    clear(heads.as_mut_slice());
    Ok(())
}

// Makes the index of rows, with empty buckets.
fn index_rows(rows: &[Row], heads: &mut Vec<u32>, next: &mut Vec<u32>)
    requires some { 0 < length heads.old.items }
    requires few { length heads.old.items < 2 ^ 32 }
    requires zeros { (k : ℕ) → number_at heads.old.items k ≡ 0 }
    requires long { length rows.now ≤ length next.old.items }
    requires rows { length rows.now < 2 ^ 32 }
    ensures index { IsIndex (length heads.new.items) rows.now heads.new.items next.new.items }
    ensures heads { length heads.new.items ≡ length heads.old.items }
    ensures next { length next.new.items ≡ length next.old.items }
{
    for (n, row) in rows.iter().enumerate() {
        link(heads, next, n as u32, *row);
    }
}

// Twice as many buckets as rows.
fn grow(rows: &[Row], heads: &mut Vec<u32>, next: &mut Vec<u32>) -> Result<(), AllocError>
    requires index { IsIndex (length heads.old.items) rows.now heads.old.items next.old.items }
    requires few { length rows.now < NODE_LIMIT }
    requires buckets { length heads.old.items < 2 ^ 32 }
    ensures index { IsIndex (length heads.new.items) rows.now heads.new.items next.new.items }
    ensures buckets { length heads.new.items < 2 ^ 32 }
    ensures next { length next.new.items ≡ length next.old.items }
{
    empty_heads(heads, 2 * rows.len() + 2)?;
    index_rows(rows, heads, next);
    Ok(())
}

// Gives the next row a place among the next smaller nodes.
fn lengthen(count: usize, next: &mut Vec<u32>) -> Result<(), AllocError>
    ensures room { OnOk result (count ≤ length next.old.items → count < length next.new.items) }
    ensures index { (buckets : ℕ) (rows : List Row) (heads : List ℕ) → IsIndex buckets rows heads next.old.items → IsIndex buckets rows heads next.new.items }
{
    if next.len() <= count {
        next.push(0)?;
    }
    Ok(())
}

// Makes room for one more row.
fn make_room(rows: &[Row], heads: &mut Vec<u32>, next: &mut Vec<u32>) -> Result<(), AllocError>
    requires index { IsIndex (length heads.old.items) rows.now heads.old.items next.old.items }
    requires few { length rows.now < NODE_LIMIT }
    requires buckets { length heads.old.items < 2 ^ 32 }
    ensures index { IsIndex (length heads.new.items) rows.now heads.new.items next.new.items }
    ensures buckets { length heads.new.items < 2 ^ 32 }
    ensures room { OnOk result (length rows.now < length next.new.items) }
{
    lengthen(rows.len(), next)?;
    if heads.len() <= rows.len() {
        grow(rows, heads, next)?;
    }
    Ok(())
}

// Puts the row of a pair behind rows that lack it.
fn push_pair(
    rows: &mut Vec<Row>,
    heads: &mut Vec<u32>,
    next: &mut Vec<u32>,
    first: Lit,
    second: Lit,
) -> Result<(), AllocError>
    requires gate { is_gate (length rows.old.items) (Row.And first second) ≡ true }
    requires new { (n : ℕ) → row_at rows.old.items n ≢ Row.And first second }
    requires index { IsIndex (length heads.old.items) rows.old.items heads.old.items next.old.items }
    requires few { length rows.old.items < NODE_LIMIT }
    requires buckets { length heads.old.items < 2 ^ 32 }
    ensures ok { OnOk result (rows.new.items ≡ rows.old.items ++ Row.And first second ∷ []) }
    ensures err { OnErr result (rows.new.items ≡ rows.old.items) }
    ensures hashed { (count : ℕ) → IsHashed count rows.old.items → IsHashed count rows.new.items }
    ensures index { IsIndex (length heads.new.items) rows.new.items heads.new.items next.new.items }
    ensures buckets { length heads.new.items < 2 ^ 32 }
{
    make_room(rows.as_slice(), heads, next)?;
    let node = rows.len() as u32;
    rows.push(Row::And(first, second))?;
    let row = Row::And(first, second);
    link(heads, next, node, row);
    Ok(())
}
