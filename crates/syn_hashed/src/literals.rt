//! The map from old nodes to the literals that stand for them in rows that are made again.

ghost use Rattle.std.specs.Prelude.{◌≡◌, ℕ, ◌<◌, ◌^◌, All, Some, map, IfOk, IsSome};
ghost use Rattle.syn_hashed.specs.Visiting.{first_literal, FirstsOf, literal_of};

use std::alloc::{AllocError, Global};
use syn_rows::Lit;

/// The literal that stands for an old one, where its node has one.
#[inline]
pub fn literal_of(literals: &[Option<Lit>], lit: Lit) -> Option<Lit>
    ensures { result ≡ literal_of literals.now lit }
{
    let node = lit.node() as usize;
    if node >= literals.len() {
        return None;
    }
    match literals[node] {
        Some(literal) if lit.complemented() => Some(literal.not()),
        Some(literal) => Some(literal),
        None => None,
    }
}

// The literal that stands for a node before any AND has one.
fn first_literal(source_count: usize, node: u32) -> Option<Lit>
    requires { node < 2 ^ 31 }
    ensures { result ≡ first_literal source_count node }
{
    if node as usize <= source_count {
        Some(Lit::of(node, false))
    } else {
        None
    }
}

/// The literals that stand for so many nodes before any AND has one: node 0 and the sources stand for themselves. The only
/// error is want of memory, as below.
pub fn first_literals(
    alloc: Global,
    source_count: usize,
    count: usize,
) -> Result<Vec<Option<Lit>>, AllocError>
    requires few { count < 2 ^ 31 }
    requires sources { source_count < count }
    ensures { IfOk result (λ literals. FirstsOf source_count count literals.items) }
{
    let mut literals = Vec::new(alloc);
    for node in 0..count {
        literals.push(first_literal(source_count, node as u32))?;
    }
    Ok(literals)
}

/// The literals that stand for old ones, all of whose nodes have one.
pub fn literals_of(
    alloc: Global,
    literals: &[Option<Lit>],
    lits: &[Lit],
) -> Result<Vec<Lit>, AllocError>
    requires { All (λ l. IsSome (literal_of literals.now l)) lits.now }
    ensures { IfOk result (λ found. map (λ l. Some l) found.items ≡ map (literal_of literals.now) lits.now) }
{
    let mut found = Vec::new(alloc);
    for lit in lits {
        found.push(literal_of(literals, *lit).unwrap())?;
    }
    Ok(found)
}
