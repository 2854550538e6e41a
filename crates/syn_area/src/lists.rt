//! The cuts that are kept of nodes in a round.

ghost use Rattle.std.specs.Prelude.{◌≡◌, ◌+◌, ◌<◌, ◌≤◌, [], ℕ, All, List, IfOk, OnOk, length};
ghost use Rattle.syn_rows.specs.declared.Row.{Row};
ghost use Rattle.syn_truth.specs.declared.TheConstants.{MAX_VARS};
ghost use Rattle.syn_cuts.specs.Leaves.{leaves_of};
ghost use Rattle.syn_area.specs.Kept.{AreListed, IsKept};

use crate::chosen::copied;
use crate::figures::{Cost, Figures, cost_over};
use std::alloc::{AllocError, Global};
use syn_cuts::Cut;

/// A cut with the node of which it is kept, and what a LUT over it costs beside its price.
#[derive(Debug, Default, Drop)]
pub(crate) struct Listed {
    pub(crate) node: u32,
    pub(crate) cost: Cost,
    pub(crate) cut: Cut,
}

// Where the cuts of a node stand: the place of the first, and how many there are.
#[derive(Clone, Copy, Debug, Default, PartialEq, Eq)]
struct Span {
    start: usize,
    len: usize,
}

/// The kept cuts, node after node.
#[derive(Drop)]
pub(crate) struct Lists {
    pub(crate) listed: Vec<Listed>,
    spans: Vec<Span>,
}

// No cuts of so many nodes.
fn no_spans(alloc: Global, count: usize) -> Result<Vec<Span>, AllocError> {
    vec![in alloc; Span::default(); count]
}

// The lesser of a number and a limit.
#[inline]
fn up_to(number: usize, limit: usize) -> usize
    ensures { result ≤ limit }
{
    if number < limit { number } else { limit }
}

// Those of some cuts that stand from a place on, as far as there are so many.
fn part(listed: &[Listed], start: usize, len: usize) -> &[Listed]
    ensures { (rows : List Row) → AreListed rows listed.now → AreListed rows result.now }
{
    let (_, rest) = listed.split_at(up_to(start, listed.len()));
    let (found, _) = rest.split_at(up_to(len, rest.len()));
    found
}

// Where the cuts of a node stand; none of one past the end.
#[inline]
fn span_of(spans: &[Span], node: u32) -> Span {
    if (node as usize) < spans.len() {
        spans[node as usize]
    } else {
        Span::default()
    }
}

impl Lists {
    /// No cuts of so many nodes.
    pub(crate) fn none(alloc: Global, count: usize) -> Result<Lists, AllocError>
        ensures { IfOk result (λ lists. lists.listed.items ≡ []) }
    {
        Ok(Lists {
            listed: Vec::new(alloc),
            spans: no_spans(alloc, count)?,
        })
    }

    /// Forgets all cuts.
    pub(crate) fn clear(&mut self)
        ensures { self.new.listed.items ≡ [] }
    {
        self.listed.clear();
    }

    /// The cuts that were listed for a node last.
    #[inline]
    pub(crate) fn of(&self, node: u32) -> &[Listed]
        ensures { (rows : List Row) → AreListed rows self.now.listed.items → AreListed rows result.now }
    {
        let span = span_of(self.spans.as_slice(), node);
        part(self.listed.as_slice(), span.start, span.len)
    }

    // Lists a cut of a node.
    fn push(&mut self, figures: &[Figures], node: u32, leaves: &[u32]) -> Result<(), AllocError>
        requires { length leaves.now ≤ MAX_VARS }
        ensures { (rows : List Row) → AreListed rows self.old.listed.items → IsKept rows node leaves.now → OnOk result (AreListed rows self.new.listed.items) }
    {
        self.listed.push(Listed {
            node,
            cost: cost_over(figures, leaves),
            cut: copied(leaves),
        })?;
        Ok(())
    }

    // Lists cuts of a node.
    fn push_all(&mut self, figures: &[Figures], node: u32, cuts: &[Cut]) -> Result<(), AllocError>
        ensures { (rows : List Row) → AreListed rows self.old.listed.items → All (IsKept rows node) (leaves_of cuts.now) → OnOk result (AreListed rows self.new.listed.items) }
    {
        for cut in cuts {
            self.push(figures, node, cut.as_slice())?;
        }
        Ok(())
    }

    /// Lists cuts of a node, and the node alone, with what LUTs over them cost by what is estimated.
    pub(crate) fn list(
        &mut self,
        figures: &[Figures],
        node: u32,
        cuts: &[Cut],
    ) -> Result<(), AllocError>
        requires { 0 < node }
        ensures { (rows : List Row) → AreListed rows self.old.listed.items → All (IsKept rows node) (leaves_of cuts.now) → OnOk result (AreListed rows self.new.listed.items) }
    {
        let start = self.listed.len();
        self.push_all(figures, node, cuts)?;
        self.push(figures, node, &[node])?;
        self.set_span(node, start);
        Ok(())
    }

    // Lets the cuts of a node be those from a place on.
    fn set_span(&mut self, node: u32, start: usize)
        ensures { self.new.listed.items ≡ self.old.listed.items }
    {
        if (node as usize) < self.spans.len() {
            self.spans[node as usize] = Span {
                start,
                len: self.listed.len().saturating_sub(start),
            };
        }
    }
}
