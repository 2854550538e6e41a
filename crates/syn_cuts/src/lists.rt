//! The listed cuts of all nodes.

ghost use Rattle.std.specs.Prelude.{◌≡◌, ℕ, ◌++◌, ◌∷◌, ◌<◌, [], All, IfOk, OnOk, length, replicate, slice_set};
ghost use Rattle.syn_cuts.specs.Leaves.{leaves_of};
ghost use Rattle.syn_cuts.specs.Lists.{list_at, nontrivial, with_lists, with_spans};

use crate::Cut;
use crate::found::{Entry, Found};
use crate::parts::Part;
use crate::unions::CUTS_PER_NODE;
use arrayvec::ArrayVec;
use std::alloc::{AllocError, Global};
use std::marker::Model;

// Where the list of a node stands: the part, the place of the first cut in it, and how many there are.
#[derive(Clone, Copy, Debug, PartialEq, Eq)]
pub struct Span {
    part: usize,
    start: usize,
    len: usize,
}

/// The listed cuts of each node, by its number. Contracts see the list of these lists.
///
/// The lists stand in parts: those that were set one by one in the first, and those that were found together in a part
/// of their own.
#[derive(Drop)]
pub struct CutLists {
    parts: Vec<Part>,
    spans: Vec<Span>,
}

impl Model for CutLists {
    ghost use Rattle.std.specs.Prelude.{◌<◌, ℕ, All, List, length};
    ghost use Rattle.syn_cuts.specs.Lists.{IsWithin, lists_in};

    ghost Value = { List (List (List ℕ)) };

    ghost view = { λ l. lists_in l.parts.items l.spans.items };

    ghost invariant = { λ l. (0 < length l.parts.items) × All (IsWithin l.parts.items) l.spans.items };
}

// Sets where lists stand that are all in one part.
fn set_spans(spans: &mut [Span], entries: &[Entry], part: usize)
    requires { All (λ e. e.node < length spans.old) entries.now }
    ensures len { length spans.new ≡ length spans.old }
    ensures spans { spans.new ≡ with_spans part spans.old entries.now }
{
    for entry in entries {
        spans[entry.node as usize] = Span {
            part,
            start: entry.start,
            len: entry.len,
        };
    }
}

impl CutLists {
    /// Empty lists of so many nodes.
    pub fn empty(alloc: Global, count: usize) -> Result<CutLists, AllocError>
        ensures { IfOk result (λ lists. lists ≡ replicate count []) }
    {
        let none = Span {
            part: 0,
            start: 0,
            len: 0,
        };
        Ok(CutLists {
            parts: vec![in alloc; Part::new(alloc)]?,
            spans: vec![in alloc; none; count]?,
        })
    }

    /// How many nodes there are.
    pub fn len(&self) -> usize
        ensures { result ≡ length self.now }
    {
        self.spans.len()
    }

    /// The listed cuts of a node.
    #[inline]
    pub fn of(&self, node: u32) -> &[Cut]
        requires { node < length self.now }
        ensures { leaves_of result.now ≡ list_at self.now node }
    {
        let span = self.spans[node as usize];
        self.parts[span.part].slice(span.start, span.len)
    }

    /// The nontrivial cuts of a node: the listed ones but the last, which is the node alone.
    pub fn nontrivial(&self, node: u32) -> &[Cut]
        requires { node < length self.now }
        ensures { leaves_of result.now ≡ nontrivial self.now node }
    {
        let cuts = self.of(node);
        let (first, _) = cuts.split_at(cuts.len().saturating_sub(1));
        first
    }

    /// Sets the list of a node: these cuts, and the node alone.
    pub fn set(&mut self, node: u32, kept: ArrayVec<Cut, CUTS_PER_NODE>) -> Result<(), AllocError>
        requires { node < length self.old }
        ensures { OnOk result (self.new ≡ slice_set self.old node (leaves_of kept.items ++ (node ∷ []) ∷ [])) }
    {
        let first = &mut self.parts[0];
        let start = first.len();
        first.push_list(kept, node)?;
        let len = first.len() - start;
        self.spans[node as usize] = Span {
            part: 0,
            start,
            len,
        };
        Ok(())
    }

    // Sets lists that were found, without a copy of them.
    pub(crate) fn set_found(&mut self, found: Found) -> Result<(), AllocError>
        requires { All (λ f. f.0 < length self.old) found }
        ensures { OnOk result (self.new ≡ with_lists self.old found) }
    {
        let (part, entries) = found.open();
        let number = self.parts.len();
        self.parts.push(part)?;
        set_spans(&mut self.spans, &entries, number);
        Ok(())
    }
}
