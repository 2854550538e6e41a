//! Places of a search: nodes split in two.

ghost use Rattle.std.specs.Prelude.{◌≡◌};
ghost use Rattle.syn_paths.specs.Searching.{next_at};

/// What comes behind a node: it is on no path, or the last of its path, or another node follows.
#[derive(Clone, Copy, Debug, PartialEq, Eq)]
pub enum Next {
    Off,
    Last,
    To(u32),
}

/// One more unit of flow enters a node, or leaves it.
#[derive(Clone, Copy, Debug, PartialEq, Eq)]
pub enum Place {
    In(u32),
    Out(u32),
}

/// A place that a search marked, and the place in the search's list from which it came; none where it was the top.
#[derive(Clone, Copy, Debug, PartialEq, Eq)]
pub struct Step {
    pub place: Place,
    pub from: Option<usize>,
}

// What comes behind a node.
pub(crate) fn next_at(next: &[Next], node: u32) -> Next
    ensures { result ≡ next_at next.now node }
{
    if (node as usize) < next.len() {
        next[node as usize]
    } else {
        Next::Off
    }
}
