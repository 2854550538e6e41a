//! Guesses of what is worth a commit: at a graph, or at a table as it stands, whose rows may change while they are read. No
//! clause speaks of what they find, and nothing rests on it.

pub(crate) mod added_rows;
pub(crate) mod cuts;
pub(crate) mod fan_outs;
pub(crate) mod freed;
pub(crate) mod neighbourhoods;
pub(crate) mod previews;
