//! Recipes: how a command makes the network anew.

use crate::inputs::{LutInputs, LutSizes};
use syn_workers::Workers;

/// How a command rewrites, refactors or resubstitutes.
#[derive(Clone, Copy, Debug)]
pub struct PassOptions {
    /// Whether a replacement that saves nothing may be made too.
    pub zero: bool,
    /// Whether only replacements that keep their root's level are made.
    pub levels: bool,
    /// The number of workers, where one is named.
    pub workers: Option<Workers>,
}

/// How a command looks for nodes of one value.
#[derive(Clone, Copy, Debug)]
pub struct SearchLimits {
    /// At most so many conflicts for each question.
    pub conflicts: u32,
    /// Whether no observed signal may get deeper.
    pub levels: bool,
}

/// How a command looks for others that can take a node's place.
#[derive(Clone, Copy, Debug)]
pub struct ReplaceLimits {
    /// The most new ANDs that take the place of one node: 1 or 2.
    pub gates: u32,
    /// At most so many conflicts for each question.
    pub conflicts: u32,
    /// Whether no observed signal may get deeper.
    pub levels: bool,
}

/// How a command makes the network anew. Contracts see numbers of inputs as numbers.
#[derive(Debug, Drop)]
pub enum Recipe {
    /// `strash`, `st`: makes the network a graph, hashed and compacted.
    Strash,
    /// `balance`, `b`: balances the graph.
    Balance,
    /// `balance -s`, `b -s`: rebuilds trees of ANDs, pairs that many of them share first.
    BalanceShared,
    /// `rewrite [-z] [-L] [-w N]`, `rw`; `rwz` has `-z` set: rewrites the graph until no listed replacement saves a node.
    Rewrite(PassOptions),
    /// `refactor [-z] [-L] [-w N]`, `rf`; `rfz` has `-z` set: refactors the graph until no cone's replacement saves a node.
    Refactor(PassOptions),
    /// `resub [-z] [-L] [-w N]`, `rs`; `rsz` has `-z` set: expresses nodes by others that are there, until no such replacement saves a node.
    Resubstitute(PassOptions),
    /// `fraig [-C n] [-L]`: merges nodes that are shown to have one value, or opposite values, for all values of the sources.
    Merge(SearchLimits),
    /// `sresub [-N n] [-C n] [-L]`, `srs`: replaces nodes by others, or by few new ANDs, that are shown to have their values.
    Replace(ReplaceLimits),
    /// `if [-a] [-K n]`: maps the network to LUTs of so many inputs at most that cost the same; to those that the session has, where none are named.
    Map {
        /// Whether few LUTs are looked for.
        area: bool,
        /// The LUTs.
        luts: Option<LutSizes>,
    },
    /// `if -A [-D d] [-K n]`: maps the network likewise, to few LUTs however deep they lie.
    MapLoosely {
        /// At most so many levels deeper than plain mapping's LUTs, where a number is given.
        slack: Option<u32>,
        /// The LUTs.
        luts: Option<LutSizes>,
    },
    /// `mfs [-w n]`: drops and replaces what LUTs read, and LUTs, by don't-cares; maps a graph first, as `if -a` does.
    ResubstituteLuts {
        /// The most LUTs of a window.
        window: u32,
        /// The LUTs that a graph is mapped to.
        luts: Option<LutSizes>,
    },
    /// `flowmap [-K n]`: maps the network to LUTs of so many inputs at most, likewise, at the least depth that there is.
    MapByFlow(Option<LutInputs>),
    /// `scl`: drops latches that no output needs, and makes one of latches that always hold the same.
    Sweep,
}
