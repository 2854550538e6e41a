//! What a replacement does to levels.

ghost use Rattle.syn_levels.specs.Laws.{LevelsStay};

/// A replacement that keeps its root's level raises the level of no node that was there.
pub fn levels_stay()
    ensures { LevelsStay }
{}
