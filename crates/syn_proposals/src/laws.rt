//! What follows of closed rows and of first proposals.

ghost use Rattle.syn_proposals.specs.Laws.{ClosedSavesNothing, FirstOfParts};

/// On closed rows, whatever number a proposal for an AND saves, it is at most 0.
pub fn closed_saves_nothing()
    ensures { ClosedSavesNothing }
{}

/// The first that saves of a part of a list, where nothing before the part saves, is the first of the list.
pub fn first_of_parts()
    ensures { FirstOfParts }
{}
