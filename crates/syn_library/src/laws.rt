//! What holds of all fitted plans.

ghost use Rattle.syn_library.specs.Library.{OwnWithin};

/// A plan that names only variables on which the number of a table of at most four variables depends,
/// names no leaf behind the table's variables: so a fitted plan of a cut of two or three leaves names none
/// behind them.
pub fn own_within()
    ensures { OwnWithin }
{}
