//! Satisfiability over the gates of a graph: clauses whose literals are the graph's, and a search for values under which they
//! are true. `Clauses` holds the clauses; the only ways in are `push`, whose caller owes that the clause is true, and `learn`,
//! which keeps a clause only where unit propagation along earlier ones (its hints) shows that it follows. So whatever values
//! make the pushed clauses true make all of them true. `Search` has a copy of the clauses with their watched literals, values,
//! the trail, what a conflict comes to; nothing is promised of it but that each call ends. `Solver` holds both, and answers
//! `Refuted` only where `Clauses` has accepted the clause that says so.
#![tactic(auto)]

mod checking;
mod clauses;
mod conflicts;
mod decisions;
mod gate_heap;
mod learning;
mod lists;
mod propagation;
mod search;
mod solver;

pub use clauses::Clauses;
pub use lists::{at, put};
pub use solver::{Answer, Solver};
