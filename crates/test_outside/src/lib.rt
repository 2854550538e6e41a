//! Tests over files, lines and sinks in memory, whose calls fail as they are told, of the adapters over the system, and of commands
//! whose workers wait for each other.
//!
//! Nothing here is for other crates: the status of a run, what was printed and what was written are compared with what was
//! worked by hand.
#![tactic(auto)]

#[cfg(test)]
mod contents;
#[cfg(test)]
mod gates;
#[cfg(test)]
mod harness;
#[cfg(test)]
mod line_mode;
#[cfg(test)]
mod outside;
