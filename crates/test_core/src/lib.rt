//! Worked lists of events on the core machine, and decisions of worked lists of reads.
//!
//! Nothing here is for other crates: the tests compare the answers of calls with values worked by hand.
#![tactic(auto)]

#[cfg(test)]
mod commits;
#[cfg(test)]
mod decisions;
#[cfg(test)]
mod events;
#[cfg(test)]
mod starts;
#[cfg(test)]
mod stores;
#[cfg(test)]
mod told;
#[cfg(test)]
mod worked;
