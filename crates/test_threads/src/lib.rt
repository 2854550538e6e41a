//! Tests of the shared table, of commits, and of rounds and passes of workers, on graphs that are read from small texts.
//!
//! Nothing here is for other crates: what calls answer, report and leave is compared with values worked by hand, and with
//! what hooks were told. Where commits of several workers may meet, only that is compared which holds whatever the schedule.
#![tactic(auto)]

#[cfg(test)]
mod commits;
#[cfg(test)]
mod contention;
#[cfg(test)]
mod fresh;
#[cfg(test)]
mod harness;
#[cfg(test)]
mod hints;
#[cfg(test)]
mod key_trials;
#[cfg(test)]
mod meetings;
#[cfg(test)]
mod one_rewrite;
#[cfg(test)]
mod passes;
#[cfg(test)]
mod pins;
#[cfg(test)]
mod pools;
#[cfg(test)]
mod proposers;
#[cfg(test)]
mod repeats;
#[cfg(test)]
mod rounds;
#[cfg(test)]
mod steps;
#[cfg(test)]
mod tables;
#[cfg(test)]
mod turns;
#[cfg(test)]
mod worker_hooks;
