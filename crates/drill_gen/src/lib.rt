//! Drills: the cluster and the events that a number and a size make, and the line of counts of a run. Nothing here knows what an event does.
#![tactic(auto)]

mod cluster;
mod commands;
mod lines;
mod making;
mod names;
mod summary;
mod turns;
mod values;

pub use lines::{LineKind, count_of, put_kinds};
pub use making::drill;
pub use summary::Summary;

#[cfg(test)]
mod tests;
