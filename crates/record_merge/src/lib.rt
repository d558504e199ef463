//! The logs of all nodes of a service, merged into one order of steps, and the law that the nodes, one step at a time in that
//! order, act as their logs say.
#![tactic(auto)]

mod laws;
mod logged;
mod merging;
mod rules;

pub use laws::{merged_logs_run_as_logged, stamps_stay_within_the_number_of_steps};
pub use logged::{Log, Logged, Logs, Merged, MergedStep, Sent};
pub use merging::merge;
pub use rules::NodeRules;

#[cfg(test)]
mod tests;
