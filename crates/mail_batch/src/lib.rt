//! A mailbox on its way from one node to another: the changes that its giver has still to send, the batches in which it sends
//! them, and the mailbox as far as its taker has it.
#![tactic(auto)]

mod intake;
mod laws;
mod sweep;
mod weight;

pub use intake::Intake;
pub use laws::{
    a_batch_keeps_its_limits, a_batch_takes_the_lowest_uids_left,
    changes_at_noted_uids_are_allowed, changes_that_fit_go_in_one_batch,
    the_changes_left_complete_the_taker, the_taker_ends_with_the_same_mailbox, the_uids_left_rise,
};
pub use sweep::Sweep;
