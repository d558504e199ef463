//! What is on its way between the nodes, whatever the message: from each node to each other a queue.
#![tactic(auto)]

mod broken;
mod links;

pub use broken::{Broken, Lost, break_off, is_broken, mend};
pub use links::{Links, Ways, cut_short, is_empty, send, take_first};
