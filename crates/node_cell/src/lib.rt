//! What a thread of a live service owns: a node with its journal, its Lamport stamp and the log of what it took. The log is what
//! the node's replay and the service's record are made of.
#![tactic(auto)]

mod act;
mod act_all;
mod batch;
mod cell;
mod fault;
mod measure;
mod measure_all;
mod start;
mod taken;
mod turn;
mod turns;
mod write;
mod write_all;

pub use cell::Cell;
pub use fault::CellFault;
pub use taken::{Kept, Taken};
pub use turn::{Turn, Turns};

#[cfg(test)]
mod tests;
